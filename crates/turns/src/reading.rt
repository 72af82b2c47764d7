// What the queue says in one turn.
ghost use Rattle.std.specs.Prelude.{◌≡◌};
ghost use Rattle.turns.specs.Script.{reading_of};

// A slot that the device completed, and its status: a quiet turn reads none.
#[derive(Clone, Copy)]
pub struct Completion {
    pub slot: u32,
    pub status: u32,
}

impl Completion {
    // The bytes of a reading in a script: kind, slot, status, 4 bytes each.
    pub const SIZE: usize = 12;

    // Kind 0 is quiet, and every other kind is completed.
    pub fn from_words(kind: u32, slot: u32, status: u32) -> Option<Completion>
        ensures { result ≡ reading_of kind slot status }
    {
        if kind == 0 {
            return None;
        }
        Some(Completion { slot, status })
    }
}
