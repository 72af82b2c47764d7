// Where the parts of a device stand in its store, and copies between places.
ghost use Rattle.std.specs.Prelude.{◌≡◌, ◌+◌, ◌≤◌, length};
ghost use Rattle.std.proofs.lemmas.List.Edits.{sets};
ghost use Rattle.layout.specs.Bytes.{bytes_at};
ghost use Rattle.model_store.specs.Store.{counts_at};

use model::Counts;

// The three counts stand at the front. A row of parameters is the 24 bytes as received, then one
// byte that says whether there are any.
pub(crate) const JACK_COUNT: usize = 0;

pub(crate) const STREAM_COUNT: usize = 4;

pub(crate) const MAP_COUNT: usize = 8;

pub(crate) const JACKS: usize = 12;

pub(crate) const PCMS: usize = 4092;

pub(crate) const MAPS: usize = 8156;

pub(crate) const PARAMS: usize = 12236;

pub(crate) const HELD: usize = 25;

pub(crate) const PLAYED: usize = 15411;

pub(crate) const WORD: usize = 8;

pub(crate) fn counts_at(s: &[u8]) -> Counts
    ensures { result ≡ counts_at s.now }
{
    Counts {
        jacks: layout::get_u32(s, JACK_COUNT),
        streams: layout::get_u32(s, STREAM_COUNT),
        maps: layout::get_u32(s, MAP_COUNT),
    }
}

// `n` bytes from one place to another.
pub(crate) fn copy(to: &mut [u8], at: usize, from: &[u8], start: usize, n: usize)
    requires { (at + n ≤ length to.old) × (start + n ≤ length from.now) }
    ensures { to.new ≡ sets to.old at (bytes_at start n from.now) }
{
    layout::put_bytes(to, at, &from[start..start + n]);
}
