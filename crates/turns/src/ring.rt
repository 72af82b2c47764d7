// The ring record: 32 slots, and where the ring and the transfer that runs over it stand.
ghost use Rattle.std.specs.Prelude.{◌≡◌, [], ◌∷◌};
ghost use Rattle.turns.specs.Ring.{direct, indirect, new_track, new_ring, goes_on};
ghost use Rattle.turns.specs.Reads.{says_number, read_of, running_of, in_flight_of, free_of, turns_of, stream_of, kept_read, written_read, accepted_read, says_carried, carried_of, says_oldest, oldest_of};

use crate::consistent::is_consistent;
use codes::Refusal;

// The descriptors that a submission takes where none is indirect.
pub const DIRECT: usize = 3;

// And where they are indirect.
pub const INDIRECT: usize = 1;

// What a slot carries: a part of the caller's frames. It stays after the slot was freed, until the
// slot is used again.
#[derive(Clone, Copy)]
pub struct Slot {
    pub offset: usize,
    pub len: usize,
}

// All of the ring but its slots: small, so that a turn can be decided without them. What is in
// flight is a number of its own: head equal to tail says nothing of it.
#[derive(Clone, Copy)]
pub struct Track {
    // Descriptors that one submission takes.
    pub descriptors: usize,
    pub head: usize,
    pub tail: usize,
    // Slots in flight.
    pub inflight: usize,
    pub stream: u32,
    // The length of the frames.
    pub total: usize,
    pub period: usize,
    // The offset of the period to submit next.
    pub next: usize,
    pub budget: u64,
    // Turns run.
    pub turns: u64,
    pub running: bool,
    // The device writes the periods, and what it wrote is joined into a lent recording.
    pub capture: bool,
    // The length, at the start, of what is lent at each turn: the frames or the recording.
    pub lent: usize,
    // Bytes of the recording that were accepted.
    pub kept: usize,
    // The length of the room for a trace, lent at the start; 0 where the transfer writes none.
    pub room: usize,
    // The bytes of it that hold the trace so far.
    pub written: usize,
    // Completions of this transfer with 0x8000.
    pub good: u64,
}

#[derive(Clone, Copy)]
pub struct Ring {
    pub track: Track,
    pub slots: [Slot; 32],
}

// A period that a turn submitted: a part of the caller's frames, in a slot.
#[derive(Clone, Copy)]
pub struct Period {
    pub slot: usize,
    pub offset: usize,
    pub len: usize,
}

// A slot that a turn freed, and the status that it came back with.
#[derive(Clone, Copy)]
pub struct Freed {
    pub slot: usize,
    pub status: u32,
}

// What a turn says: it goes on, it is done with Ok, it ended with a refusal, or it was refused and
// ran no turn. No Result: Going and Done are both good, and a refusal may come with or without a turn.
#[derive(Clone, Copy)]
pub enum Said {
    Going,
    Done,
    Ended(Refusal),
    Refused(Refusal),
}

impl Said {
    pub(crate) fn goes_on(self) -> bool
        ensures { result ≡ goes_on self }
    {
        matches!(self, Said::Going)
    }
}

// What a turn does to the track.
#[derive(Clone, Copy)]
pub struct Step {
    pub track: Track,
    pub sent: Option<Period>,
    pub heard: Option<Freed>,
    pub said: Said,
}

// What a turn does to the ring, and the number of turns run in this transfer.
#[derive(Clone, Copy)]
pub struct Turned {
    pub ring: Ring,
    pub sent: Option<Period>,
    pub heard: Option<Freed>,
    pub said: Said,
    pub turns: u64,
}

// A number that a ring keeps; an inconsistent ring tells none.
fn number(t: Track, n: u64) -> Result<u64, Refusal>
    ensures { says_number result ≡ read_of t (n ∷ []) }
{
    if !is_consistent(t) {
        return Err(Refusal::InvalidParam);
    }
    Ok(n)
}

impl Track {
    // A track that no transfer ran on, with some descriptors to a submission.
    pub(crate) fn blank(descriptors: usize) -> Track
        ensures { result ≡ new_track descriptors }
    {
        Track {
            descriptors,
            head: 0,
            tail: 0,
            inflight: 0,
            stream: 0,
            total: 0,
            period: 0,
            next: 0,
            budget: 0,
            turns: 0,
            running: false,
            capture: false,
            lent: 0,
            kept: 0,
            room: 0,
            written: 0,
            good: 0,
        }
    }
}

impl Ring {
    // A ring that no transfer ran on, with some descriptors to a submission.
    fn made(descriptors: usize) -> Ring
        ensures { result ≡ new_ring descriptors }
    {
        Ring {
            track: Track::blank(descriptors),
            slots: [Slot { offset: 0, len: 0 }; 32],
        }
    }

    // A ring of direct descriptors.
    pub fn new() -> Ring
        ensures { result ≡ new_ring direct }
    {
        Ring::made(DIRECT)
    }

    // A ring of indirect ones: a submission takes one.
    pub fn new_indirect() -> Ring
        ensures { result ≡ new_ring indirect }
    {
        Ring::made(INDIRECT)
    }

    // 1 where a transfer runs, else 0.
    pub fn running(self) -> Result<u64, Refusal>
        ensures { says_number result ≡ running_of self.track }
    {
        let t = self.track;
        number(t, u64::from(t.running))
    }

    // Slots in flight.
    pub fn in_flight(self) -> Result<u64, Refusal>
        ensures { says_number result ≡ in_flight_of self.track }
    {
        let t = self.track;
        number(t, t.inflight as u64)
    }

    // The descriptors that are free, of 32.
    pub fn free_descriptors(self) -> Result<u64, Refusal>
        ensures { says_number result ≡ free_of self.track }
    {
        let t = self.track;
        if is_consistent(t) {
            Ok((32 - t.inflight * t.descriptors) as u64)
        } else {
            Err(Refusal::InvalidParam)
        }
    }

    // Turns run in the transfer that runs, or in the last one that ran.
    pub fn turns_run(self) -> Result<u64, Refusal>
        ensures { says_number result ≡ turns_of self.track }
    {
        let t = self.track;
        number(t, t.turns)
    }

    // The stream of the transfer that runs, or of the last one that ran.
    pub fn stream(self) -> Result<u64, Refusal>
        ensures { says_number result ≡ stream_of self.track }
    {
        let t = self.track;
        number(t, t.stream as u64)
    }

    // The bytes of its recording that a capture accepted, the one that runs or the last one that ran.
    pub fn kept(self) -> Result<u64, Refusal>
        ensures { says_number result ≡ kept_read self.track }
    {
        let t = self.track;
        number(t, t.kept as u64)
    }

    // How long the trace is of the transfer that runs or ran last; 0 where it writes none.
    pub fn trace_length(self) -> Result<u64, Refusal>
        ensures { says_number result ≡ written_read self.track }
    {
        let t = self.track;
        number(t, t.written as u64)
    }

    // The good completions of the transfer that runs, or of the last one that ran.
    pub fn accepted(self) -> Result<u64, Refusal>
        ensures { says_number result ≡ accepted_read self.track }
    {
        let t = self.track;
        number(t, t.good)
    }

    // What a slot carries, or carried last.
    pub fn carried(self, slot: usize) -> Result<Slot, Refusal>
        ensures { says_carried result ≡ carried_of self slot }
    {
        if 32 <= slot {
            return Err(Refusal::InvalidParam);
        }
        if !is_consistent(self.track) {
            return Err(Refusal::InvalidParam);
        }
        Ok(self.slots[slot])
    }

    // The oldest slot in flight, which the next completion must name.
    pub fn oldest(self) -> Result<Option<usize>, Refusal>
        ensures { says_oldest result ≡ oldest_of self.track }
    {
        let t = self.track;
        if !is_consistent(t) {
            return Err(Refusal::InvalidParam);
        }
        if t.inflight == 0 {
            return Ok(None);
        }
        Ok(Some(t.tail))
    }
}
