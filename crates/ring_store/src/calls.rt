// The calls that change a ring in its store. A store that is too short gets 10, and a
// refusal leaves every byte as it was.
ghost use Rattle.std.specs.Prelude.{◌≡◌, ◌≤◌, length};
ghost use Rattle.layout.specs.Lent.{made};
ghost use Rattle.turns.specs.Ring.{direct, indirect, said_word, is_refused};
ghost use Rattle.ring_store.specs.Store.{ring_size};
ghost use Rattle.ring_store.specs.Calls.{new_in, turn_in, drain_in, start_in, caught, capture_in, capture_start_in, turn_traced_in, start_traced_in};
ghost use Rattle.ring_store.specs.Private.{step_over, blank_in};

use crate::store;
use crate::store::SIZE;
use codes::words::{BAD_LENGTH, INVALID_PARAM};
use turns::{Catch, Completion, Ring, Said, Step, Track};

// What a turn says that goes on.
const GOING: u64 = 512;

fn word(said: Said) -> u64
    ensures { result ≡ said_word said }
{
    match said {
        Said::Going => GOING,
        Said::Done => 0,
        Said::Ended(refusal) => refusal.word(),
        Said::Refused(refusal) => refusal.word(),
    }
}

fn is_refused(said: Said) -> bool
    ensures { result ≡ is_refused said }
{
    matches!(said, Said::Refused(_))
}

// What a step leaves: the track, and the slot that was filled. A refusal changes nothing.
fn leave(ring: &mut [u8], step: Step) -> u64
    ensures { made result ring.new ≡ step_over ring.old step }
{
    let said = step.said;
    let sent = step.sent;
    let answer = word(said);
    let refused = is_refused(said);
    if refused {
        return answer;
    }
    store::put_track(ring, step.track);
    store::put_sent(ring, sent);
    answer
}

// A track, and every slot blank.
fn make(ring: &mut [u8], t: Track) -> u64
    ensures { made result ring.new ≡ blank_in ring.old t }
{
    if ring.len() < SIZE {
        return BAD_LENGTH;
    }
    store::put_track(ring, t);
    store::put_blanks(ring);
    0
}

// A ring that no transfer ran on, of direct descriptors.
pub fn new(ring: &mut [u8]) -> u64
    ensures { made result ring.new ≡ new_in direct ring.old }
{
    let fresh = Ring::new();
    make(ring, fresh.track)
}

// The same of indirect ones.
pub fn new_indirect(ring: &mut [u8]) -> u64
    ensures { made result ring.new ≡ new_in indirect ring.old }
{
    let other = Ring::new_indirect();
    make(ring, other.track)
}

// A turn of a transfer, with the length of the frames, and a reading in numbers.
pub fn turn(ring: &mut [u8], len: usize, kind: u32, slot: u32, status: u32) -> u64
    ensures { made result ring.new ≡ turn_in ring.old len kind slot status }
{
    if ring.len() < SIZE {
        return BAD_LENGTH;
    }
    let t = store::track(ring);
    if !t.running {
        return INVALID_PARAM;
    }
    let reading = Completion::from_words(kind, slot, status);
    let step = turns::turn_track(t, len, reading);
    leave(ring, step)
}

// A drain turn: frees an owed slot, oldest first.
pub fn drain_turn(ring: &mut [u8], kind: u32, slot: u32, status: u32) -> u64
    ensures { made result ring.new ≡ drain_in ring.old kind slot status }
{
    if ring.len() < SIZE {
        return BAD_LENGTH;
    }
    let t = store::track(ring);
    let reading = Completion::from_words(kind, slot, status);
    let step = turns::drain_track(t, reading);
    leave(ring, step)
}

// The start of a transfer of len bytes of frames: nothing is submitted yet.
pub fn start(ring: &mut [u8], stream: u32, len: usize, period: usize, budget: u64) -> u64
    ensures { made result ring.new ≡ start_in ring.old stream len period budget }
{
    if ring.len() < SIZE {
        return BAD_LENGTH;
    }
    let t = store::track(ring);
    let step = turns::start_track(t, stream, len, period, budget);
    leave(ring, step)
}

// The start of a transfer of len bytes of frames that writes a trace, lent room of some length:
// nothing is written yet.
pub fn start_traced(
    ring: &mut [u8],
    stream: u32,
    len: usize,
    period: u32,
    budget: u64,
    room: usize,
) -> u64
    ensures { made result ring.new ≡ start_traced_in ring.old stream len period budget room }
{
    if ring.len() < SIZE {
        return BAD_LENGTH;
    }
    let t = store::track(ring);
    let step = turns::traced_start_track(t, stream, len, period, budget, room);
    leave(ring, step)
}

// A turn of such a transfer, lent the room again: what it writes stands behind what is written there.
pub fn turn_traced(
    ring: &mut [u8],
    len: usize,
    room: &mut [u8],
    kind: u32,
    slot: u32,
    status: u32,
) -> u64
    ensures { caught result ring.new room.new ≡ turn_traced_in ring.old len room.old kind slot status }
{
    if ring.len() < SIZE {
        return BAD_LENGTH;
    }
    let t = store::track(ring);
    let reading = Completion::from_words(kind, slot, status);
    let step = trace::turn_traced(t, len, room, reading);
    leave(ring, step)
}

// A turn of a capture, lent its recording and the bytes of the completion.
pub fn capture_turn(
    ring: &mut [u8],
    recording: &mut [u8],
    kind: u32,
    slot: u32,
    written: u32,
    bytes: &[u8],
) -> u64
    ensures { caught result ring.new recording.new ≡ capture_in ring.old recording.old kind slot written bytes.now }
{
    if ring.len() < SIZE {
        return BAD_LENGTH;
    }
    let t = store::track(ring);
    let c = Catch::from_words(kind, slot, written, bytes);
    let step = turns::capture_track(t, recording.len(), c);
    turns::copy(recording, t, step, bytes);
    leave(ring, step)
}

// The start of a capture of so many periods, lent a recording of len bytes.
pub fn capture_start(
    ring: &mut [u8],
    stream: u32,
    periods: usize,
    period: usize,
    len: usize,
    budget: u64,
) -> u64
    ensures { made result ring.new ≡ capture_start_in ring.old stream periods period len budget }
{
    if ring.len() < SIZE {
        return BAD_LENGTH;
    }
    let t = store::track(ring);
    let step = turns::capture_start_track(t, stream, periods, period, len, budget);
    leave(ring, step)
}
