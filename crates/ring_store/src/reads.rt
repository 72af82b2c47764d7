// The calls that look at a ring in its store. What they tell stands in the result slice, 8 bytes a
// value. A store or a result slice that is too short gets 10.
ghost use Rattle.std.specs.Prelude.{◌≡◌, ◌&&◌, [], ltb};
ghost use Rattle.std.proofs.lemmas.List.Edits.{sets};
ghost use Rattle.layout.specs.Lent.{shown};
ghost use Rattle.codes.specs.Says.{says, guard};
ghost use Rattle.codes.specs.Answers.{refusal_word};
ghost use Rattle.turns.specs.Reads.{running_of, in_flight_of, free_of, turns_of, stream_of, kept_read, written_read, accepted_read, carried_of};
ghost use Rattle.turns.specs.Consistent.{consistent_of};
ghost use Rattle.ring_store.specs.Store.{track_at, ring_of};
ghost use Rattle.ring_store.specs.Calls.{words, roomy_in, told_in, offer_in, says_room, capture_offer_in, oldest_says};
ghost use Rattle.turns.specs.Calls.{says_sent};

use crate::store;
use crate::store::SIZE;
use codes::Refusal;
use codes::words::{BAD_LENGTH, INVALID_PARAM};
use turns::Period;

// The bytes that a result slice has at the least.
const RESULT: usize = 512;

// Both slices are long enough.
fn roomy(ring: &[u8], res: &[u8]) -> bool
    ensures { result ≡ roomy_in ring.now res.now }
{
    if ring.len() < SIZE {
        return false;
    }
    RESULT <= res.len()
}

fn tell_refusal(ring: &[u8], refusal: Refusal, res: &mut [u8]) -> u64
    ensures { shown result res.new ≡ told_in ring.now res.old (says (refusal_word refusal) []) }
{
    let room = roomy(ring, res);
    if !room {
        return BAD_LENGTH;
    }
    refusal.word()
}

// Values, 8 bytes each, from the start of the result on.
fn put_values(values: &[u64], res: &mut [u8])
    ensures { res.new ≡ sets res.old 0 (words values.now) }
{
    for (i, value) in values.iter().enumerate() {
        layout::put_u64(res, i * 8, *value);
    }
}

// The values that a call tells of a sound ring.
fn tell(ring: &[u8], sound: bool, values: &[u64], res: &mut [u8]) -> u64
    ensures { shown result res.new ≡ told_in ring.now res.old (guard sound (says 1 []) (says 0 values.now)) }
{
    if !roomy(ring, res) {
        return BAD_LENGTH;
    }
    if !sound {
        return INVALID_PARAM;
    }
    put_values(values, res);
    0
}

fn tell_sent(ring: &[u8], sent: Option<Period>, res: &mut [u8]) -> u64
    ensures { shown result res.new ≡ told_in ring.now res.old (says_sent sent) }
{
    match sent {
        None => tell(ring, true, &[0, 0, 0, 0], res),
        Some(p) => {
            let values = [1, p.slot as u64, p.offset as u64, p.len as u64];
            tell(ring, true, &values, res)
        }
    }
}

// What the next turn submits, refused as the turn would be: 1, slot, offset and length, or 0 four
// times.
pub fn offered(ring: &[u8], len: usize, res: &mut [u8]) -> u64
    ensures { shown result res.new ≡ offer_in ring.now len res.old }
{
    if !roomy(ring, res) {
        return BAD_LENGTH;
    }
    let t = store::track(ring);
    let offer = turns::offer_track(t, len);
    match offer {
        Ok(sent) => tell_sent(ring, sent, res),
        Err(refusal) => tell_refusal(ring, refusal, res),
    }
}

// A capture's period has no place in the recording yet.
fn tell_room(ring: &[u8], sent: Option<Period>, res: &mut [u8]) -> u64
    ensures { shown result res.new ≡ told_in ring.now res.old (says_room sent) }
{
    match sent {
        None => tell(ring, true, &[0, 0, 0], res),
        Some(p) => tell(ring, true, &[1, p.slot as u64, p.len as u64], res),
    }
}

// What the next turn of a capture submits, refused as the turn would be: 1, slot and length, or 0
// three times.
pub fn capture_offered(ring: &[u8], len: usize, res: &mut [u8]) -> u64
    ensures { shown result res.new ≡ capture_offer_in ring.now len res.old }
{
    if !roomy(ring, res) {
        return BAD_LENGTH;
    }
    let t = store::track(ring);
    let offer = turns::capture_offer(t, len);
    match offer {
        Ok(sent) => tell_room(ring, sent, res),
        Err(refusal) => tell_refusal(ring, refusal, res),
    }
}

// 1 where a transfer runs, else 0.
pub fn running(ring: &[u8], res: &mut [u8]) -> u64
    ensures { shown result res.new ≡ told_in ring.now res.old (running_of (track_at ring.now)) }
{
    let t = store::track(ring);
    let sound = turns::is_consistent(t);
    let flag = store::flag_of(t.running);
    tell(ring, sound, &[flag as u64], res)
}

// Slots in flight. This read and those below are one for each name of C.
pub fn in_flight(ring: &[u8], res: &mut [u8]) -> u64
    ensures { shown result res.new ≡ told_in ring.now res.old (in_flight_of (track_at ring.now)) }
{
    let t = store::track(ring);
    let sound = turns::is_consistent(t);
    tell(ring, sound, &[t.inflight as u64], res)
}

// The difference is made only of a consistent ring, where it cannot fall below 0.
pub fn free_descriptors(ring: &[u8], res: &mut [u8]) -> u64
    ensures { shown result res.new ≡ told_in ring.now res.old (free_of (track_at ring.now)) }
{
    let t = store::track(ring);
    let sound = turns::is_consistent(t);
    if !sound {
        return tell(ring, false, &[0], res);
    }
    let free = 32 - t.inflight * t.descriptors;
    tell(ring, true, &[free as u64], res)
}

// Turns run in the transfer that runs, or in the last one that ran.
pub fn turns_run(ring: &[u8], res: &mut [u8]) -> u64
    ensures { shown result res.new ≡ told_in ring.now res.old (turns_of (track_at ring.now)) }
{
    let t = store::track(ring);
    let sound = turns::is_consistent(t);
    tell(ring, sound, &[t.turns], res)
}

pub fn stream(ring: &[u8], res: &mut [u8]) -> u64
    ensures { shown result res.new ≡ told_in ring.now res.old (stream_of (track_at ring.now)) }
{
    let t = store::track(ring);
    let sound = turns::is_consistent(t);
    tell(ring, sound, &[t.stream as u64], res)
}

// The bytes of its recording that a capture accepted, the one that runs or the last one that ran.
pub fn kept(ring: &[u8], res: &mut [u8]) -> u64
    ensures { shown result res.new ≡ told_in ring.now res.old (kept_read (track_at ring.now)) }
{
    let t = store::track(ring);
    let sound = turns::is_consistent(t);
    tell(ring, sound, &[t.kept as u64], res)
}

// How long the trace is of the transfer that runs or ran last; 0 where it writes none.
pub fn trace_length(ring: &[u8], res: &mut [u8]) -> u64
    ensures { shown result res.new ≡ told_in ring.now res.old (written_read (track_at ring.now)) }
{
    let t = store::track(ring);
    let sound = turns::is_consistent(t);
    tell(ring, sound, &[t.written as u64], res)
}

// The good completions of the transfer that runs, or of the last one that ran.
pub fn accepted(ring: &[u8], res: &mut [u8]) -> u64
    ensures { shown result res.new ≡ told_in ring.now res.old (accepted_read (track_at ring.now)) }
{
    let t = store::track(ring);
    let sound = turns::is_consistent(t);
    tell(ring, sound, &[t.good], res)
}

// A slot of a consistent ring.
fn is_slot(ring: &[u8], slot: usize) -> bool
    ensures { result ≡ (ltb slot 32 && consistent_of (track_at ring.now)) }
{
    if 32 <= slot {
        return false;
    }
    // a second call of the long form keeps it out of line, and `track` small enough to be inlined
    let t = store::short_track(ring);
    turns::is_consistent(t)
}

// What a slot carries, or carried last: offset and length.
pub fn carried(ring: &[u8], slot: usize, res: &mut [u8]) -> u64
    ensures { shown result res.new ≡ told_in ring.now res.old (carried_of (ring_of ring.now) slot) }
{
    let sound = is_slot(ring, slot);
    let found = store::get_slot(ring, slot);
    tell(ring, sound, &[found.offset as u64, found.len as u64], res)
}

// The oldest in flight, which the next completion must name: 1 and its slot, or 0 twice.
pub fn oldest(ring: &[u8], res: &mut [u8]) -> u64
    ensures { shown result res.new ≡ told_in ring.now res.old (oldest_says (track_at ring.now)) }
{
    let t = store::track(ring);
    let sound = turns::is_consistent(t);
    if t.inflight == 0 {
        return tell(ring, sound, &[0, 0], res);
    }
    tell(ring, sound, &[1, t.tail as u64], res)
}
