// The track and the slots at their places in a store.
ghost use Rattle.std.specs.Prelude.{◌≡◌, ◌+◌, ◌≤◌, [], ◌∷◌, length, get_or};
ghost use Rattle.std.proofs.lemmas.List.Edits.{sets};
ghost use Rattle.codes.specs.Says.{pick};
ghost use Rattle.layout.specs.Bytes.{le, num_at};
ghost use Rattle.turns.specs.Ring.{blank_slot};
ghost use Rattle.ring_store.specs.Store.{ring_size, side_place, track_bytes, side_bytes, whole_of, track_of, track_at, ring_of};
ghost use Rattle.ring_store.specs.Private.{track_over, slot_over, sent_over, blank_over};

use layout;
use turns::{Period, Slot, Track};

// The bytes of a ring: the track, 32 slots, and what a capture or a trace keeps in the track besides.
pub const SIZE: usize = 636;

const TRACK: usize = 96;

const SLOT: usize = 16;

const SLOTS: usize = 32;

// The places of the track's numbers.
const DESCRIPTORS: usize = 0;

const HEAD: usize = 8;

const TAIL: usize = 16;

const IN_FLIGHT: usize = 24;

const TOTAL: usize = 32;

const PERIOD: usize = 40;

const NEXT: usize = 48;

const BUDGET: usize = 56;

const TURNS: usize = 64;

const STREAM: usize = 72;

const RUNNING: usize = 76;

const ROOM: usize = 80;

const GOOD: usize = 88;

const LENT: usize = 608;

const KEPT: usize = 616;

const CAPTURE: usize = 624;

const WRITTEN: usize = 628;

// `running` and `capture` are 0 or 1. With another number there the store holds no ring: 0
// descriptors to a submission fail every test of it.
fn descriptors_of(running: u32, capture: u32, descriptors: usize) -> usize
    ensures { result ≡ pick (whole_of running capture) descriptors 0 }
{
    if 1 < running {
        return 0;
    }
    if 1 < capture { 0 } else { descriptors }
}

pub(crate) fn flag_of(set: bool) -> u32
    ensures { result ≡ pick set 1 0 }
{
    if set { 1 } else { 0 }
}

// A track from its numbers, in the store's order: a number each, as they stand there.
fn track_of(
    descriptors: u64,
    head: u64,
    tail: u64,
    inflight: u64,
    total: u64,
    period: u64,
    next: u64,
    budget: u64,
    turns: u64,
    stream: u32,
    running: u32,
    room: u64,
    good: u64,
    lent: u64,
    kept: u64,
    capture: u32,
    written: u64,
) -> Track
    ensures { result ≡ track_of (descriptors ∷ head ∷ tail ∷ inflight ∷ total ∷ period ∷ next ∷ budget ∷ turns ∷ stream ∷ running ∷ room ∷ good ∷ []) (lent ∷ kept ∷ capture ∷ written ∷ []) }
{
    Track {
        descriptors: descriptors_of(running, capture, descriptors as usize),
        head: head as usize,
        tail: tail as usize,
        inflight: inflight as usize,
        stream,
        total: total as usize,
        period: period as usize,
        next: next as usize,
        budget,
        turns,
        running: running != 0,
        capture: capture != 0,
        lent: lent as usize,
        kept: kept as usize,
        room: room as usize,
        written: written as usize,
        good,
    }
}

// A track by its numbers in a store; bytes past the end of a short one are 0.
fn read_track(ring: &[u8]) -> Track
    ensures { result ≡ track_at ring.now }
{
    track_of(
        layout::get_u64(ring, DESCRIPTORS),
        layout::get_u64(ring, HEAD),
        layout::get_u64(ring, TAIL),
        layout::get_u64(ring, IN_FLIGHT),
        layout::get_u64(ring, TOTAL),
        layout::get_u64(ring, PERIOD),
        layout::get_u64(ring, NEXT),
        layout::get_u64(ring, BUDGET),
        layout::get_u64(ring, TURNS),
        layout::get_u32(ring, STREAM),
        layout::get_u32(ring, RUNNING),
        layout::get_u64(ring, ROOM),
        layout::get_u64(ring, GOOD),
        layout::get_u64(ring, LENT),
        layout::get_u64(ring, KEPT),
        layout::get_u32(ring, CAPTURE),
        layout::get_u64(ring, WRITTEN),
    )
}

// The same for short stores, in a function of its own: so `track` is small enough to be inlined.
pub(crate) fn short_track(ring: &[u8]) -> Track
    ensures { result ≡ track_at ring.now }
{
    read_track(ring)
}

// The track that a store holds; bytes past the end of a short one are 0. Its length is tested once: of an
// array of that length the compiler takes the tests at each field away, and a turn is made of little else.
pub fn track(ring: &[u8]) -> Track
    ensures { result ≡ track_at ring.now }
{
    match ring.first_chunk::<SIZE>() {
        Some(whole) => read_track(whole),
        None => short_track(ring),
    }
}

// The part of a track before the slots.
fn put_front(ring: &mut [u8], t: Track)
    ensures { ring.new ≡ sets ring.old 0 (track_bytes t) }
{
    let flag = flag_of(t.running);
    layout::put_u64(ring, DESCRIPTORS, t.descriptors as u64);
    layout::put_u64(ring, HEAD, t.head as u64);
    layout::put_u64(ring, TAIL, t.tail as u64);
    layout::put_u64(ring, IN_FLIGHT, t.inflight as u64);
    layout::put_u64(ring, TOTAL, t.total as u64);
    layout::put_u64(ring, PERIOD, t.period as u64);
    layout::put_u64(ring, NEXT, t.next as u64);
    layout::put_u64(ring, BUDGET, t.budget);
    layout::put_u64(ring, TURNS, t.turns);
    layout::put_u32(ring, STREAM, t.stream);
    layout::put_u32(ring, RUNNING, flag);
    layout::put_u64(ring, ROOM, t.room as u64);
    layout::put_u64(ring, GOOD, t.good);
}

// The part behind the slots.
fn put_side(ring: &mut [u8], t: Track)
    ensures { ring.new ≡ sets ring.old side_place (side_bytes t) }
{
    let flag = flag_of(t.capture);
    layout::put_u64(ring, LENT, t.lent as u64);
    layout::put_u64(ring, KEPT, t.kept as u64);
    layout::put_u32(ring, CAPTURE, flag);
    layout::put_u64(ring, WRITTEN, t.written as u64);
}

// A track written over a store's.
pub(crate) fn put_track(ring: &mut [u8], t: Track)
    ensures { ring.new ≡ track_over ring.old t }
{
    put_front(ring, t);
    put_side(ring, t);
}

// A slot written over a store's. There are 32: no other is stored.
fn put_slot(ring: &mut [u8], slot: usize, carried: Slot)
    ensures { ring.new ≡ slot_over ring.old slot carried }
{
    if SLOTS <= slot {
        return;
    }
    let at = TRACK + slot * SLOT;
    layout::put_u64(ring, at, carried.offset as u64);
    layout::put_u64(ring, at + 8, carried.len as u64);
}

// What a turn submitted, written in its slot.
pub(crate) fn put_sent(ring: &mut [u8], sent: Option<Period>)
    ensures { ring.new ≡ sent_over ring.old sent }
{
    match sent {
        None => {}
        Some(p) => {
            let carried = Slot {
                offset: p.offset,
                len: p.len,
            };
            put_slot(ring, p.slot, carried);
        }
    }
}

// Every slot blank.
pub(crate) fn put_blanks(ring: &mut [u8])
    ensures { ring.new ≡ blank_over ring.old }
{
    for i in 0..SLOTS {
        put_slot(ring, i, Slot { offset: 0, len: 0 });
    }
}

// What a slot carries; a number that is no slot's carries nothing.
pub(crate) fn get_slot(ring: &[u8], slot: usize) -> Slot
    ensures { result ≡ get_or (ring_of ring.now).slots slot blank_slot }
{
    if SLOTS <= slot {
        return Slot { offset: 0, len: 0 };
    }
    let from = TRACK + slot * SLOT;
    let offset = layout::get_u64(ring, from);
    let len = layout::get_u64(ring, from + 8);
    Slot {
        offset: offset as usize,
        len: len as usize,
    }
}
