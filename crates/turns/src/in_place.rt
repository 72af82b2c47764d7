// The ring advanced in its caller's own storage: thin wrappers over the calls by value.
ghost use Rattle.std.specs.Prelude.{◌≡◌, length};
ghost use Rattle.turns.specs.InPlace.{turn_words, drain_words, Leaves};

use crate::calls;
use crate::reading::Completion;
use crate::ring::{Freed, Period, Ring, Said, Turned};

// What a turn tells, without its ring.
#[derive(Clone, Copy)]
pub struct Report {
    pub sent: Option<Period>,
    pub heard: Option<Freed>,
    pub said: Said,
    pub turns: u64,
}

// A turn by value, of a reading in numbers.
fn turn_words(r: Ring, len: usize, kind: u32, slot: u32, status: u32) -> Turned
    ensures { result ≡ turn_words r len kind slot status }
{
    let reading = Completion::from_words(kind, slot, status);
    calls::turn_of(r, len, reading)
}

// A drain turn by value, of a reading in numbers.
fn drain_words(r: Ring, kind: u32, slot: u32, status: u32) -> Turned
    ensures { result ≡ drain_words r kind slot status }
{
    let reading = Completion::from_words(kind, slot, status);
    calls::drain_turn(r, reading)
}

// The ring goes behind the reference, and the rest is told.
fn leave(ring: &mut Ring, t: Turned) -> Report
    ensures { Leaves t ring.new result }
{
    *ring = t.ring;
    Report {
        sent: t.sent,
        heard: t.heard,
        said: t.said,
        turns: t.turns,
    }
}

// A turn of a transfer: the ring behind the reference is advanced.
pub fn turn_in_place(ring: &mut Ring, frames: &[u8], kind: u32, slot: u32, status: u32) -> Report
    ensures { Leaves (turn_words ring.old (length frames.now) kind slot status) ring.new result }
{
    let t = turn_words(*ring, frames.len(), kind, slot, status);
    leave(ring, t)
}

// A drain turn: the ring behind the reference is advanced.
pub fn drain_in_place(ring: &mut Ring, kind: u32, slot: u32, status: u32) -> Report
    ensures { Leaves (drain_words ring.old kind slot status) ring.new result }
{
    let t = drain_words(*ring, kind, slot, status);
    leave(ring, t)
}

// A turn of a ring that is kept here and lent: programs and tests call it to run the form in place.
pub fn turn_lent(ring: Ring, frames: &[u8], kind: u32, slot: u32, status: u32) -> Turned
    ensures { result ≡ turn_words ring (length frames.now) kind slot status }
{
    let mut own = ring;
    let told = turn_in_place(&mut own, frames, kind, slot, status);
    Turned {
        ring: own,
        sent: told.sent,
        heard: told.heard,
        said: told.said,
        turns: told.turns,
    }
}
