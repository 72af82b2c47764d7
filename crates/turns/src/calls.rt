// The calls on a ring: each refusal leaves the ring as it was.
ghost use Rattle.std.specs.Prelude.{◌≡◌, ◌≤◌, ◌<◌, length, take, drop, Ok, Err};
ghost use Rattle.turns.specs.Cut.{payload};
ghost use Rattle.turns.specs.Calls.{refused_of, unchanged_of, length_agrees, room_agrees, runs_as, admit, traced_call, turn_call, freed_of, drained, drain_call, begun_as, idle_of, ready, start_call, periods_of, start_traced, ring_after, turned_of, started_of, offer_by, offer_as, offer_call, shown_by};

use crate::consistent::is_consistent;
use crate::reading::Completion;
use crate::ring::{Freed, Period, Ring, Said, Slot, Step, Track, Turned};
use crate::rules;
use crate::rules::Choice;
use codes::Refusal;
use layout::part;

// Nothing was submitted and nothing freed.
pub(crate) fn unchanged(said: Said, t: Track) -> Step
    ensures { result ≡ unchanged_of said t }
{
    Step {
        track: t,
        sent: None,
        heard: None,
        said,
    }
}

// A refusal leaves the track as it was.
pub(crate) fn refused(refusal: Refusal, t: Track) -> Step
    ensures { result ≡ refused_of refusal t }
{
    unchanged(Said::Refused(refusal), t)
}

// What is lent is as long as at the start.
pub(crate) fn length_agrees(t: Track, len: usize) -> bool
    ensures { result ≡ length_agrees t len }
{
    !t.running || len == t.lent
}

// A transfer runs, and it is a capture, or it is none.
pub(crate) fn runs_as(capture: bool, t: Track) -> bool
    ensures { result ≡ runs_as capture t }
{
    t.running && t.capture == capture
}

// The room of a trace is as long as at the start.
fn room_agrees(t: Track, room: usize) -> bool
    ensures { result ≡ room_agrees t room }
{
    !t.running || room == t.room
}

// What refuses a turn or an offer of either direction, lent something of a length.
pub(crate) fn admit(capture: bool, t: Track, len: usize) -> Result<(), Refusal>
    ensures { result ≡ admit capture t len Err (Ok tt) }
{
    if !length_agrees(t, len) {
        return Err(Refusal::BadLength);
    }
    if !is_consistent(t) {
        return Err(Refusal::InvalidParam);
    }
    if !runs_as(capture, t) {
        return Err(Refusal::InvalidParam);
    }
    Ok(())
}

// A turn of the track, lent frames and room for its trace, each of some length.
pub fn traced_track(t: Track, len: usize, room: usize, reading: Option<Completion>) -> Step
    ensures { result ≡ traced_call t len room reading }
{
    if !room_agrees(t, room) {
        return refused(Refusal::BadLength, t);
    }
    if let Err(refusal) = admit(false, t, len) {
        return refused(refusal, t);
    }
    let outcome = rules::comes_to_played(reading);
    let s = rules::turn(t.descriptors, t, outcome, reading);
    rules::counted(s)
}

// A turn of the track, lent frames of some length: it writes no trace.
pub fn turn_track(t: Track, len: usize, reading: Option<Completion>) -> Step
    ensures { result ≡ turn_call t len reading }
{
    traced_track(t, len, 0, reading)
}

// An owed slot's completion: its status plays no part.
fn freed(t: Track, slot: u32, status: u32) -> Step
    requires { t.tail < 32 }
    ensures { result ≡ freed_of t slot status }
{
    let oldest = rules::is_oldest(t, slot);
    if !oldest {
        return unchanged(Said::Ended(Refusal::WrongToken), t);
    }
    Step {
        track: rules::release(t),
        sent: None,
        heard: Some(Freed {
            slot: slot as usize,
            status,
        }),
        said: Said::Done,
    }
}

// What a drain turn does on a ring that no transfer runs on.
fn drained(t: Track, reading: Option<Completion>) -> Step
    requires { t.tail < 32 }
    ensures { result ≡ drained t reading }
{
    match reading {
        None => unchanged(Said::Done, t),
        Some(c) => freed(t, c.slot, c.status),
    }
}

// A drain turn of the track.
pub fn drain_track(t: Track, reading: Option<Completion>) -> Step
    ensures { result ≡ drain_call t reading }
{
    if !is_consistent(t) {
        return refused(Refusal::InvalidParam, t);
    }
    if t.running {
        return refused(Refusal::InvalidParam, t);
    }
    drained(t, reading)
}

// The track with which a transfer starts. The numbers of a start stay parameters, as in a C entry.
pub(crate) fn begun_as(
    capture: bool,
    lent: usize,
    t: Track,
    stream: u32,
    total: usize,
    period: usize,
    budget: u64,
) -> Track
    ensures { result ≡ begun_as capture lent t stream total period budget }
{
    Track {
        stream,
        total,
        period,
        budget,
        running: true,
        capture,
        lent,
        ..Track::blank(t.descriptors)
    }
}

// What refuses a start of either direction.
pub(crate) fn ready(t: Track, period: usize, budget: u64) -> Result<(), Refusal>
    ensures { result ≡ ready t period budget Err (Ok tt) }
{
    if !is_consistent(t) {
        return Err(Refusal::InvalidParam);
    }
    if !is_idle(t) {
        return Err(Refusal::Busy);
    }
    if period == 0 {
        return Err(Refusal::InvalidParam);
    }
    if budget == 0 {
        return Err(Refusal::OutOfTurns);
    }
    Ok(())
}

// The start of a transfer on the track.
pub fn start_track(t: Track, stream: u32, total: usize, period: usize, budget: u64) -> Step
    ensures { result ≡ start_call t stream total period budget }
{
    if let Err(refusal) = ready(t, period, budget) {
        return refused(refusal, t);
    }
    let track = begun_as(false, total, t, stream, total, period, budget);
    unchanged(Said::Going, track)
}

// The periods of so many bytes, the last one perhaps shorter.
fn periods(total: usize, period: usize) -> usize
    requires { (0 < period) × (total < 4294967296) }
    ensures { (result ≡ periods_of total period) × (result ≤ 4294967296) }
{
    total.div_ceil(period)
}

// The start of a transfer on the track that writes a trace, lent room of some length.
pub fn traced_start_track(
    t: Track,
    stream: u32,
    total: usize,
    period: u32,
    budget: u64,
    room: usize,
) -> Step
    ensures { result ≡ start_traced t stream total period budget room }
{
    let span = period as usize;
    if let Err(refusal) = ready(t, span, budget) {
        return refused(refusal, t);
    }
    if 4294967296 <= total {
        return refused(Refusal::BadLength, t);
    }
    let n = periods(total, span);
    if room < 19 + 20 * n {
        return refused(Refusal::BadLength, t);
    }
    let begun = begun_as(false, total, t, stream, total, span, budget);
    unchanged(Said::Going, Track { room, ..begun })
}

// No transfer runs and no slot is in flight: else a new call is Busy.
pub fn is_idle(t: Track) -> bool
    ensures { result ≡ idle_of t }
{
    !t.running && t.inflight == 0
}

// The ring after a step: what was submitted stands in its slot. The rules submit below 32, and no
// other slot would be stored.
pub(crate) fn ring_after(r: Ring, s: Step) -> Ring
    ensures { result ≡ ring_after r s }
{
    let track = s.track;
    let sent = s.sent;
    let mut ring = Ring { track, ..r };
    let Some(p) = sent else {
        return ring;
    };
    if 32 <= p.slot {
        return ring;
    }
    ring.slots[p.slot] = Slot {
        offset: p.offset,
        len: p.len,
    };
    ring
}

// What a step comes to on the ring.
pub(crate) fn turned(r: Ring, s: Step) -> Turned
    ensures { result ≡ turned_of r s }
{
    let track = s.track;
    let sent = s.sent;
    let heard = s.heard;
    let said = s.said;
    Turned {
        ring: ring_after(r, s),
        sent,
        heard,
        said,
        turns: track.turns,
    }
}

// A start has run no turn.
pub(crate) fn started(r: Ring, s: Step) -> Turned
    ensures { result ≡ started_of r s }
{
    Turned {
        turns: 0,
        ..turned(r, s)
    }
}

// A turn of the ring, lent frames of some length.
pub(crate) fn turn_of(r: Ring, len: usize, reading: Option<Completion>) -> Turned
    ensures { result ≡ turned_of r (turn_call r.track len reading) }
{
    let s = turn_track(r.track, len, reading);
    turned(r, s)
}

// A turn of a transfer, lent the frames again: rule 1 and rule 2, counted.
pub fn turn(r: Ring, frames: &[u8], reading: Option<Completion>) -> Turned
    ensures { result ≡ turned_of r (turn_call r.track (length frames.now) reading) }
{
    turn_of(r, frames.len(), reading)
}

// A drain turn: frees an owed slot, oldest first.
pub fn drain_turn(r: Ring, reading: Option<Completion>) -> Turned
    ensures { result ≡ turned_of r (drain_call r.track reading) }
{
    let s = drain_track(r.track, reading);
    turned(r, s)
}

// The start of a transfer of some frames: nothing is submitted yet.
pub fn start(r: Ring, stream: u32, frames: &[u8], period: usize, budget: u64) -> Turned
    ensures { result ≡ started_of r (start_call r.track stream (length frames.now) period budget) }
{
    let s = start_track(r.track, stream, frames.len(), period, budget);
    started(r, s)
}

// The start of a transfer of some frames that writes a trace, lent room for it: nothing is written yet.
pub fn traced_start(
    r: Ring,
    stream: u32,
    frames: &[u8],
    period: u32,
    budget: u64,
    room: &[u8],
) -> Turned
    ensures { result ≡ started_of r (start_traced r.track stream (length frames.now) period budget (length room.now)) }
{
    let s = traced_start_track(r.track, stream, frames.len(), period, budget, room.len());
    started(r, s)
}

// What the next turn of the track submits.
fn offer_by(choice: Choice, t: Track) -> Option<Period>
    requires { t.next ≤ t.total }
    ensures { result ≡ offer_by choice t }
{
    match choice {
        Choice::Submit => rules::outgoing(t),
        Choice::Finish => None,
        Choice::Wait => None,
    }
}

// What the next turn of the track submits, or its refusal, in a direction.
pub(crate) fn offer_as(capture: bool, t: Track, len: usize) -> Result<Option<Period>, Refusal>
    ensures { result ≡ offer_as capture t len }
{
    admit(capture, t, len)?;
    let choice = rules::choose(t.descriptors, t);
    Ok(offer_by(choice, t))
}

// What the next turn of the track submits, or its refusal.
pub fn offer_track(t: Track, len: usize) -> Result<Option<Period>, Refusal>
    ensures { result ≡ offer_call t len }
{
    offer_as(false, t, len)
}

// What the next turn submits: slot, offset and length, or nothing; refused as the turn would be.
// The ring is unchanged: submit the period to the device, poll, then call `turn`.
pub fn next_offer(r: Ring, frames: &[u8]) -> Result<Option<Period>, Refusal>
    ensures { result ≡ offer_call r.track (length frames.now) }
{
    offer_track(r.track, frames.len())
}

// The part of the frames that a submission shows.
fn payload<'a>(frames: &'a [u8], sent: Option<Period>) -> &'a [u8]
    ensures { result.now ≡ payload frames.now sent }
{
    match sent {
        None => &frames[..0],
        Some(p) => part(frames, p.offset, p.len),
    }
}

// The period that the next turn submits, as a part of the caller's frames itself.
pub fn offered<'a>(r: Ring, frames: &'a [u8]) -> &'a [u8]
    ensures { result.now ≡ shown_by (offer_call r.track (length frames.now)) frames.now }
{
    let o = next_offer(r, frames);
    match o {
        Ok(sent) => payload(frames, sent),
        Err(_) => &frames[..0],
    }
}
