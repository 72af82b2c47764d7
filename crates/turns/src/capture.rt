// Receive turns: the device writes periods, and accepted payloads are joined into a lent recording.
// Turn order, ring and budget are playback's: the rules are the very same.
ghost use Rattle.std.specs.Prelude.{◌≡◌, ◌+◌, ◌-◌, ◌≤◌, min, length, true};
ghost use Rattle.turns.specs.Calls.{started_of};
ghost use Rattle.turns.specs.ConsistentLaws.{Consistent};
ghost use Rattle.turns.specs.Capture.{catch_of, length_good, captured_of, caught_of, lends_all, accepts, payload_for, keep_of, caught_turn, capture_call, recording_after, Captures, capture_start, capture_offer};

use crate::reading::Completion;
use crate::ring::{Freed, Period, Ring, Said, Step, Track, Turned};
use crate::{calls, rules};
use codes::Refusal;
use layout;

// What the queue says in one turn of a capture: the status stands behind the payload, in the bytes
// that the host lends of its own buffer.
#[derive(Clone, Copy)]
pub struct Catch {
    pub reading: Option<Completion>,
    // What the device says that it wrote: the payload and the 8 bytes of the status.
    pub written: u32,
    // The length of the bytes lent.
    pub lent: usize,
}

// The payload's length, where there is one.
fn payload_len(written: u32) -> usize
    ensures { result ≡ written - 8 }
{
    (written as usize).saturating_sub(8)
}

impl Catch {
    pub fn from_words(kind: u32, slot: u32, written: u32, bytes: &[u8]) -> Catch
        ensures { result ≡ catch_of kind slot written bytes.now }
    {
        let at = payload_len(written);
        let status = layout::get_u32(bytes, at);
        let reading = Completion::from_words(kind, slot, status);
        Catch {
            reading,
            written,
            lent: bytes.len(),
        }
    }
}

// The written length is of a payload that a period holds.
fn length_good(period: usize, written: u32) -> bool
    ensures { result ≡ length_good period written }
{
    written >= 8 && written as usize - 8 <= period
}

// What a completion comes to: 17 for its length, then 2 for its status.
fn captured(period: usize, written: u32, status: u32) -> Result<(), Refusal>
    ensures { result ≡ captured_of period written status }
{
    let good = length_good(period, written);
    if !good {
        return Err(Refusal::BadCapture);
    }
    rules::played(status)
}

// What a turn's catch comes to.
fn caught(t: Track, c: Catch) -> Result<(), Refusal>
    ensures { result ≡ caught_of t c }
{
    let reading = c.reading;
    match reading {
        None => Ok(()),
        Some(done) => captured(t.period, c.written, done.status),
    }
}

// The bytes that a completion needs: what was written, or all that a device may write.
// No `min`: period + 8 is summed only where it fits.
fn needed(period: usize, written: u32) -> usize
    ensures { result ≡ min written (period + 8) }
{
    let good = payload_len(written);
    if good <= period {
        return written as usize;
    }
    period + 8
}

// A completion is lent enough bytes.
fn lends_all(t: Track, c: Catch) -> bool
    ensures { result ≡ lends_all t c }
{
    if !t.running {
        return true;
    }
    let reading = c.reading;
    match reading {
        None => true,
        Some(_) => {
            let need = needed(t.period, c.written);
            need <= c.lent
        }
    }
}

// The payload, as far as the recording goes.
fn payload_for(t: Track, c: Catch) -> usize
    requires { t.kept ≤ t.lent }
    ensures { result ≡ payload_for t c }
{
    let brought = payload_len(c.written);
    brought.min(t.lent - t.kept)
}

// What is accepted: a payload whose slot was freed and that came to no refusal.
fn accepts(outcome: Result<(), Refusal>, heard: Option<Freed>, payload: usize) -> usize
    ensures { result ≡ accepts outcome heard payload }
{
    match outcome {
        Err(_) => 0,
        Ok(()) => match heard {
            None => 0,
            Some(_) => payload,
        },
    }
}

// So many bytes more were accepted.
fn keep(more: usize, s: Step) -> Step
    requires { s.track.kept + more ≤ s.track.lent }
    ensures { result ≡ keep_of more s }
{
    let t = s.track;
    Step {
        track: Track {
            kept: t.kept + more,
            ..t
        },
        ..s
    }
}

// A turn of the rules, and what it accepted.
fn caught_turn(t: Track, c: Catch) -> Step
    requires { (Consistent t) × (t.running ≡ true) }
    ensures { result ≡ caught_turn t.descriptors t c }
{
    let outcome = caught(t, c);
    let reading = c.reading;
    let s = rules::turn(t.descriptors, t, outcome, reading);
    let n = rules::counted(s);
    let heard = n.heard;
    let payload = payload_for(t, c);
    let more = accepts(outcome, heard, payload);
    keep(more, n)
}

// A capture's turn of the track, lent a recording of some length.
pub fn capture_track(t: Track, len: usize, c: Catch) -> Step
    ensures { result ≡ capture_call t len c }
{
    if !lends_all(t, c) {
        return calls::refused(Refusal::BadLength, t);
    }
    if let Err(refusal) = calls::admit(true, t, len) {
        return calls::refused(refusal, t);
    }
    caught_turn(t, c)
}

// A capture's turn, lent its recording and the bytes of the completion: rule 1 and rule 2, counted.
pub fn capture_turn(
    r: Ring,
    recording: &mut [u8],
    kind: u32,
    slot: u32,
    written: u32,
    bytes: &[u8],
) -> Turned
    ensures { Captures r (capture_call r.track (length recording.old) (catch_of kind slot written bytes.now)) bytes.now recording.old recording.new result }
{
    let t = r.track;
    let c = Catch::from_words(kind, slot, written, bytes);
    let s = capture_track(t, recording.len(), c);
    copy(recording, t, s, bytes);
    calls::turned(r, s)
}

// The accepted bytes, behind those accepted before.
pub fn copy(recording: &mut [u8], t: Track, s: Step, bytes: &[u8])
    ensures { recording.new ≡ recording_after t s bytes.now recording.old }
{
    let u = s.track;
    if u.kept <= t.kept {
        return;
    }
    let more = u.kept - t.kept;
    let payload = layout::part(bytes, 0, more);
    layout::put_bytes(recording, t.kept, payload);
}

// The start of a capture of so many periods on the track, lent a recording of some length.
pub fn capture_start_track(
    t: Track,
    stream: u32,
    periods: usize,
    period: usize,
    len: usize,
    budget: u64,
) -> Step
    ensures { result ≡ capture_start t stream periods period len budget }
{
    if let Err(refusal) = calls::ready(t, period, budget) {
        return calls::refused(refusal, t);
    }
    // so their product is no more than the recording
    if len / period < periods {
        return calls::refused(Refusal::BadLength, t);
    }
    let total = periods * period;
    let track = calls::begun_as(true, len, t, stream, total, period, budget);
    calls::unchanged(Said::Going, track)
}

// The start of a capture: nothing is submitted yet.
pub fn capture_start(
    r: Ring,
    stream: u32,
    periods: usize,
    period: usize,
    recording: &[u8],
    budget: u64,
) -> Turned
    ensures { result ≡ started_of r (capture_start r.track stream periods period (length recording.now) budget) }
{
    let s = capture_start_track(r.track, stream, periods, period, recording.len(), budget);
    calls::started(r, s)
}

// What the next turn of a capture submits: a period for the device to write, or nothing.
pub fn capture_offer(t: Track, len: usize) -> Result<Option<Period>, Refusal>
    ensures { result ≡ capture_offer t len }
{
    calls::offer_as(true, t, len)
}
