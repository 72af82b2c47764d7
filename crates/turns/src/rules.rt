// The turn rules, over the track: rule 1 decides, submits or ends; rule 2 judges the reading.
// Each step requires only what it uses: a track that is made from bytes can keep no invariant.
ghost use Rattle.std.specs.Prelude.{◌≡◌, ◌+◌, ◌*◌, ◌≤◌, ◌<◌};
ghost use Rattle.turns.specs.Cut.{span_of};
ghost use Rattle.turns.specs.Rules.{choose_of, sent_of, submit, comes_to, played_of, is_oldest, judge_of, release, accept, settle, hear, turn_of, ticked, counted_of};
ghost use Rattle.turns.specs.Private.{Placed};

use crate::reading::Completion;
use crate::ring::{Freed, Period, Said, Step, Track};
use codes::{Cause, Refusal, status_is_ok};

// What rule 1 does.
#[derive(Clone, Copy)]
pub enum Choice {
    Submit,
    Finish,
    Wait,
}

// What rule 2 makes of a completion. A bad one carries the refusal that ends the transfer.
// No Result: a wrong slot and a bad completion both end the transfer, but only the bad one is freed.
#[derive(Clone, Copy)]
pub enum Verdict {
    WrongSlot,
    Good,
    Bad(Refusal),
}

// The length of the period at an offset.
fn span(period: usize, total: usize, offset: usize) -> usize
    requires { offset ≤ total }
    ensures { result ≡ span_of period total offset }
{
    let left = total - offset;
    period.min(left)
}

// Rule 1's decision.
pub(crate) fn choose(least: usize, t: Track) -> Choice
    requires { t.inflight * t.descriptors ≤ 32 }
    ensures { result ≡ choose_of least t }
{
    let inflight = t.inflight;
    if 32 - inflight * t.descriptors < least {
        return Choice::Wait;
    }
    if t.next < t.total {
        return Choice::Submit;
    }
    if inflight == 0 {
        Choice::Finish
    } else {
        Choice::Wait
    }
}

// What goes out, at head.
pub(crate) fn outgoing(t: Track) -> Option<Period>
    requires { t.next ≤ t.total }
    ensures { result ≡ sent_of t }
{
    let next = t.next;
    let len = span(t.period, t.total, next);
    Some(Period {
        slot: t.head,
        offset: next,
        len,
    })
}

// The track with the next period in flight.
fn submit(t: Track) -> Track
    requires { (t.head < 32) × (t.inflight ≤ 32) × (t.next ≤ t.total) }
    ensures { result ≡ submit t }
{
    let next = t.next;
    let len = span(t.period, t.total, next);
    Track {
        head: (t.head + 1) % 32,
        inflight: t.inflight + 1,
        next: next + len,
        ..t
    }
}

// The track with the oldest slot free.
pub(crate) fn release(t: Track) -> Track
    requires { (t.tail < 32) × (0 < t.inflight) }
    ensures { result ≡ release t }
{
    Track {
        tail: (t.tail + 1) % 32,
        inflight: t.inflight - 1,
        ..t
    }
}

// The same of a good completion, which is counted.
fn accept(t: Track) -> Track
    requires { (t.tail < 32) × (0 < t.inflight) × (t.good < t.budget) }
    ensures { result ≡ accept t }
{
    Track {
        good: t.good + 1,
        ..release(t)
    }
}

// What the completion of a period that was played comes to.
pub(crate) fn played(status: u32) -> Result<(), Refusal>
    ensures { result ≡ played_of status }
{
    let ok = status_is_ok(status);
    if ok {
        Ok(())
    } else {
        Err(Refusal::IoError(Cause::Status(status)))
    }
}

// What a reading of a playback comes to.
pub(crate) fn comes_to_played(reading: Option<Completion>) -> Result<(), Refusal>
    ensures { result ≡ comes_to played_of reading }
{
    match reading {
        None => Ok(()),
        Some(c) => played(c.status),
    }
}

// The slot is the oldest in flight.
pub(crate) fn is_oldest(t: Track, slot: u32) -> bool
    ensures { result ≡ is_oldest t slot }
{
    t.inflight != 0 && slot as usize == t.tail
}

// Rule 2's decision.
fn judge(t: Track, slot: u32, outcome: Result<(), Refusal>) -> Verdict
    ensures { result ≡ judge_of t slot outcome }
{
    let oldest = is_oldest(t, slot);
    if !oldest {
        return Verdict::WrongSlot;
    }
    match outcome {
        Ok(()) => Verdict::Good,
        Err(refusal) => Verdict::Bad(refusal),
    }
}

// What is made of a completion, by what it comes to.
fn settle(
    outcome: Result<(), Refusal>,
    sent: Option<Period>,
    t: Track,
    slot: u32,
    status: u32,
) -> Step
    requires { (t.tail < 32) × (t.good < t.budget) }
    ensures { result ≡ settle (judge_of t slot outcome) sent t slot status }
{
    let v = judge(t, slot, outcome);
    match v {
        Verdict::WrongSlot => Step {
            track: t,
            sent,
            heard: None,
            said: Said::Ended(Refusal::WrongToken),
        },
        Verdict::Good => Step {
            track: accept(t),
            sent,
            heard: Some(Freed {
                slot: slot as usize,
                status,
            }),
            said: Said::Going,
        },
        Verdict::Bad(refusal) => Step {
            track: release(t),
            sent,
            heard: Some(Freed {
                slot: slot as usize,
                status,
            }),
            said: Said::Ended(refusal),
        },
    }
}

// Rule 2: the reading, and what it comes to.
fn hear(
    outcome: Result<(), Refusal>,
    sent: Option<Period>,
    t: Track,
    reading: Option<Completion>,
) -> Step
    requires { (t.tail < 32) × (t.good < t.budget) }
    ensures { result ≡ hear outcome sent t reading }
{
    match reading {
        None => Step {
            track: t,
            sent,
            heard: None,
            said: Said::Going,
        },
        Some(c) => settle(outcome, sent, t, c.slot, c.status),
    }
}

// One turn: rule 1, then rule 2.
pub(crate) fn turn(
    least: usize,
    t: Track,
    outcome: Result<(), Refusal>,
    reading: Option<Completion>,
) -> Step
    requires { (Placed t) × (t.next ≤ t.total) × (t.good < t.budget) }
    ensures { result ≡ turn_of least t outcome reading }
{
    let choice = choose(least, t);
    match choice {
        Choice::Submit => {
            let sent = outgoing(t);
            let fuller = submit(t);
            hear(outcome, sent, fuller, reading)
        }
        Choice::Finish => Step {
            track: t,
            sent: None,
            heard: None,
            said: Said::Done,
        },
        Choice::Wait => hear(outcome, None, t, reading),
    }
}

// The track with one turn more.
fn ticked(running: bool, t: Track) -> Track
    requires { t.turns < t.budget }
    ensures { result ≡ ticked running t }
{
    Track {
        turns: t.turns + 1,
        running,
        ..t
    }
}

// A turn counts one against the budget.
pub(crate) fn counted(s: Step) -> Step
    requires { s.track.turns < s.track.budget }
    ensures { result ≡ counted_of s }
{
    let t = s.track;
    let said = s.said;
    if !said.goes_on() {
        return Step {
            track: ticked(false, t),
            ..s
        };
    }
    let spent = t.turns + 1;
    if spent == t.budget {
        Step {
            track: ticked(false, t),
            said: Said::Ended(Refusal::OutOfTurns),
            ..s
        }
    } else {
        Step {
            track: ticked(true, t),
            said: Said::Going,
            ..s
        }
    }
}
