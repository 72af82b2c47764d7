// The decisions of the turn rules, as turns/src/rules.rt has them: there they are the crate's own, with `requires`.
ghost use Rattle.std.specs.Prelude.{◌≡◌, ◌+◌, ◌*◌, ◌≤◌, ◌<◌};
ghost use Rattle.turns.specs.Cut.{span_of};
ghost use Rattle.turns.specs.Rules.{choose_of, submit, release};

use turns::{Choice, Track};

// The length of the period at an offset.
pub(crate) fn span(period: usize, total: usize, offset: usize) -> usize
    requires { offset ≤ total }
    ensures { result ≡ span_of period total offset }
{
    let left = total - offset;
    if period <= left { period } else { left }
}

// Rule 1's decision.
pub(crate) fn choose(least: usize, t: Track) -> Choice
    requires { t.inflight * t.descriptors ≤ 32 }
    ensures { result ≡ choose_of least t }
{
    let inflight = t.inflight;
    if 32 - inflight * t.descriptors < least {
        return Choice::Wait;
    }
    if t.next < t.total {
        return Choice::Submit;
    }
    if inflight == 0 {
        Choice::Finish
    } else {
        Choice::Wait
    }
}

// The track with the next period in flight.
pub(crate) fn submitted(t: Track) -> Track
    requires { (t.head < 32) × (t.inflight ≤ 32) × (t.next ≤ t.total) }
    ensures { result ≡ submit t }
{
    let next = t.next;
    let len = span(t.period, t.total, next);
    Track {
        head: (t.head + 1) % 32,
        inflight: t.inflight + 1,
        next: next + len,
        ..t
    }
}

// The track with the oldest slot free.
pub(crate) fn released(t: Track) -> Track
    requires { (t.tail < 32) × (0 < t.inflight) }
    ensures { result ≡ release t }
{
    Track {
        tail: (t.tail + 1) % 32,
        inflight: t.inflight - 1,
        ..t
    }
}
