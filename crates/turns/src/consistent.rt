// The consistency test of a ring: what calls leave never fails it.
ghost use Rattle.std.specs.Prelude.{◌≡◌};
ghost use Rattle.turns.specs.Consistent.{mode_ok, placed_of, paced_of, consistent_of};

use crate::ring::{DIRECT, INDIRECT, Track};

// A submission may take so many descriptors.
pub fn mode_ok(descriptors: usize) -> bool
    ensures { result ≡ mode_ok descriptors }
{
    descriptors == DIRECT || descriptors == INDIRECT
}

// The slots are in line.
fn placed(t: Track) -> bool
    ensures { result ≡ placed_of t }
{
    // in flight × descriptors is at most 32; that head is below 32 follows from the last
    mode_ok(t.descriptors)
        && t.tail < 32
        && t.inflight <= 32 / t.descriptors
        && (t.tail + t.inflight) % 32 == t.head
}

// The transfer holds together.
fn paced(t: Track) -> bool
    ensures { result ≡ paced_of t }
{
    t.next <= t.total && (!t.running || (t.period != 0 && t.turns < t.budget))
}

// The consistency test of a ring.
pub fn is_consistent(t: Track) -> bool
    ensures { result ≡ consistent_of t }
{
    placed(t) && paced(t) && t.kept <= t.lent && t.good <= t.turns
}
