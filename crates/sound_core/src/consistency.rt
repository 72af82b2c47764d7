// The consistency test of a state, on its core: what calls leave never fails it.
//
// Tests are put together as values, so that what uses them has no branch.
ghost use Rattle.std.specs.Prelude.{◌≡◌, ◌&&◌, ◌||◌, nat_lt};
ghost use Rattle.codes.specs.Says.{pick};
ghost use Rattle.sound_core.specs.Consistent.{period_ok, numbers_ok, call_ok, held_to, sent_ok, stage_ok, queries_answered, exactly, none_or_all, tables_ok, both_or_neither, consistent_of, params_ok, stream_ok};

use crate::state::{Call, Core, Counts, Params, Stage};
use codes::both;

fn either(a: bool, b: bool) -> bool
    ensures { result ≡ (a || b) }
{
    if a { true } else { b }
}

fn choose(t: bool, a: bool, b: bool) -> bool
    ensures { result ≡ pick t a b }
{
    if t { a } else { b }
}

fn both_or_neither(a: bool, b: bool) -> bool
    ensures { result ≡ both_or_neither a b }
{
    if a { b } else { !b }
}

// A test that is made under the guard alone.
pub(crate) fn held_to(guard: bool, test: bool) -> bool
    ensures { result ≡ held_to guard test }
{
    if guard { test } else { true }
}

// The period rule.
pub(crate) fn period_ok(buffer: u32, period: u32) -> bool
    ensures { result ≡ period_ok buffer period }
{
    if period == 0 {
        return false;
    }
    both(period <= buffer, buffer % period == 0)
}

// Format and rate are numbers of the standard.
pub(crate) fn numbers_ok(p: Params) -> bool
    ensures { result ≡ numbers_ok p }
{
    both(p.format <= 24, p.rate <= 13)
}

// A call that may wait for set-up.
pub(crate) fn call_ok(call: Call) -> bool
    ensures { result ≡ call_ok call }
{
    match call {
        Call::SetParams { to, .. } => numbers_ok(to),
        _ => true,
    }
}

fn set_ok(stream: u32, to: Params, streams: u32) -> bool
    ensures { result ≡ (numbers_ok to && (period_ok to.buffer to.period && nat_lt stream streams)) }
{
    let period = period_ok(to.buffer, to.period);
    both(numbers_ok(to), both(period, stream < streams))
}

// A call whose own request is out.
fn sent_ok(guard: bool, call: Call, streams: u32) -> bool
    ensures { result ≡ sent_ok guard call streams }
{
    match call {
        Call::SetParams { stream, to } => set_ok(stream, to, streams),
        Call::Command { stream, .. } => held_to(guard, stream < streams),
        Call::Remap { .. } => true,
        _ => false,
    }
}

fn stage_ok(guard: bool, g: Stage, streams: u32) -> bool
    ensures { result ≡ stage_ok guard g streams }
{
    match g {
        Stage::Idle => true,
        Stage::JacksAsked(call) | Stage::StreamsAsked(call) | Stage::MapsAsked(call) => {
            call_ok(call)
        }
        Stage::Sent(call) => sent_ok(guard, call, streams),
    }
}

// How many of the three queries are behind.
fn queries_answered(g: Stage, ready: bool) -> u32
    ensures { result ≡ queries_answered g ready }
{
    match g {
        Stage::Idle => if ready { 3 } else { 0 },
        Stage::JacksAsked(_) => 0,
        Stage::StreamsAsked(_) => 1,
        Stage::MapsAsked(_) => 2,
        Stage::Sent(_) => 3,
    }
}

// A table of as many records as configured, where a page holds that many.
fn is_exactly(read: u32, configured: u32, most: u32) -> bool
    ensures { result ≡ exactly read configured most }
{
    both(read == configured, read <= most)
}

// The same, or an empty one.
fn none_or_all(read: u32, configured: u32, most: u32) -> bool
    ensures { result ≡ none_or_all read configured most }
{
    either(read == 0, is_exactly(read, configured, most))
}

fn tables_ok(read: Counts, counts: Counts, n: u32) -> bool
    ensures { result ≡ tables_ok read counts n }
{
    let jacks = none_or_all(read.jacks, counts.jacks, 170);
    let streams = is_exactly(read.streams, counts.streams, 127);
    let maps = none_or_all(read.maps, counts.maps, 170);
    let j = choose(1 <= n, jacks, read.jacks == 0);
    let s = choose(2 <= n, streams, read.streams == 0);
    let m = choose(3 <= n, maps, read.maps == 0);
    both(j, both(s, m))
}

// The test that every call and feed makes.
pub fn consistent(c: Core) -> bool
    ensures { result ≡ consistent_of c }
{
    let stage = c.stage;
    let n = queries_answered(stage, c.ready);
    let done = both_or_neither(c.ready, n == 3);
    let tables = tables_ok(c.read, c.counts, n);
    both(done, both(tables, stage_ok(c.guard, stage, c.read.streams)))
}

// Parameters that are set pass the period rule, and their numbers are in range.
pub fn params_ok(p: Params) -> bool
    ensures { result ≡ params_ok p }
{
    let set = both(numbers_ok(p), period_ok(p.buffer, p.period));
    either(p.known == 0, set)
}

// The test that the start of a transfer makes besides, of its own stream's parameters.
pub fn stream_ok(c: Core, stream: u32, p: Params) -> bool
    ensures { result ≡ stream_ok c p stream }
{
    let looked = both(c.ready, stream < c.counts.streams);
    either(!looked, params_ok(p))
}
