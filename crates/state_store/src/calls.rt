// The calls on a state in a byte store: the call by value on the state that the store holds, with
// what it leaves written over it. Only what changes is written.
ghost use Rattle.std.specs.Prelude.{◌≡◌, ◌≤◌, [], length, None, Some};
ghost use Rattle.layout.specs.Lent.{message_size};
ghost use Rattle.sound_core.specs.Reply.{says_reply, reply_word};
ghost use Rattle.sound_core.specs.declared.plan.Effect.TheVariants.{Nothing};
ghost use Rattle.state_store.specs.Calls.{left, call_in, feed_in, fail_in, opened, open_as, open_in, open_capture_in};
ghost use Rattle.state_store.specs.Steps.{changed, finished, setting_up_by};
ghost use Rattle.state_store.specs.Places.{state_size};

use crate::effect::apply;
use crate::head::{core_by, get_head, is_whole, put_core};
use crate::place::{HEAD, PARAMS, direction_at, life_at, look, params_at, pending_look};
use crate::result::put_result;
use crate::tokens::pending_in;
use codes::words::BAD_LENGTH;
use codes::{Refusal, both};
use pending::is_none;
use sound_core::{
    Call, Core, Effect, Gate, MESSAGE, Plan, Reply, ask_jacks, tell, verdict_by, xfer_gate,
};
use tables::{Fault, Written, page_ok};
use turns::Track;

// The bytes of a state.
pub const SIZE: usize = 14703;

// The least length of a result: a list of 127 streams with its count.
pub const RESULT: usize = 512;

pub fn size() -> u64
    ensures { result ≡ state_size }
{
    SIZE as u64
}

// ---- what a plan comes to; a length is asked for, since what is left is told of a whole state

// A reply as one word: a request of so many bytes to send is 256 and those.
fn word_of(reply: Result<Reply, Refusal>) -> u64
    requires { (says_reply reply).number ≤ 280 }
    ensures { result ≡ reply_word reply }
{
    match reply {
        Ok(Reply::Send(n)) => 256 + n as u64,
        Ok(Reply::Done(_)) => 0,
        Err(refusal) => refusal.word(),
    }
}

// The new core and the effect, in a store that is whole; any other holds no state, and stays.
fn change(state: &mut [u8], whole: bool, effect: Effect, core: Core, page: &[u8])
    requires { state_size ≤ length state.old }
    ensures { state.new ≡ changed whole state.old effect core page.now }
{
    if !whole {
        return;
    }
    put_core(&mut *state, core);
    apply(&mut *state, core.guard, effect, page);
}

// The new core alone.
fn change_core(state: &mut [u8], whole: bool, core: Core)
    requires { state_size ≤ length state.old }
    ensures { state.new ≡ changed whole state.old Nothing core [] }
{
    if !whole {
        return;
    }
    put_core(&mut *state, core);
}

// The result is put first: it lists the table that the state had.
#[inline(always)]
fn finish(
    state: &mut [u8],
    whole: bool,
    plan: Plan,
    page: &[u8],
    message: &mut [u8],
    res: &mut [u8],
) -> u64
    requires { (state_size ≤ length state.old) × (message_size ≤ length message.old) }
    ensures { left result state.new message.new res.new ≡ finished whole state.old plan page.now message.old res.old }
{
    let core = plan.core;
    let say = plan.say;
    let effect = plan.effect;
    put_result(&state[HEAD..PARAMS], say, core.read.streams, &mut *res);
    change(&mut *state, whole, effect, core, page);
    word_of(tell(say, &mut *message))
}

// ---- the calls

// A call, with the ring's track to tell Busy.
pub fn call(state: &mut [u8], t: Track, asked: Call, message: &mut [u8], res: &mut [u8]) -> u64
    ensures { left result state.new message.new res.new ≡ call_in state.old t asked message.old res.old }
{
    if !both(SIZE <= state.len(), RESULT <= res.len()) {
        return BAD_LENGTH;
    }
    if message.len() < MESSAGE {
        return BAD_LENGTH;
    }
    let h = get_head(&state[..]);
    let whole = is_whole(h);
    let found = look(&state[..], asked);
    let plan = sound_core::begin(core_by(whole, h), t, asked, found);
    finish(state, whole, plan, &[], message, res)
}

// The answer page to the request that is out, of which so much was written.
fn feed_by(w: Written, state: &mut [u8], page: &[u8], message: &mut [u8], res: &mut [u8]) -> u64
    ensures { left result state.new message.new res.new ≡ feed_in w state.old page.now message.old res.old }
{
    if !both(SIZE <= state.len(), RESULT <= res.len()) {
        return BAD_LENGTH;
    }
    if !both(page_ok(w, page), MESSAGE <= message.len()) {
        return BAD_LENGTH;
    }
    let h = get_head(&state[..]);
    let whole = is_whole(h);
    let c = core_by(whole, h);
    let stage = c.stage;
    let verdict = verdict_by(w, stage, c.counts, page);
    let found = pending_look(&state[..], stage);
    let plan = sound_core::answer(c, verdict, found);
    finish(state, whole, plan, page, message, res)
}

// The answer page to the request that is out; it counts as written in full.
pub fn feed(state: &mut [u8], page: &[u8], message: &mut [u8], res: &mut [u8]) -> u64
    ensures { left result state.new message.new res.new ≡ feed_in None state.old page.now message.old res.old }
{
    feed_by(None, state, page, message, res)
}

// The same with the length that the device wrote: nothing past it is trusted.
pub fn feed_written(
    state: &mut [u8],
    page: &[u8],
    written: u64,
    message: &mut [u8],
    res: &mut [u8],
) -> u64
    ensures { left result state.new message.new res.new ≡ feed_in (Some written) state.old page.now message.old res.old }
{
    feed_by(Some(written), state, page, message, res)
}

// The queue reports that the request that is out has failed: there is no page.
pub fn feed_failure(state: &mut [u8], message: &mut [u8], res: &mut [u8]) -> u64
    ensures { left result state.new message.new res.new ≡ fail_in state.old message.old res.old }
{
    if !both(SIZE <= state.len(), RESULT <= res.len()) {
        return BAD_LENGTH;
    }
    if message.len() < MESSAGE {
        return BAD_LENGTH;
    }
    let h = get_head(&state[..]);
    let whole = is_whole(h);
    let c = core_by(whole, h);
    let stage = c.stage;
    let found = pending_look(&state[..], stage);
    let plan = sound_core::answer(c, Err(Fault::Refused(Refusal::QueueFailed)), found);
    finish(state, whole, plan, &[], message, res)
}

// The transfer waits for set-up, and its first query goes out.
pub(crate) fn set_up(
    state: &mut [u8],
    whole: bool,
    c: Core,
    waiting: Call,
    message: &mut [u8],
) -> Result<u32, u64>
    requires { (state_size ≤ length state.old) × (message_size ≤ length message.old) }
    ensures { opened result state.new message.new ≡ setting_up_by whole c state.old waiting message.old }
{
    let plan = ask_jacks(c, waiting);
    let core = plan.core;
    let say = plan.say;
    change_core(&mut *state, whole, core);
    let _ = tell(say, &mut *message);
    Err(272)
}

// The start of a transfer, as far as the state goes: a transfer by periods of so many bytes, for
// the ring to start, or else the answer as one word. Of a capture or a playback, with the call that
// waits where set-up goes first.
fn open_as(
    capture: bool,
    waiting: Call,
    state: &mut [u8],
    t: Track,
    stream: u32,
    message: &mut [u8],
) -> Result<u32, u64>
    ensures { opened result state.new message.new ≡ open_as capture waiting state.old t stream message.old }
{
    let lengths = both(SIZE <= state.len(), MESSAGE <= message.len());
    if !lengths {
        return Err(10);
    }
    let h = get_head(&state[..]);
    let whole = is_whole(h);
    let c = core_by(whole, h);
    let params = params_at(&state[..], stream);
    let life = life_at(&state[..], stream);
    let direction = direction_at(&state[..], stream);
    let clear = is_none(pending_in(&state[..]));
    let gate = xfer_gate(
        capture, lengths, clear, c, params, life, direction, t, stream,
    );
    match gate {
        Err(refusal) => Err(refusal.word()),
        Ok(Gate::SetUp) => set_up(state, whole, c, waiting, message),
        Ok(Gate::Open(period)) => Ok(period),
    }
}

// The start of a playback.
pub fn open(state: &mut [u8], t: Track, stream: u32, message: &mut [u8]) -> Result<u32, u64>
    ensures { opened result state.new message.new ≡ open_in state.old t stream message.old }
{
    open_as(false, Call::Xfer { stream }, state, t, stream, message)
}

// The start of a capture.
pub fn open_capture(state: &mut [u8], t: Track, stream: u32, message: &mut [u8]) -> Result<u32, u64>
    ensures { opened result state.new message.new ≡ open_capture_in state.old t stream message.old }
{
    open_as(true, Call::Capture { stream }, state, t, stream, message)
}
