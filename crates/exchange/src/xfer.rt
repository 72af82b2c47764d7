// The start of a transfer, of a playback or a capture, and a playback over a whole script.
ghost use Rattle.std.specs.Prelude.{◌≡◌, ◌≤◌, length};
ghost use Rattle.layout.specs.Lent.{message_size};
ghost use Rattle.sound_core.specs.Reply.{message_after};
ghost use Rattle.exchange.specs.Xfer.{gate_as, set_up_with, refused_step, set_up_step_with, start_step, done_step, start_of, start_traced_of, xfer_of, capture_of, start_says, start_traced_says, xfer_says, capture_says, Transfers};

use crate::effect::{direction_of, life_of, params_of};
use crate::state::Sound;
use codes::{Refusal, both};
use pending::is_none;
use records::Query;
use sound_core::{Call, Gate, MESSAGE, ask_jacks, tell, xfer_gate};
use turns::{
    Completion, Ring, Said, Track, Transferred, Turned, capture_start, start, traced_start,
    transfer,
};

// A request of so many bytes to send, or what the start or the last turn says. No `Result`: a
// refusal is one of the things that a turn says.
#[derive(Clone, Copy)]
pub enum XferReply {
    Send(usize),
    Says(Said),
}

#[derive(Clone, Copy)]
pub struct XferStep {
    pub sound: Sound,
    pub ring: Ring,
    pub reply: XferReply,
    pub turns: u64,
}

// The checks of a capture, or of any other transfer.
pub(crate) fn checked(
    capture: bool,
    lengths: bool,
    clear: bool,
    s: Sound,
    t: Track,
    stream: u32,
) -> Result<Gate, Refusal>
    ensures { result ≡ gate_as capture lengths clear s t stream }
{
    let params = params_of(s, stream);
    let life = life_of(s, stream);
    let direction = direction_of(s, stream);
    xfer_gate(
        capture, lengths, clear, s.core, params, life, direction, t, stream,
    )
}

fn refused(s: Sound, ring: Ring, refusal: Refusal) -> XferStep
    ensures { result ≡ refused_step s ring refusal }
{
    XferStep {
        sound: s,
        ring,
        reply: XferReply::Says(Said::Refused(refusal)),
        turns: 0,
    }
}

// The transfer waits for set-up, and its first query goes out.
pub(crate) fn set_up(s: Sound, ring: Ring, waiting: Call, message: &mut [u8]) -> XferStep
    requires { message_size ≤ length message.old }
    ensures { (result ≡ set_up_step_with s ring waiting) × (message.new ≡ message_after (set_up_with s waiting).say message.old) }
{
    let plan = ask_jacks(s.core, waiting);
    let core = plan.core;
    let say = plan.say;
    let _ = tell(say, message);
    XferStep {
        sound: Sound { core, ..s },
        ring,
        reply: XferReply::Send(Query::SIZE),
        turns: 0,
    }
}

fn started(s: Sound, ring: Ring, t: Turned) -> XferStep
    ensures { result ≡ start_step s ring t }
{
    let after = t.ring;
    let said = t.said;
    XferStep {
        sound: s,
        ring: after,
        reply: XferReply::Says(said),
        turns: 0,
    }
}

fn ended(s: Sound, d: Transferred) -> XferStep
    ensures { result ≡ done_step s d }
{
    let ring = d.ring;
    let said = d.said;
    XferStep {
        sound: s,
        ring,
        reply: XferReply::Says(said),
        turns: d.turns,
    }
}

// The start of a transfer of some frames: it goes on, is refused, or begins set-up.
pub fn pcm_xfer_start(
    s: Sound,
    ring: Ring,
    stream: u32,
    frames: &[u8],
    budget: u64,
    message: &mut [u8],
) -> XferStep
    ensures { Transfers (start_of s ring stream (length frames.now) budget (length message.old)) (start_says s ring stream (length frames.now) budget (length message.old)) s stream message.old message.new result }
{
    let clear = is_none(s.pending);
    let long = MESSAGE <= message.len();
    let outcome = checked(false, long, clear, s, ring.track, stream);
    match outcome {
        Err(refusal) => refused(s, ring, refusal),
        Ok(Gate::SetUp) => set_up(s, ring, Call::Xfer { stream }, message),
        Ok(Gate::Open(period)) => {
            let t = start(ring, stream, frames, period as usize, budget);
            started(s, ring, t)
        }
    }
}

// The start of a transfer of some frames that writes a trace, lent room for it: it goes on, is
// refused, or begins set-up. Its parameters are those of the C entry, here and below.
pub fn pcm_xfer_start_traced(
    s: Sound,
    ring: Ring,
    stream: u32,
    frames: &[u8],
    budget: u64,
    room: &[u8],
    message: &mut [u8],
) -> XferStep
    ensures { Transfers (start_traced_of s ring stream (length frames.now) budget (length room.now) (length message.old)) (start_traced_says s ring stream (length frames.now) budget (length room.now) (length message.old)) s stream message.old message.new result }
{
    let clear = is_none(s.pending);
    let fits = MESSAGE <= message.len();
    let outcome = checked(false, fits, clear, s, ring.track, stream);
    match outcome {
        Err(refusal) => refused(s, ring, refusal),
        Ok(Gate::SetUp) => set_up(s, ring, Call::Xfer { stream }, message),
        Ok(Gate::Open(period)) => {
            let t = traced_start(ring, stream, frames, period, budget, room);
            started(s, ring, t)
        }
    }
}

// The start of a capture of so many periods into a recording: it goes on, is refused, or begins
// set-up.
pub fn pcm_capture_start(
    s: Sound,
    ring: Ring,
    stream: u32,
    periods: usize,
    recording: &[u8],
    budget: u64,
    message: &mut [u8],
) -> XferStep
    ensures { Transfers (capture_of s ring stream periods (length recording.now) budget (length message.old)) (capture_says s ring stream periods (length recording.now) budget (length message.old)) s stream message.old message.new result }
{
    let clear = is_none(s.pending);
    let long = MESSAGE <= message.len();
    let outcome = checked(true, long, clear, s, ring.track, stream);
    match outcome {
        Err(refusal) => refused(s, ring, refusal),
        Ok(Gate::SetUp) => set_up(s, ring, Call::Capture { stream }, message),
        Ok(Gate::Open(period)) => {
            let t = capture_start(ring, stream, periods, period as usize, recording, budget);
            started(s, ring, t)
        }
    }
}

// A transfer over a script of readings, quiet past its end.
pub fn pcm_xfer(
    s: Sound,
    ring: Ring,
    stream: u32,
    frames: &[u8],
    budget: u64,
    script: &[u8],
    message: &mut [u8],
) -> XferStep
    ensures { Transfers (xfer_of s ring stream (length frames.now) budget script.now (length message.old)) (xfer_says s ring stream (length frames.now) budget script.now (length message.old)) s stream message.old message.new result }
{
    let whole = script.len() % Completion::SIZE == 0;
    let lengths = both(MESSAGE <= message.len(), whole);
    let clear = is_none(s.pending);
    let outcome = checked(false, lengths, clear, s, ring.track, stream);
    match outcome {
        Err(refusal) => refused(s, ring, refusal),
        Ok(Gate::SetUp) => set_up(s, ring, Call::Xfer { stream }, message),
        Ok(Gate::Open(period)) => {
            let d = transfer(ring, stream, frames, period as usize, budget, script);
            ended(s, d)
        }
    }
}
