// Every call of the driver, and the feeds of an answer.
ghost use Rattle.std.specs.Prelude.{◌≡◌, ◌≤◌, [], ◌++◌, length, None, Some};
ghost use Rattle.layout.specs.Lent.{message_size};
ghost use Rattle.codes.specs.declared.answers.Refusal.TheVariants.{BadLength};
ghost use Rattle.sound_core.specs.State.{asked_params};
ghost use Rattle.sound_core.specs.Plan.{refuse_of};
ghost use Rattle.sound_core.specs.declared.state.Kind.TheVariants.{Prepare, Release, Start, Stop};
ghost use Rattle.sound_core.specs.declared.state.Field.TheVariants.{Rates, Formats, Channels, Features};
ghost use Rattle.sound_core.specs.declared.state.Call.TheVariants as calls;
ghost use Rattle.exchange.specs.Exchange.{step_of, Stepped, call_of, feed_of, fail_of};

use crate::effect::{apply, look, pending_look};
use crate::listing::{list_of, no_ids};
use crate::state::Sound;
use codes::{Refusal, direction};
use sound_core::{
    Call, Field, Kind, MESSAGE, Params, Plan, Reply, answer, begin, tell, verdict_by,
};
use tables::{Fault, Written, page_ok};
use turns::Ring;

// Ids of streams, ascending; those past the count are 0. An array with its count, since there is no
// heap.
#[derive(Clone, Copy)]
pub struct StreamList {
    pub count: u32,
    pub ids: [u32; 127],
}

// What a call or a feed leads to.
#[derive(Clone, Copy)]
pub struct Step {
    pub sound: Sound,
    pub reply: Result<Reply, Refusal>,
    pub streams: StreamList,
}

// What a plan comes to, with the page at hand.
fn finish(p: Plan, s: Sound, page: &[u8], message: &mut [u8]) -> Step
    requires { message_size ≤ length message.old }
    ensures { Stepped p s page.now message.old message.new result }
{
    let core = p.core;
    let say = p.say;
    let effect = p.effect;
    let tables = s.tables;
    let streams = list_of(say, core.read.streams, &tables);
    Step {
        sound: apply(effect, core, s, page),
        reply: tell(say, message),
        streams,
    }
}

// A page or a message buffer of a wrong length.
fn bad_length(s: Sound) -> Step
    ensures { result ≡ step_of (refuse_of s.core BadLength) s [] }
{
    Step {
        sound: s,
        reply: Err(Refusal::BadLength),
        streams: no_ids(),
    }
}

// A call, with the ring to tell Busy.
fn call(s: Sound, ring: Ring, asked: Call, message: &mut [u8]) -> Step
    ensures { Stepped (call_of s ring.track asked (length message.old)) s [] message.old message.new result }
{
    if message.len() < MESSAGE {
        return bad_length(s);
    }
    let tables = s.tables;
    let lives = s.lives;
    let found = look(&tables, &lives, asked);
    let plan = begin(s.core, ring.track, asked, found);
    finish(plan, s, &[], message)
}

// Calls that differ in a kind, a direction or a field stay one function each: document 01 and its
// map (docs/READING.md) name them singly, and so do their wrong bodies. What they share is `call`.

// Remaps a jack.
pub fn jack_remap(
    s: Sound,
    ring: Ring,
    jack: u32,
    association: u32,
    sequence: u32,
    message: &mut [u8],
) -> Step
    ensures { Stepped (call_of s ring.track (calls.Remap jack association sequence) (length message.old)) s [] message.old message.new result }
{
    let asked = Call::Remap {
        jack,
        association,
        sequence,
    };
    call(s, ring, asked, message)
}

// Sets a stream's parameters, which come one by one as in the C entry.
pub fn pcm_set_params(
    s: Sound,
    ring: Ring,
    stream: u32,
    buffer: u32,
    period: u32,
    features: u32,
    channels: u8,
    format: u8,
    rate: u8,
    message: &mut [u8],
) -> Step
    ensures { Stepped (call_of s ring.track (calls.SetParams stream (asked_params buffer period features channels format rate)) (length message.old)) s [] message.old message.new result }
{
    let to = Params {
        known: 0,
        buffer,
        period,
        features,
        channels,
        format,
        rate,
    };
    call(s, ring, Call::SetParams { stream, to }, message)
}

// Prepares a stream.
pub fn pcm_prepare(s: Sound, ring: Ring, stream: u32, message: &mut [u8]) -> Step
    ensures { Stepped (call_of s ring.track (calls.Command Prepare stream) (length message.old)) s [] message.old message.new result }
{
    let kind = Kind::Prepare;
    call(s, ring, Call::Command { kind, stream }, message)
}

// Releases a stream.
pub fn pcm_release(s: Sound, ring: Ring, stream: u32, message: &mut [u8]) -> Step
    ensures { Stepped (call_of s ring.track (calls.Command Release stream) (length message.old)) s [] message.old message.new result }
{
    let kind = Kind::Release;
    call(s, ring, Call::Command { kind, stream }, message)
}

// Starts a stream.
pub fn pcm_start(s: Sound, ring: Ring, stream: u32, message: &mut [u8]) -> Step
    ensures { Stepped (call_of s ring.track (calls.Command Start stream) (length message.old)) s [] message.old message.new result }
{
    let kind = Kind::Start;
    call(s, ring, Call::Command { kind, stream }, message)
}

// Stops a stream.
pub fn pcm_stop(s: Sound, ring: Ring, stream: u32, message: &mut [u8]) -> Step
    ensures { Stepped (call_of s ring.track (calls.Command Stop stream) (length message.old)) s [] message.old message.new result }
{
    let kind = Kind::Stop;
    call(s, ring, Call::Command { kind, stream }, message)
}

// The ids of the streams of direction 0.
pub fn output_streams(s: Sound, ring: Ring, message: &mut [u8]) -> Step
    ensures { Stepped (call_of s ring.track (calls.Streams 0) (length message.old)) s [] message.old message.new result }
{
    let direction = direction::OUTPUT;
    call(s, ring, Call::Streams { direction }, message)
}

// The ids of the streams of direction 1.
pub fn input_streams(s: Sound, ring: Ring, message: &mut [u8]) -> Step
    ensures { Stepped (call_of s ring.track (calls.Streams 1) (length message.old)) s [] message.old message.new result }
{
    let direction = direction::INPUT;
    call(s, ring, Call::Streams { direction }, message)
}

// The rates that a stream supports, as bits.
pub fn rates_supported(s: Sound, ring: Ring, stream: u32, message: &mut [u8]) -> Step
    ensures { Stepped (call_of s ring.track (calls.Supported Rates stream) (length message.old)) s [] message.old message.new result }
{
    let field = Field::Rates;
    call(s, ring, Call::Supported { field, stream }, message)
}

// The formats that a stream supports, as bits.
pub fn formats_supported(s: Sound, ring: Ring, stream: u32, message: &mut [u8]) -> Step
    ensures { Stepped (call_of s ring.track (calls.Supported Formats stream) (length message.old)) s [] message.old message.new result }
{
    let field = Field::Formats;
    call(s, ring, Call::Supported { field, stream }, message)
}

// The least and the most channels of a stream.
pub fn channel_range_supported(s: Sound, ring: Ring, stream: u32, message: &mut [u8]) -> Step
    ensures { Stepped (call_of s ring.track (calls.Supported Channels stream) (length message.old)) s [] message.old message.new result }
{
    let field = Field::Channels;
    call(s, ring, Call::Supported { field, stream }, message)
}

// The features that a stream supports, as bits.
pub fn features_supported(s: Sound, ring: Ring, stream: u32, message: &mut [u8]) -> Step
    ensures { Stepped (call_of s ring.track (calls.Supported Features stream) (length message.old)) s [] message.old message.new result }
{
    let field = Field::Features;
    call(s, ring, Call::Supported { field, stream }, message)
}

// The answer page to the request that is out, of which so much was written.
fn feed_by(w: Written, s: Sound, page: &[u8], message: &mut [u8]) -> Step
    ensures { Stepped (feed_of w s page.now (length message.old)) s page.now message.old message.new result }
{
    let long = page_ok(w, page);
    if !long {
        return bad_length(s);
    }
    if message.len() < MESSAGE {
        return bad_length(s);
    }
    let core = s.core;
    let stage = core.stage;
    let verdict = verdict_by(w, stage, core.counts, page);
    let tables = s.tables;
    let lives = s.lives;
    let found = pending_look(&tables, &lives, stage);
    let plan = answer(core, verdict, found);
    finish(plan, s, page, message)
}

// The answer page to the request that is out; it counts as written in full.
pub fn feed(s: Sound, page: &[u8], message: &mut [u8]) -> Step
    ensures { Stepped (feed_of None s page.now (length message.old)) s page.now message.old message.new result }
{
    feed_by(None, s, page, message)
}

// The same with the length that the device wrote: nothing past it is trusted.
pub fn feed_written(s: Sound, page: &[u8], written: u64, message: &mut [u8]) -> Step
    ensures { Stepped (feed_of (Some written) s page.now (length message.old)) s page.now message.old message.new result }
{
    feed_by(Some(written), s, page, message)
}

// The queue reports that the request that is out has failed: there is no page.
pub fn feed_failure(s: Sound, message: &mut [u8]) -> Step
    ensures { Stepped (fail_of s (length message.old)) s [] message.old message.new result }
{
    if message.len() < MESSAGE {
        return bad_length(s);
    }
    let core = s.core;
    let stage = core.stage;
    let tables = s.tables;
    let lives = s.lives;
    let found = pending_look(&tables, &lives, stage);
    let plan = answer(core, Err(Fault::Refused(Refusal::QueueFailed)), found);
    finish(plan, s, &[], message)
}
