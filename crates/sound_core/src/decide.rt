// What a call or an answer leads to, decided on the core: no table is in sight.
ghost use Rattle.std.specs.Prelude.{◌≡◌};
ghost use Rattle.records.specs.Records.{jack_info};
ghost use Rattle.layout.specs.Layout.{size};
ghost use Rattle.codes.specs.Says.{pick};
ghost use Rattle.codes.specs.Life.{permits_of};
ghost use Rattle.sound_core.specs.Consistent.{held_to};
ghost use Rattle.sound_core.specs.Plan.{send_of, end_of, refusing, refuse_of, cut_short_of, query_of, kind_code, kind_life, set_of, life_in, direction_in, own_set, own_command, own_remap, own_supported, own_xfer, own_of, is_idle, set_up_of, begin_of, refusal_of, after_jacks, after_streams, after_maps, stored_of, effect_of, after_sent, answer_by, answer_of, can_remap, found_of, cause_of, status_refusal};
ghost use Rattle.sound_core.specs.declared.state.Stage.TheVariants.{JacksAsked};
ghost use Rattle.sound_core.specs.declared.plan.Effect.TheVariants as done;

use crate::consistency::{call_ok, consistent, held_to, period_ok};
use crate::plan::{Effect, Look, Plan, Request, Say, Value};
use crate::state::{Call, Core, Counts, Kind, Params, Stage};
use codes::{Cause, JackFeatures, Refusal, both, life};
use records::{ChannelMap, JackInfo, PcmCommand, PcmInfo, Query, Remap, SetParameters};
use tables::{Fault, Verdict, is_good, refused_by};
use turns::{Track, is_consistent, is_idle};

// ---- the ways to go on

// The request goes out, and the core waits for its answer.
fn send(c: Core, stage: Stage, q: Request, effect: Effect) -> Plan
    ensures { result ≡ send_of c stage q effect }
{
    Plan {
        core: Core { stage, ..c },
        say: Ok(Say::Send(q)),
        effect,
    }
}

// The call has its result.
fn end(c: Core, say: Result<Say, Refusal>, effect: Effect) -> Plan
    ensures { result ≡ end_of c say effect }
{
    Plan {
        core: Core {
            stage: Stage::Idle,
            ..c
        },
        say,
        effect,
    }
}

// The call is refused, and is over.
fn end_refused(c: Core, refusal: Refusal) -> Plan
    ensures { result ≡ refusing c refusal }
{
    end(c, Err(refusal), Effect::Nothing)
}

// Refused, with nothing changed.
fn refuse(c: Core, refusal: Refusal) -> Plan
    ensures { result ≡ refuse_of c refusal }
{
    Plan {
        core: c,
        say: Err(refusal),
        effect: Effect::Nothing,
    }
}

// A set-up cut short leaves all three tables empty.
fn cut_short(c: Core, refusal: Refusal) -> Plan
    ensures { result ≡ cut_short_of c refusal }
{
    let core = Core {
        read: Counts {
            jacks: 0,
            streams: 0,
            maps: 0,
        },
        ready: false,
        stage: Stage::Idle,
        ..c
    };
    Plan {
        core,
        say: Err(refusal),
        effect: Effect::Nothing,
    }
}

// ---- requests

// Asks for all records of a kind.
fn query(code: u32, count: u32, size: u32) -> Request
    ensures { result ≡ query_of code count size }
{
    Request::Query(Query {
        code,
        start: 0,
        count,
        size,
    })
}

// The code of a command's request. Its twin below is alike in shape alone.
fn kind_code(kind: Kind) -> u32
    ensures { result ≡ kind_code kind }
{
    match kind {
        Kind::Prepare => PcmCommand::PREPARE,
        Kind::Release => PcmCommand::RELEASE,
        Kind::Start => PcmCommand::START,
        Kind::Stop => PcmCommand::STOP,
    }
}

// The state that an ok command leads to.
fn kind_life(kind: Kind) -> u8
    ensures { result ≡ kind_life kind }
{
    match kind {
        Kind::Prepare => life::PREPARE,
        Kind::Release => life::RELEASE,
        Kind::Start => life::START,
        Kind::Stop => life::STOP,
    }
}

fn set_parameters(stream: u32, p: Params) -> SetParameters
    ensures { result ≡ set_of stream p }
{
    SetParameters {
        code: SetParameters::CODE,
        stream,
        buffer: p.buffer,
        period: p.period,
        features: p.features,
        channels: p.channels,
        format: p.format,
        rate: p.rate,
        zero: 0,
    }
}

// ---- the call's own part, once set-up is done

// Where the stream is in its lifecycle; any other look is no state.
fn life_in(look: Look) -> u8
    ensures { result ≡ life_in look }
{
    match look {
        Look::Life(life) | Look::Directed { life, .. } => life,
        _ => 5,
    }
}

// The stream's direction; any other look is none.
fn direction_in(look: Look) -> u8
    ensures { result ≡ direction_in look }
{
    match look {
        Look::Directed { direction, .. } => direction,
        _ => 2,
    }
}

// The lifecycle's table permits a command of the stream that was looked at, or there is no guard.
fn may(guard: bool, look: Look, command: u8) -> bool
    ensures { result ≡ held_to guard (permits_of (life_in look) command) }
{
    held_to(guard, life::permits(life_in(look), command))
}

fn own_set(c: Core, stream: u32, to: Params, look: Look) -> Plan
    ensures { result ≡ own_set c stream to look }
{
    let permitted = may(c.guard, look, life::SET_PARAMETERS);
    if !period_ok(to.buffer, to.period) {
        return end_refused(c, Refusal::InvalidParam);
    }
    let streams = c.counts.streams;
    if streams <= stream {
        return end_refused(c, Refusal::InvalidParam);
    }
    if !permitted {
        return end_refused(c, Refusal::BadState);
    }
    let q = Request::Set(set_parameters(stream, to));
    let sent = Stage::Sent(Call::SetParams { stream, to });
    send(c, sent, q, Effect::Nothing)
}

fn own_command(c: Core, kind: Kind, stream: u32, look: Look) -> Plan
    ensures { result ≡ own_command c kind stream look }
{
    let there = held_to(c.guard, stream < c.counts.streams);
    let permitted = may(c.guard, look, kind_life(kind));
    if !there {
        return end_refused(c, Refusal::InvalidParam);
    }
    if !permitted {
        return end_refused(c, Refusal::BadState);
    }
    let q = Request::Command(PcmCommand {
        code: kind_code(kind),
        stream,
    });
    send(
        c,
        Stage::Sent(Call::Command { kind, stream }),
        q,
        Effect::Nothing,
    )
}

fn can_remap(look: Look) -> bool
    ensures { result ≡ can_remap look }
{
    match look {
        Look::Jack { features } => JackFeatures::from_bits_retain(features).has_remap(),
        _ => false,
    }
}

fn own_remap(c: Core, jack: u32, association: u32, sequence: u32, look: Look) -> Plan
    ensures { result ≡ own_remap c jack association sequence look }
{
    if c.counts.jacks <= jack {
        return end_refused(c, Refusal::InvalidParam);
    }
    if c.read.jacks == 0 {
        return end_refused(c, Refusal::NoInfo);
    }
    if !can_remap(look) {
        return end_refused(c, Refusal::Unsupported(Cause::NoStatus));
    }
    let call = Call::Remap {
        jack,
        association,
        sequence,
    };
    let q = Request::Remap(Remap {
        code: Remap::CODE,
        jack,
        association,
        sequence,
    });
    send(c, Stage::Sent(call), q, Effect::Nothing)
}

fn found(look: Look) -> Value
    ensures { result ≡ found_of look }
{
    match look {
        Look::Stream(value) => value,
        _ => Value::Nothing,
    }
}

fn own_supported(c: Core, stream: u32, look: Look) -> Plan
    ensures { result ≡ own_supported c stream look }
{
    if c.counts.streams <= stream {
        return end_refused(c, Refusal::InvalidParam);
    }
    end(c, Ok(Say::Done(found(look))), Effect::Nothing)
}

// A transfer that had to begin set-up never runs: in a state that calls left no stream has
// parameters yet.
fn own_xfer(capture: bool, c: Core, stream: u32, look: Look) -> Plan
    ensures { result ≡ own_xfer capture c stream look }
{
    let taken = held_to(c.guard, life::takes(life_in(look)));
    let faces = held_to(capture, direction_in(look) == 1);
    if c.counts.streams <= stream {
        return end_refused(c, Refusal::InvalidParam);
    }
    if !taken {
        return end_refused(c, Refusal::BadState);
    }
    if !faces {
        return end_refused(c, Refusal::InvalidParam);
    }
    end_refused(c, Refusal::IoError(Cause::NoStatus))
}

fn own(c: Core, call: Call, look: Look) -> Plan
    ensures { result ≡ own_of c call look }
{
    match call {
        Call::SetParams { stream, to } => own_set(c, stream, to, look),
        Call::Command { kind, stream } => own_command(c, kind, stream, look),
        Call::Remap {
            jack,
            association,
            sequence,
        } => own_remap(c, jack, association, sequence, look),
        Call::Streams { direction } => {
            end(
                c,
                Ok(Say::Done(Value::Streams { direction })),
                Effect::Nothing,
            )
        }
        Call::Supported { stream, .. } => own_supported(c, stream, look),
        Call::Xfer { stream } => own_xfer(false, c, stream, look),
        Call::Capture { stream } => own_xfer(true, c, stream, look),
    }
}

// ---- a new call

pub(crate) fn is_idle_stage(g: Stage) -> bool
    ensures { result ≡ is_idle g }
{
    matches!(g, Stage::Idle)
}

// The first query of set-up.
pub fn ask_jacks(c: Core, call: Call) -> Plan
    ensures { result ≡ send_of c (JacksAsked call) (query_of 0x0001 c.counts.jacks (size jack_info)) done.Nothing }
{
    let q = query(JackInfo::CODE, c.counts.jacks, JackInfo::SIZE as u32);
    send(c, Stage::JacksAsked(call), q, Effect::Nothing)
}

// Set-up first, where it is not done.
fn set_up(c: Core, call: Call, look: Look) -> Plan
    ensures { result ≡ set_up_of c call look }
{
    let ready = c.ready;
    if ready {
        return own(c, call, look);
    }
    ask_jacks(c, call)
}

// A new call, with the ring's track to tell Busy, and what the call looks up in a table.
pub fn begin(c: Core, t: Track, call: Call, look: Look) -> Plan
    ensures { result ≡ begin_of c t call look }
{
    let stage = c.stage;
    let sound = both(consistent(c), is_consistent(t));
    let free = both(is_idle_stage(stage), is_idle(t));
    if !sound {
        return refuse(c, Refusal::InvalidParam);
    }
    if !free {
        return refuse(c, Refusal::Busy);
    }
    if !call_ok(call) {
        return refuse(c, Refusal::InvalidParam);
    }
    set_up(c, call, look)
}

// ---- an answer, by what was asked

// The status that caused a refusal: the header's word, where it is not ok.
fn cause(v: Verdict) -> Cause
    ensures { result ≡ cause_of v }
{
    match v {
        Ok(()) => Cause::NoStatus,
        Err(Fault::Status(word)) => Cause::Status(word),
        Err(Fault::Refused(_)) => Cause::NoStatus,
    }
}

// `status` is what a status that is not ok says to the call.
fn refusal(status: Refusal, v: Verdict) -> Refusal
    ensures { result ≡ refusal_of status v }
{
    match v {
        Ok(()) => status,
        Err(Fault::Status(_)) => status,
        Err(Fault::Refused(r)) => r,
    }
}

// What a table holds, and its effect, where the verdict is good.
fn count_where(good: bool, count: u32) -> u32
    ensures { result ≡ pick good count 0 }
{
    if good { count } else { 0 }
}

fn effect_where(good: bool, effect: Effect) -> Effect
    ensures { result ≡ pick good effect done.Nothing }
{
    if good { effect } else { Effect::Nothing }
}

// A query of jacks that failed leaves that table empty, and set-up goes on.
fn after_jacks(c: Core, call: Call, v: Verdict) -> Plan
    ensures { result ≡ after_jacks c call v }
{
    let good = is_good(v);
    let over = refused_by(Refusal::TooMany.number(), v);
    let read = Counts {
        jacks: count_where(good, c.counts.jacks),
        streams: 0,
        maps: 0,
    };
    let effect = effect_where(good, Effect::FillJacks(c.counts.jacks));
    let q = query(PcmInfo::CODE, c.counts.streams, PcmInfo::SIZE as u32);
    if over {
        return cut_short(c, Refusal::TooMany);
    }
    let core = Core {
        read,
        ready: false,
        ..c
    };
    send(core, Stage::StreamsAsked(call), q, effect)
}

// A query of streams that failed ends the call.
fn after_streams(c: Core, call: Call, v: Verdict) -> Plan
    ensures { result ≡ after_streams c call v }
{
    let read = Counts {
        jacks: c.read.jacks,
        streams: c.counts.streams,
        maps: 0,
    };
    let q = query(ChannelMap::CODE, c.counts.maps, ChannelMap::SIZE as u32);
    if !is_good(v) {
        let r = refusal(Refusal::IoError(cause(v)), v);
        return cut_short(c, r);
    }
    let core = Core {
        read,
        ready: false,
        ..c
    };
    send(
        core,
        Stage::MapsAsked(call),
        q,
        Effect::FillStreams(c.counts.streams),
    )
}

// Set-up is done, and stays done however the call's own part ends.
fn after_maps(c: Core, call: Call, v: Verdict, look: Look) -> Plan
    ensures { result ≡ after_maps c call v look }
{
    let good = is_good(v);
    let read = Counts {
        jacks: c.read.jacks,
        streams: c.read.streams,
        maps: count_where(good, c.counts.maps),
    };
    let effect = effect_where(good, Effect::FillMaps(c.counts.maps));
    if refused_by(Refusal::TooMany.number(), v) {
        return cut_short(c, Refusal::TooMany);
    }
    let core = Core {
        read,
        ready: true,
        ..c
    };
    Plan {
        effect,
        ..own(core, call, look)
    }
}

fn stored(p: Params) -> Params
    ensures { result ≡ stored_of p }
{
    Params { known: 1, ..p }
}

// Parameters are stored, and a stream is moved, when the answer is ok, and not before.
fn effect_of(call: Call) -> Effect
    ensures { result ≡ effect_of call }
{
    match call {
        Call::SetParams { stream, to } => {
            Effect::Store {
                stream,
                to: stored(to),
            }
        }
        Call::Command { kind, stream } => {
            Effect::Move {
                stream,
                life: kind_life(kind),
            }
        }
        _ => Effect::Nothing,
    }
}

// What a status that is not ok says to a call, with that status.
fn status_refusal(call: Call, cause: Cause) -> Refusal
    ensures { result ≡ status_refusal call cause }
{
    match call {
        Call::Remap { .. } => Refusal::Unsupported(cause),
        _ => Refusal::IoError(cause),
    }
}

fn after_sent(c: Core, call: Call, v: Verdict) -> Plan
    ensures { result ≡ after_sent c call v }
{
    if !is_good(v) {
        let r = refusal(status_refusal(call, cause(v)), v);
        return end_refused(c, r);
    }
    end(c, Ok(Say::Done(Value::Nothing)), effect_of(call))
}

// The stage is handed in beside the core: a proof that goes by it then leaves the core as it is.
fn answer_by(stage: Stage, c: Core, v: Verdict, look: Look) -> Plan
    ensures { result ≡ answer_by stage c v look }
{
    match stage {
        Stage::Idle => refuse(c, Refusal::InvalidParam),
        Stage::JacksAsked(call) => after_jacks(c, call, v),
        Stage::StreamsAsked(call) => after_streams(c, call, v),
        Stage::MapsAsked(call) => after_maps(c, call, v, look),
        Stage::Sent(call) => after_sent(c, call, v),
    }
}

// An answer, with the verdict on its page or the queue's failure, and what the waiting call looks up.
pub fn answer(c: Core, v: Verdict, look: Look) -> Plan
    ensures { result ≡ answer_of c v look }
{
    let stage = c.stage;
    let wrong = refused_by(Refusal::BadLength.number(), v);
    if wrong {
        return refuse(c, Refusal::BadLength);
    }
    if !consistent(c) {
        return refuse(c, Refusal::InvalidParam);
    }
    answer_by(stage, c, v, look)
}
