// The core as fixed fields.
ghost use Rattle.std.specs.Prelude.{◌≡◌, ◌&&◌};
ghost use Rattle.codes.specs.Says.{pick};
ghost use Rattle.state_store.specs.Flat.{kind_number, field_number, numbered, set_flat, call_flat, staged, flat_of, kind_of, flat_field, flat_params, flat_call, flat_stage, whole_flat};
ghost use Rattle.state_store.specs.FlatTests.{plain_of, short_of, same_call};

use codes::both;
use sound_core::{Call, Counts, Field, Kind, Params, Stage};

// A stage and the call that waits, by numbers; what a call has no use for is 0.
#[derive(Clone, Copy)]
pub struct Flat {
    pub ready: u8,
    pub stage: u8,
    pub call: u8,
    pub part: u8,
    pub id: u32,
    pub first: u32,
    pub second: u32,
    pub third: u32,
    pub known: u8,
    pub channels: u8,
    pub format: u8,
    pub rate: u8,
}

// What stands before the tables of a state. The guard is 0 or 1, and what is reserved is 0.
#[derive(Clone, Copy)]
pub struct Head {
    pub counts: Counts,
    pub read: Counts,
    pub flat: Flat,
    pub guard: u64,
    pub reserved: u64,
}

// ---- from a stage to its fields

// A kind and a field by the number in the store: two enums, and so two functions each way.
fn kind_number(kind: Kind) -> u8
    ensures { result ≡ kind_number kind }
{
    match kind {
        Kind::Prepare => 0,
        Kind::Release => 1,
        Kind::Start => 2,
        Kind::Stop => 3,
    }
}

fn field_number(field: Field) -> u8
    ensures { result ≡ field_number field }
{
    match field {
        Field::Rates => 0,
        Field::Formats => 1,
        Field::Channels => 2,
        Field::Features => 3,
    }
}

fn numbers(call: u8, part: u8, id: u32, first: u32, second: u32) -> Flat
    ensures { result ≡ numbered call part id first second }
{
    Flat {
        ready: 0,
        stage: 0,
        call,
        part,
        id,
        first,
        second,
        third: 0,
        known: 0,
        channels: 0,
        format: 0,
        rate: 0,
    }
}

fn set_flat(stream: u32, to: Params) -> Flat
    ensures { result ≡ set_flat stream to }
{
    Flat {
        ready: 0,
        stage: 0,
        call: 1,
        part: 0,
        id: stream,
        first: to.buffer,
        second: to.period,
        third: to.features,
        known: to.known,
        channels: to.channels,
        format: to.format,
        rate: to.rate,
    }
}

fn call_flat(call: Call) -> Flat
    ensures { result ≡ call_flat call }
{
    match call {
        Call::SetParams { stream, to } => set_flat(stream, to),
        Call::Command { kind, stream } => numbers(2, kind_number(kind), stream, 0, 0),
        Call::Remap {
            jack,
            association,
            sequence,
        } => numbers(3, 0, jack, association, sequence),
        Call::Streams { direction } => numbers(4, direction, 0, 0, 0),
        Call::Supported { field, stream } => numbers(5, field_number(field), stream, 0, 0),
        Call::Xfer { stream } => numbers(6, 0, stream, 0, 0),
        Call::Capture { stream } => numbers(7, 0, stream, 0, 0),
    }
}

fn flag(ready: bool) -> u8
    ensures { result ≡ pick ready 1 0 }
{
    if ready { 1 } else { 0 }
}

fn at_stage(ready: bool, stage: u8, f: Flat) -> Flat
    ensures { result ≡ staged ready stage f }
{
    Flat {
        ready: flag(ready),
        stage,
        ..f
    }
}

pub(crate) fn flat_of(ready: bool, g: Stage) -> Flat
    ensures { result ≡ flat_of ready g }
{
    match g {
        Stage::Idle => at_stage(ready, 0, numbers(0, 0, 0, 0, 0)),
        Stage::JacksAsked(call) => at_stage(ready, 1, call_flat(call)),
        Stage::StreamsAsked(call) => at_stage(ready, 2, call_flat(call)),
        Stage::MapsAsked(call) => at_stage(ready, 3, call_flat(call)),
        Stage::Sent(call) => at_stage(ready, 4, call_flat(call)),
    }
}

// ---- and back: every number stands for something

fn kind_of(n: u8) -> Kind
    ensures { result ≡ kind_of n }
{
    match n {
        0 => Kind::Prepare,
        1 => Kind::Release,
        2 => Kind::Start,
        _ => Kind::Stop,
    }
}

fn field_of(n: u8) -> Field
    ensures { result ≡ flat_field n }
{
    match n {
        0 => Field::Rates,
        1 => Field::Formats,
        2 => Field::Channels,
        _ => Field::Features,
    }
}

fn params_of(f: Flat) -> Params
    ensures { result ≡ flat_params f }
{
    Params {
        known: f.known,
        buffer: f.first,
        period: f.second,
        features: f.third,
        channels: f.channels,
        format: f.format,
        rate: f.rate,
    }
}

fn call_of(f: Flat) -> Call
    ensures { result ≡ flat_call f }
{
    match f.call {
        1 => Call::SetParams {
            stream: f.id,
            to: params_of(f),
        },
        2 => Call::Command {
            kind: kind_of(f.part),
            stream: f.id,
        },
        3 => Call::Remap {
            jack: f.id,
            association: f.first,
            sequence: f.second,
        },
        4 => Call::Streams { direction: f.part },
        5 => Call::Supported {
            field: field_of(f.part),
            stream: f.id,
        },
        6 => Call::Xfer { stream: f.id },
        _ => Call::Capture { stream: f.id },
    }
}

pub(crate) fn stage_of(f: Flat) -> Stage
    ensures { result ≡ flat_stage f }
{
    match f.stage {
        0 => Stage::Idle,
        1 => Stage::JacksAsked(call_of(f)),
        2 => Stage::StreamsAsked(call_of(f)),
        3 => Stage::MapsAsked(call_of(f)),
        _ => Stage::Sent(call_of(f)),
    }
}

// ---- the test of wholeness

// The fields that only parameters use are 0.
fn is_plain(f: Flat) -> bool
    ensures { result ≡ plain_of f }
{
    let t = both(f.format == 0, f.rate == 0);
    let t = both(f.channels == 0, t);
    let t = both(f.known == 0, t);
    both(f.third == 0, t)
}

// So are the two before them.
fn is_short(f: Flat) -> bool
    ensures { result ≡ short_of f }
{
    both(f.first == 0, both(f.second == 0, is_plain(f)))
}

// The fields of a call: its number is one of seven, and what it has no use for is 0.
fn is_call(f: Flat) -> bool
    ensures { result ≡ same_call f (call_flat (flat_call f)) }
{
    match f.call {
        1 => f.part == 0,
        2 | 5 => both(f.part <= 3, is_short(f)),
        3 => both(f.part == 0, is_plain(f)),
        4 => both(f.id == 0, is_short(f)),
        6 | 7 => both(f.part == 0, is_short(f)),
        _ => false,
    }
}

// No call waits.
fn is_blank(f: Flat) -> bool
    ensures { result ≡ same_call f (numbered 0 0 0 0 0) }
{
    both(f.call == 0, both(f.part == 0, both(f.id == 0, is_short(f))))
}

// Fields that are what their stage is written as: an unknown number, a flag of 2 and an unused
// field that is not 0 are all found by this one test.
pub(crate) fn is_whole_flat(f: Flat) -> bool
    ensures { result ≡ whole_flat f }
{
    let n = f.stage;
    let ready = f.ready <= 1;
    if n == 0 {
        return both(ready, is_blank(f));
    }
    both(ready, both(n <= 4, is_call(f)))
}
