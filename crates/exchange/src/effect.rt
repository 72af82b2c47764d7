// Looks into the tables, and the one effect of a plan on them.
ghost use Rattle.std.specs.Prelude.{◌≡◌, ◌+◌, ◌*◌, ◌<◌, ◌≤◌, [], get_or, slice_index, slice_index_or, slice_set};
ghost use Rattle.layout.specs.Layout.{size};
ghost use Rattle.records.specs.Records.{jack_info_of, pcm_info, pcm_info_of};
ghost use Rattle.tables.specs.Tables.{pcms_place, jacks_in, pcms_in, copied_in};
ghost use Rattle.sound_core.specs.State.{unset};
ghost use Rattle.exchange.specs.State.{params_of, life_of, pcm_of};
ghost use Rattle.exchange.specs.Tables.{field_of, look_by, pending_by, moved, sound_after};

use crate::fields;
use crate::state::Sound;
use codes::life;
use records::{ChannelMap, JackInfo, PcmInfo};
use sound_core::{Call, Core, Effect, Field, Look, Params, Stage, Value};
use tables::{JACKS, MAPS, STREAMS, fill};

// ---- looks: a field is read by place, and no table is decoded. The end of a table is tested: behind
// the last jack stands the first stream. Past it there is 0

fn jack_features(tables: &[u8], jack: u32) -> u32
    ensures { result ≡ (get_or (jacks_in tables.now) jack (jack_info_of [])).features }
{
    let i = jack as usize;
    if 170 <= i {
        return 0;
    }
    layout::get_u32(tables, JACKS + i * JackInfo::SIZE + fields::JACK_FEATURES)
}

// The field of the record of a stream, which stands at a place.
fn field_at(tables: &[u8], stream: u32, at: usize, field: Field) -> Value
    requires { (stream < 127) × (at ≡ pcms_place + stream * (size pcm_info)) }
    ensures { result ≡ field_of field (slice_index_or (pcms_in tables.now) stream (pcm_info_of [])) }
{
    match field {
        Field::Rates => Value::Number(layout::get_u64(tables, at + fields::STREAM_RATES)),
        Field::Formats => Value::Number(layout::get_u64(tables, at + fields::STREAM_FORMATS)),
        Field::Channels => Value::Range {
            min: layout::get_u8(tables, at + fields::STREAM_MIN),
            max: layout::get_u8(tables, at + fields::STREAM_MAX),
        },
        Field::Features => Value::Number(
            layout::get_u32(tables, at + fields::STREAM_FEATURES) as u64,
        ),
    }
}

// Past the last stream every field is 0.
fn nothing(field: Field) -> Value
    ensures { result ≡ field_of field (pcm_info_of []) }
{
    match field {
        Field::Rates => Value::Number(0),
        Field::Formats => Value::Number(0),
        Field::Channels => Value::Range { min: 0, max: 0 },
        Field::Features => Value::Number(0),
    }
}

fn stream_field(tables: &[u8], stream: u32, field: Field) -> Value
    ensures { result ≡ field_of field (slice_index_or (pcms_in tables.now) stream (pcm_info_of [])) }
{
    let i = stream as usize;
    if 127 <= i {
        return nothing(field);
    }
    field_at(tables, stream, STREAMS + i * PcmInfo::SIZE, field)
}

// The direction of a stream, in the bytes of all tables.
pub fn direction_at(tables: &[u8], stream: u32) -> u8
    ensures { result ≡ (get_or (pcms_in tables.now) stream (pcm_info_of [])).direction }
{
    let i = stream as usize;
    if 127 <= i {
        return 0;
    }
    layout::get_u8(
        tables,
        STREAMS + i * PcmInfo::SIZE + fields::STREAM_DIRECTION,
    )
}

// Where a stream is in its lifecycle, in the bytes of all of them.
pub fn life_at(lives: &[u8], stream: u32) -> u8
    ensures { result ≡ slice_index lives.now stream }
{
    layout::get_u8(lives, stream as usize)
}

// What a call looks up in the tables, or in the lifecycles: of a state by value, or of a lent store.
pub fn look(tables: &[u8], lives: &[u8], call: Call) -> Look
    ensures { result ≡ look_by (jacks_in tables.now) (pcms_in tables.now) lives.now call }
{
    match call {
        Call::SetParams { stream, .. } => Look::Life(life_at(lives, stream)),
        Call::Command { stream, .. } => Look::Life(life_at(lives, stream)),
        Call::Remap { jack, .. } => Look::Jack {
            features: jack_features(tables, jack),
        },
        Call::Streams { direction: _ } => Look::Nothing,
        Call::Supported { field, stream } => Look::Stream(stream_field(tables, stream, field)),
        Call::Xfer { stream } => Look::Life(life_at(lives, stream)),
        Call::Capture { stream } => Look::Directed {
            life: life_at(lives, stream),
            direction: direction_at(tables, stream),
        },
    }
}

// The look of the call that waits, once its answer lets it go on.
pub fn pending_look(tables: &[u8], lives: &[u8], stage: Stage) -> Look
    ensures { result ≡ pending_by (jacks_in tables.now) (pcms_in tables.now) lives.now stage }
{
    match stage {
        Stage::MapsAsked(call) => look(tables, lives, call),
        _ => Look::Nothing,
    }
}

// Where a stream is in its lifecycle.
pub(crate) fn life_of(s: Sound, stream: u32) -> u8
    ensures { result ≡ life_of s stream }
{
    let lives = s.lives;
    life_at(&lives, stream)
}

// The direction of a stream.
pub(crate) fn direction_of(s: Sound, stream: u32) -> u8
    ensures { result ≡ (pcm_of s stream).direction }
{
    let tables = s.tables;
    direction_at(&tables, stream)
}

fn params_at(params: [Params; 127], stream: u32) -> Params
    ensures { result ≡ slice_index_or params stream unset }
{
    let i = stream as usize;
    if 127 <= i {
        return Params::default();
    }
    params[i]
}

pub(crate) fn params_of(s: Sound, stream: u32) -> Params
    ensures { result ≡ params_of s stream }
{
    let params = s.params;
    params_at(params, stream)
}

// ---- the effect

// One stream's parameters; past the last stream nothing is stored.
fn store(old: [Params; 127], stream: u32, to: Params) -> [Params; 127]
    ensures { result ≡ slice_set old stream to }
{
    let i = stream as usize;
    if 127 <= i {
        return old;
    }
    let mut params = old;
    params[i] = to;
    params
}

// An ok command is its stream's state, under the guard.
fn move_to(guard: bool, old: [u8; 127], stream: u32, life: u8) -> [u8; 127]
    ensures { result ≡ moved guard old stream life }
{
    let i = stream as usize;
    if !guard {
        return old;
    }
    if 127 <= i {
        return old;
    }
    let mut lives = old;
    lives[i] = life;
    lives
}

// The tables with one of them filled from the page.
fn filled(old: [u8; 12224], at: usize, size: u32, count: u32, page: &[u8]) -> [u8; 12224]
    ensures { result ≡ copied_in at size count page.now old }
{
    let mut tables = old;
    fill(&mut tables, at, size, count, page);
    tables
}

// A table is read from the page, parameters are stored, or a stream is moved.
pub(crate) fn apply(effect: Effect, c: Core, s: Sound, page: &[u8]) -> Sound
    ensures { result ≡ sound_after effect c s page.now }
{
    match effect {
        Effect::Nothing => Sound { core: c, ..s },
        Effect::FillJacks(count) => {
            let old = s.tables;
            let tables = filled(old, JACKS, JackInfo::SIZE as u32, count, page);
            Sound {
                core: c,
                tables,
                ..s
            }
        }
        Effect::FillStreams(count) => {
            let old = s.tables;
            let tables = filled(old, STREAMS, PcmInfo::SIZE as u32, count, page);
            Sound {
                core: c,
                tables,
                ..s
            }
        }
        Effect::FillMaps(count) => {
            let old = s.tables;
            let tables = filled(old, MAPS, ChannelMap::SIZE as u32, count, page);
            Sound {
                core: c,
                tables,
                ..s
            }
        }
        Effect::Store { stream, to } => {
            let old = s.params;
            let before = s.lives;
            let params = store(old, stream, to);
            let lives = move_to(c.guard, before, stream, life::SET_PARAMETERS);
            Sound {
                core: c,
                params,
                lives,
                ..s
            }
        }
        Effect::Move { stream, life } => {
            let old = s.lives;
            let lives = move_to(c.guard, old, stream, life);
            Sound {
                core: c,
                lives,
                ..s
            }
        }
    }
}
