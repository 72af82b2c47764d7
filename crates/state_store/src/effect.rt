// The one effect of a plan on the tables, parameters and lifecycles of a store, by place.
ghost use Rattle.std.specs.Prelude.{◌≡◌, ◌+◌, ◌*◌, ◌≤◌, length, nat_lt};
ghost use Rattle.std.proofs.lemmas.List.Edits.{sets};
ghost use Rattle.codes.specs.Says.{pick};
ghost use Rattle.state_store.specs.Store.{params_bytes};
ghost use Rattle.state_store.specs.Effect.{lived_in, effect_in};
ghost use Rattle.state_store.specs.Places.{params_place, state_size};

use crate::fields;
use crate::place::{JACKS, LIVES, MAPS, PARAMS, PCMS, ROW};
use codes::life;
use records::{ChannelMap, JackInfo, PcmInfo};
use sound_core::{Effect, Params};
use tables::fill;

// Past the last stream nothing is stored.
fn put_params(s: &mut [u8], stream: u32, to: Params)
    ensures { s.new ≡ pick (nat_lt stream 127) (sets s.old (params_place + stream * 16) (params_bytes to)) s.old }
{
    let i = stream as usize;
    if 127 <= i {
        return;
    }
    let at = PARAMS + i * ROW;
    layout::put_u8(&mut *s, at, to.known);
    layout::put_u8(&mut *s, at + fields::SET_CHANNELS, to.channels);
    layout::put_u8(&mut *s, at + fields::SET_FORMAT, to.format);
    layout::put_u8(&mut *s, at + fields::SET_RATE, to.rate);
    layout::put_u32(&mut *s, at + fields::SET_BUFFER, to.buffer);
    layout::put_u32(&mut *s, at + fields::SET_PERIOD, to.period);
    layout::put_u32(&mut *s, at + fields::SET_FEATURES, to.features);
}

// An ok command is its stream's state, under the guard.
fn put_life(s: &mut [u8], guard: bool, stream: u32, life: u8)
    ensures { s.new ≡ lived_in guard stream life s.old }
{
    if !guard {
        return;
    }
    let i = stream as usize;
    if 127 <= i {
        return;
    }
    layout::put_u8(&mut *s, LIVES + i, life);
}

// Setting parameters is a command too.
fn put_set(s: &mut [u8], guard: bool, stream: u32, to: Params)
    ensures { s.new ≡ lived_in guard stream 0 (pick (nat_lt stream 127) (sets s.old (params_place + stream * 16) (params_bytes to)) s.old) }
{
    put_params(&mut *s, stream, to);
    put_life(&mut *s, guard, stream, life::SET_PARAMETERS);
}

pub(crate) fn apply(s: &mut [u8], guard: bool, effect: Effect, page: &[u8])
    ensures { s.new ≡ effect_in guard effect page.now s.old }
{
    match effect {
        Effect::Nothing => {}
        Effect::FillJacks(n) => fill(&mut *s, JACKS, JackInfo::SIZE as u32, n, page),
        Effect::FillStreams(n) => fill(&mut *s, PCMS, PcmInfo::SIZE as u32, n, page),
        Effect::FillMaps(n) => fill(&mut *s, MAPS, ChannelMap::SIZE as u32, n, page),
        Effect::Store { stream, to } => put_set(&mut *s, guard, stream, to),
        Effect::Move { stream, life } => put_life(&mut *s, guard, stream, life),
    }
}
