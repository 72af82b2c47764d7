// Looks by place: those of the state by value, on the store's own tables and lifecycles, and a stream's
// parameters.
ghost use Rattle.std.specs.Prelude.{◌≡◌, ◌≤◌, length};
ghost use Rattle.exchange.specs.State.{params_of, life_of, pcm_of};
ghost use Rattle.exchange.specs.Tables.{look_of, pending_look};
ghost use Rattle.state_store.specs.Store.{sound_of};
ghost use Rattle.state_store.specs.Places.{state_size};

use crate::fields;
use sound_core::{Call, Look, Params, Stage};

// The head of a state; the tables follow it.
pub(crate) const HEAD: usize = 64;

pub(crate) const JACKS: usize = HEAD + tables::JACKS;

pub(crate) const PCMS: usize = HEAD + tables::STREAMS;

pub(crate) const MAPS: usize = HEAD + tables::MAPS;

pub(crate) const PARAMS: usize = 12288;

pub(crate) const LIVES: usize = 14320;

pub(crate) const TOKENS: usize = 14447;

// A stream's parameters.
pub(crate) const ROW: usize = 16;

// What is pending under a token.
pub(crate) const TOKEN: usize = 8;

// A length is asked for, not an array of it: contracts and proofs speak of the lent bytes themselves.

// Where a stream is in its lifecycle.
pub(crate) fn life_at(s: &[u8], stream: u32) -> u8
    requires { state_size ≤ length s.now }
    ensures { result ≡ life_of (sound_of s.now) stream }
{
    exchange::life_at(&s[LIVES..TOKENS], stream)
}

// The direction of a stream.
pub(crate) fn direction_at(s: &[u8], stream: u32) -> u8
    requires { state_size ≤ length s.now }
    ensures { result ≡ (pcm_of (sound_of s.now) stream).direction }
{
    exchange::direction_at(&s[HEAD..PARAMS], stream)
}

// What a call looks up in a table.
pub(crate) fn look(s: &[u8], call: Call) -> Look
    requires { state_size ≤ length s.now }
    ensures { result ≡ look_of (sound_of s.now) call }
{
    exchange::look(&s[HEAD..PARAMS], &s[LIVES..TOKENS], call)
}

// The look of the call that waits, once its answer lets it go on.
pub(crate) fn pending_look(s: &[u8], stage: Stage) -> Look
    requires { state_size ≤ length s.now }
    ensures { result ≡ pending_look stage (sound_of s.now) }
{
    exchange::pending_look(&s[HEAD..PARAMS], &s[LIVES..TOKENS], stage)
}

// What a stream was last set to.
pub(crate) fn params_at(s: &[u8], stream: u32) -> Params
    ensures { result ≡ params_of (sound_of s.now) stream }
{
    let i = stream as usize;
    if 127 <= i {
        return Params::default();
    }
    let at = PARAMS + i * ROW;
    Params {
        known: layout::get_u8(s, at),
        buffer: layout::get_u32(s, at + fields::SET_BUFFER),
        period: layout::get_u32(s, at + fields::SET_PERIOD),
        features: layout::get_u32(s, at + fields::SET_FEATURES),
        channels: layout::get_u8(s, at + fields::SET_CHANNELS),
        format: layout::get_u8(s, at + fields::SET_FORMAT),
        rate: layout::get_u8(s, at + fields::SET_RATE),
    }
}
