// A submission that does not wait, on a state in a byte store.
ghost use Rattle.std.specs.Prelude.{◌≡◌, length, Ok, Err};
ghost use Rattle.pending.specs.Table.{lowest_in};
ghost use Rattle.pending.specs.Places.{spot_by};
ghost use Rattle.state_store.specs.Store.{sound_of};
ghost use Rattle.state_store.specs.Tokens.{submitted, nb_in};
ghost use Rattle.state_store.specs.Steps.{held, held_by};

use crate::calls::{RESULT, SIZE, set_up};
use crate::head::{core_by, get_head, is_whole};
use crate::place::{life_at, params_at};
use crate::tokens::{pending_in, put_token};
use codes::both;
use codes::words::BAD_LENGTH;
use exchange::places_of;
use pending::{Token, find_spot, lowest, placed};
use sound_core::{Call, Gate, MESSAGE, xfer_gate};
use turns::Track;

// The stream's number and the payload go into one of so many places, whose token then waits. What is
// lent comes slice by slice, as in the C entry.
fn hold(
    many: usize,
    state: &mut [u8],
    k: usize,
    stream: u32,
    payload: &[u8],
    places: &mut [u8],
    res: &mut [u8],
) -> u64
    ensures { held result state.new places.new res.new ≡ held_by many state.old stream payload.now places.old res.old (Ok k) }
{
    let waiting = Token {
        state: 1,
        status: 0,
    };
    placed(&mut *places, many, k, stream, payload);
    put_token(&mut *state, k, waiting);
    layout::put_u64(&mut *res, 0, k as u64);
    0
}

// The lowest free of so many places, or none.
fn submit(
    many: usize,
    state: &mut [u8],
    stream: u32,
    period: u32,
    payload: &[u8],
    places: &mut [u8],
    res: &mut [u8],
) -> u64
    ensures { held result state.new places.new res.new ≡ held_by many state.old stream payload.now places.old res.old (spot_by many (lowest_in (sound_of state.old).pending many) (length payload.now) (length places.old) period Err Ok) }
{
    let free = lowest(pending_in(&state[..]), many);
    let spot = find_spot(many, free, payload.len(), places.len(), period);
    match spot {
        Err(refusal) => refusal.word(),
        Ok(k) => hold(many, state, k, stream, payload, places, res),
    }
}

// One whole period, submitted without waiting, with the ring's track to tell Busy and the places.
pub fn pcm_xfer_nb(
    state: &mut [u8],
    t: Track,
    stream: u32,
    payload: &[u8],
    places: &mut [u8],
    message: &mut [u8],
    res: &mut [u8],
) -> u64
    ensures { submitted result state.new places.new message.new res.new ≡ nb_in state.old t stream payload.now places.old message.old res.old }
{
    if !both(SIZE <= state.len(), RESULT <= res.len()) {
        return BAD_LENGTH;
    }
    let h = get_head(&state[..]);
    let whole = is_whole(h);
    let c = core_by(whole, h);
    let params = params_at(&state[..], stream);
    let life = life_at(&state[..], stream);
    // a playback's direction is not asked
    let gate = xfer_gate(
        false,
        MESSAGE <= message.len(),
        true,
        c,
        params,
        life,
        0,
        t,
        stream,
    );
    match gate {
        Err(refusal) => refusal.word(),
        Ok(Gate::SetUp) => {
            let _ = set_up(state, whole, c, Call::Xfer { stream }, message);
            272
        }
        Ok(Gate::Open(period)) => {
            let many = places_of(t.descriptors);
            submit(many, state, stream, period, payload, places, res)
        }
    }
}
