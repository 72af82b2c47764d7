// The checks of a transfer, on the core, on its stream's own parameters, its place in its lifecycle and
// its direction.
ghost use Rattle.std.specs.Prelude.{◌≡◌, Ok, Err};
ghost use Rattle.sound_core.specs.Gate.{gate_of, rest_by};
ghost use Rattle.sound_core.specs.declared.gate.Gate.TheVariants.{SetUp, Open};

use crate::consistency::{consistent, held_to, stream_ok};
use crate::decide::is_idle_stage;
use crate::state::{Core, Params};
use codes::life::takes;
use codes::{Cause, Refusal, both};
use turns::{Track, is_consistent, is_idle};

// What the checks of a transfer come to, where none refuses it: set-up first, or a transfer by
// periods.
#[derive(Clone, Copy)]
pub enum Gate {
    SetUp,
    Open(u32),
}

// Set-up, then the stream's range, its place in its lifecycle, a capture's direction, and its
// parameters.
fn checked_by(
    capture: bool,
    c: Core,
    stream: u32,
    p: Params,
    life: u8,
    direction: u8,
) -> Result<Gate, Refusal>
    ensures { result ≡ rest_by capture c p life direction stream Err (Ok SetUp) (λ n. Ok (Open n)) }
{
    let taken = held_to(c.guard, takes(life));
    let faces = held_to(capture, direction == 1);
    if !c.ready {
        return Ok(Gate::SetUp);
    }
    if c.counts.streams <= stream {
        return Err(Refusal::InvalidParam);
    }
    if !taken {
        return Err(Refusal::BadState);
    }
    if !faces {
        return Err(Refusal::InvalidParam);
    }
    if p.known == 0 {
        return Err(Refusal::IoError(Cause::NoStatus));
    }
    Ok(Gate::Open(p.period))
}

// The checks of a transfer, with the stream's own parameters: lengths, then consistency, then Busy,
// then the rest. `clear`: nothing is pending, or it plays no part. Nine parameters, since a state by
// value and one in a store have no common type that holds them.
pub fn xfer_gate(
    capture: bool,
    lengths: bool,
    clear: bool,
    c: Core,
    p: Params,
    life: u8,
    direction: u8,
    t: Track,
    stream: u32,
) -> Result<Gate, Refusal>
    ensures { result ≡ gate_of capture lengths clear c p life direction t stream }
{
    let stage = c.stage;
    let own = stream_ok(c, stream, p);
    let sound = both(consistent(c), both(is_consistent(t), own));
    let rest = both(is_idle(t), clear);
    let free = both(is_idle_stage(stage), rest);
    if !lengths {
        return Err(Refusal::BadLength);
    }
    if !sound {
        return Err(Refusal::InvalidParam);
    }
    if !free {
        return Err(Refusal::Busy);
    }
    checked_by(capture, c, stream, p, life, direction)
}
