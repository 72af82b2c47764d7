// A transfer over a whole script of readings.
ghost use Rattle.std.specs.Prelude.{◌≡◌, ◌+◌, ◌<◌, length};
ghost use Rattle.turns.specs.Log.{first_of, turn_by_turn};
ghost use Rattle.turns.specs.Script.{reading_at, script_of, transferred_of, transfer_of};
ghost use Rattle.turns.specs.Private.{script_from};

use crate::calls;
use crate::reading::Completion;
use crate::ring::{Ring, Said};
use codes::Refusal;
use layout;

// What a transfer over a script came to, and the number of turns that were run.
#[derive(Clone, Copy)]
pub struct Transferred {
    pub ring: Ring,
    pub said: Said,
    pub turns: u64,
}

// The reading at a place of a script.
fn reading_at(script: &[u8], at: usize) -> Option<Completion>
    requires { at + 8 < length script.now }
    ensures { result ≡ reading_at at script.now }
{
    let kind = layout::get_u32(script, at);
    let slot = layout::get_u32(script, at + 4);
    let status = layout::get_u32(script, at + 8);
    Completion::from_words(kind, slot, status)
}

// The reading of turn n, quiet past the script's end. By number: a turn outlasts the script.
fn reading_of(script: &[u8], n: u64) -> Option<Completion>
    ensures { result ≡ first_of (script_from n script.now) }
{
    let count = script.len() / Completion::SIZE;
    if n < count as u64 {
        return reading_at(script, n as usize * Completion::SIZE);
    }
    None
}

// Turns until one does not go on, at most budget of them.
fn turn_by_turn(r: Ring, frames: &[u8], budget: u64, script: &[u8]) -> Transferred
    ensures { result ≡ transferred_of (turn_by_turn (length frames.now) budget r (script_of script.now)) }
{
    let mut ring = r;
    for n in 0..budget {
        let reading = reading_of(script, n);
        let t = calls::turn(ring, frames, reading);
        let said = t.said;
        ring = t.ring;
        let Said::Going = said else {
            return Transferred {
                ring,
                said,
                turns: n + 1,
            };
        };
    }
    Transferred {
        ring,
        said: Said::Going,
        turns: budget,
    }
}

// A transfer: its start, and then turns over a script of readings, quiet past its end.
pub fn transfer(
    r: Ring,
    stream: u32,
    frames: &[u8],
    period: usize,
    budget: u64,
    script: &[u8],
) -> Transferred
    ensures { result ≡ transfer_of r stream (length frames.now) period budget script.now }
{
    if script.len() % Completion::SIZE != 0 {
        return Transferred {
            ring: r,
            said: Said::Refused(Refusal::BadLength),
            turns: 0,
        };
    }
    let t = calls::start(r, stream, frames, period, budget);
    let said = t.said;
    let ring = t.ring;
    let Said::Going = said else {
        return Transferred {
            ring,
            said,
            turns: 0,
        };
    };
    turn_by_turn(ring, frames, budget, script)
}
