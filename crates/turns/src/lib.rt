// The turns of a transfer: the ring record, a turn, a drain turn, a run over a script of readings.
#![tactic(auto)]

mod calls;
mod capture;
mod consistent;
mod in_place;
mod reading;
mod ring;
mod rules;
mod script;

pub use calls::{
    drain_track, drain_turn, is_idle, next_offer, offer_track, offered, start, start_track,
    traced_start, traced_start_track, traced_track, turn, turn_track,
};
pub use capture::{
    Catch, capture_offer, capture_start, capture_start_track, capture_track, capture_turn, copy,
};
pub use consistent::{is_consistent, mode_ok};
pub use in_place::{Report, drain_in_place, turn_in_place, turn_lent};
pub use reading::Completion;
pub use ring::{DIRECT, Freed, INDIRECT, Period, Ring, Said, Slot, Step, Track, Turned};
pub use rules::Choice;
pub use script::{Transferred, transfer};
