// The ring as bytes in its owner's storage, advanced by place: a turn touches the track, and of the
// slots only the one that it fills.
#![tactic(auto)]

ghost use Rattle.std.specs.Prelude.{◌≡◌};
ghost use Rattle.ring_store.specs.Store.{ring_size};

mod calls;
mod reads;
mod store;

pub use calls::{
    capture_start, capture_turn, drain_turn, new, new_indirect, start, start_traced, turn,
    turn_traced,
};
pub use reads::{
    accepted, capture_offered, carried, free_descriptors, in_flight, kept, offered, oldest,
    running, stream, trace_length, turns_run,
};
pub use store::{SIZE, track};

pub fn size() -> u64
    ensures { result ≡ ring_size }
{
    SIZE as u64
}
