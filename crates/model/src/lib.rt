// The model device: one request, one answer. Its functions on requests are `control::control`,
// `transfer::transfer` and `transfer::payload`.
#![tactic(auto)]

pub mod control;
mod device;
mod row;
mod said;
pub mod transfer;

pub use control::Range;
pub use device::{Counts, Device, Held, few, stream_ok, within};
pub use said::Answered;
