// The core of a state: what a call or an answer leads to, decided with no table in sight.
#![tactic(auto)]

mod consistency;
mod decide;
mod gate;
mod plan;
mod reply;
mod state;
mod verdict;

pub use consistency::{consistent, params_ok, stream_ok};
pub use decide::{answer, ask_jacks, begin};
pub use gate::{Gate, xfer_gate};
pub use plan::{Effect, Look, Plan, Request, Say, Value};
pub use reply::{MESSAGE, Reply, tell};
pub use state::{Call, Core, Counts, Field, Kind, Params, Stage};
pub use verdict::verdict_by;
