// Runs what document 01 works out, and then the driver against the model device, and prints what
// each said.
#![tactic(auto)]

mod announcement;
mod calls;
mod device;
mod faults;
mod host;
mod numbers;
mod setup;
mod show;
mod transfer;

use std::io;

fn main(rt: HostRuntime) -> io::Result<()> {
    numbers::all(&rt)?;
    setup::done(&rt)?;
    announcement::prompt(&rt)?;
    announcement::slow(&rt)?;
    faults::failing(&rt)?;
    faults::wrong_slot(&rt)?;
    faults::small_budget(&rt)?;
    faults::remap(&rt)?;
    setup::wrong(&rt)
}
