// Prints every size, offset and number of the wire as the libraries hand them out, under the names
// of linux/virtio_snd.h, so that the two can be compared line by line (tests/header).
#![tactic(auto)]

mod codes_of;
mod controls;
mod fields;
mod show;

use std::io;

fn main(rt: HostRuntime) -> io::Result<()> {
    fields::control(&rt)?;
    fields::info(&rt)?;
    fields::transfer(&rt)?;
    codes_of::requests(&rt)?;
    codes_of::answers(&rt)?;
    codes_of::formats(&rt)?;
    codes_of::rates(&rt)?;
    codes_of::flags(&rt)?;
    codes_of::positions(&rt)?;
    controls::all(&rt)
}
