// Announcements of 50 bytes, by periods of 16, to a device that plays them.
use crate::host::Host;
use crate::{calls, host, numbers, show, transfer};
use std::io;

fn opened(rt: &impl Print, h: Host) -> io::Result<Host> {
    let set = calls::set_params(h, 0, 64, 16);
    let h = host::finish(rt, b"set parameters, stream 0, buffer 64, period 16\n", set)?;
    let h = host::finish(rt, b"prepare\n", calls::prepare(h, 0))?;
    host::finish(rt, b"start\n", calls::start(h, 0))
}

fn closed(rt: &impl Print, h: Host) -> io::Result<Host> {
    let h = host::finish(rt, b"stop\n", calls::stop(h, 0))?;
    host::finish(rt, b"release\n", calls::release(h, 0))
}

fn played(rt: &impl Print, h: Host) -> io::Result<()> {
    match h.device.played(0) {
        Ok(n) => println!(rt; "  device played {n} bytes of stream 0"),
        Err(_) => println!(rt; "  device has no stream 0"),
    }
}

pub(crate) fn prompt(rt: &impl Print) -> io::Result<()> {
    show::text(rt, b"\nAN ANNOUNCEMENT: 50 bytes\n")?;
    let h = opened(rt, numbers::ready())?;
    show::text(rt, b"transfer, budget 100\n")?;
    let h = transfer::run(rt, h, &[7; 50], 100, b"0123.")?;
    transfer::account(rt, h)?;
    let h = closed(rt, h)?;
    played(rt, h)
}

// Here the ring is advanced in its own storage.
pub(crate) fn slow(rt: &impl Print) -> io::Result<()> {
    show::text(
        rt,
        b"\nA SLOW DEVICE: completes every third turn, 4 periods, Ok no later than turn 4 * 3 + 1\n",
    )?;
    let ready = numbers::ready_with(64, 16);
    let h = Host {
        lent: true,
        ..ready
    };
    let h = transfer::run(rt, h, &[7; 50], 13, b"..0..1..2..3.")?;
    let turns = h.turns;
    let budget = h.ring.track.budget;
    println!(rt; "  turns used {turns}, allowed {budget}")?;
    transfer::account(rt, h)
}
