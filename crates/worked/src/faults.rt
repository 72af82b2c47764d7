// Calls that end otherwise than with Ok: what was accepted, what is owed, and how that is drained.
use crate::host::Host;
use crate::{calls, host, numbers, show, transfer};
use std::io;

fn drained(rt: &impl Print, h: Host) -> io::Result<Host> {
    show::text(rt, b"drain turns\n")?;
    transfer::drains(rt, h, b"32.d3")
}

pub(crate) fn failing(rt: &impl Print) -> io::Result<()> {
    show::text(
        rt,
        b"\nA FAILING DEVICE: the status of the second period is 0x8003\n",
    )?;
    let h = transfer::run(rt, numbers::ready_with(64, 16), &[7; 50], 100, b"..0b")?;
    transfer::account(rt, h)?;
    host::said(rt, b"stop, while slots are owed\n", calls::stop(h, 0))?;
    let h = drained(rt, h)?;
    host::finish(rt, b"stop, when none is owed\n", calls::stop(h, 0))?;
    Ok(())
}

pub(crate) fn wrong_slot(rt: &impl Print) -> io::Result<()> {
    show::text(rt, b"\nA DEVICE THAT NAMES A WRONG SLOT\n")?;
    let h = transfer::run(rt, numbers::ready_with(64, 16), &[7; 50], 100, b".1")?;
    transfer::account(rt, h)?;
    show::text(rt, b"drain turns\n")?;
    transfer::drains(rt, h, b"01")?;
    Ok(())
}

pub(crate) fn small_budget(rt: &impl Print) -> io::Result<()> {
    show::text(rt, b"\nA BUDGET TOO SMALL\n")?;
    let h = numbers::ready_with(64, 16);
    show::text(rt, b"budget 0\n")?;
    transfer::ended(rt, transfer::run(rt, h, &[7; 50], 0, b"")?)?;
    show::text(rt, b"budget 4, where Ok takes 5 turns\n")?;
    transfer::account(rt, transfer::run(rt, h, &[7; 50], 4, b"0123")?)
}

pub(crate) fn remap(rt: &impl Print) -> io::Result<()> {
    show::text(rt, b"\nREMAP: jack 0 without REMAP, jack 1 with it\n")?;
    let h = numbers::ready();
    host::said(
        rt,
        b"jack 0, association 5, sequence 6\n",
        calls::remap(h, 0, 5, 6),
    )?;
    host::finish(
        rt,
        b"jack 1, association 5, sequence 6\n",
        calls::remap(h, 1, 5, 6),
    )?;
    host::said(rt, b"jack 2, which is too high\n", calls::remap(h, 2, 5, 6))
}
