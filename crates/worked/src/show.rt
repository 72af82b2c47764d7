// Words and numbers of the output.
use codes::{Cause, Refusal};
use exchange::StreamList;
use sound_core::Value;
use std::io;

pub(crate) fn text(rt: &impl Print, s: &[u8]) -> io::Result<()> {
    rt.write_all(s)
}

pub(crate) fn decimal(rt: &impl Print, n: u64) -> io::Result<()> {
    print!(rt; "{n}")
}

// In two columns.
pub(crate) fn wide(rt: &impl Print, n: u64) -> io::Result<()> {
    print!(rt; "{n:>2}")
}

// Before each byte a space.
pub(crate) fn bytes(rt: &impl Print, s: &[u8]) -> io::Result<()> {
    for b in s {
        print!(rt; " {b:02x}")?;
    }
    Ok(())
}

// The name of 2 or 3, and what caused it, where the device said that.
fn caused(rt: &impl Print, name: &str, c: Cause) -> io::Result<()> {
    match c {
        Cause::NoStatus => print!(rt; "{name}"),
        Cause::Status(word) => print!(rt; "{name}, the device said 0x{word:x}"),
    }
}

fn name(rt: &impl Print, r: Refusal) -> io::Result<()> {
    match r {
        Refusal::InvalidParam => text(rt, b"InvalidParam"),
        Refusal::IoError(c) => caused(rt, "IoError", c),
        Refusal::Unsupported(c) => caused(rt, "Unsupported", c),
        Refusal::NoInfo => text(rt, b"NoInfo"),
        Refusal::TooMany => text(rt, b"TooMany"),
        Refusal::WrongToken => text(rt, b"WrongToken"),
        Refusal::QueueFailed => text(rt, b"QueueFailed"),
        Refusal::Busy => text(rt, b"Busy"),
        Refusal::OutOfTurns => text(rt, b"OutOfTurns"),
        Refusal::BadLength => text(rt, b"BadLength"),
        Refusal::Short => text(rt, b"Short"),
        Refusal::BadState => text(rt, b"BadState"),
        Refusal::Full => text(rt, b"Full"),
        Refusal::NotYet => text(rt, b"NotYet"),
        Refusal::BadCapture => text(rt, b"BadCapture"),
    }
}

// An answer's number, and document 01's name for it.
pub(crate) fn ok(rt: &impl Print) -> io::Result<()> {
    text(rt, b"0 Ok")
}

pub(crate) fn refusal(rt: &impl Print, r: Refusal) -> io::Result<()> {
    let number = r.number();
    print!(rt; "{number} ")?;
    name(rt, r)
}

// Before each id of a list a space.
fn ids(rt: &impl Print, list: StreamList) -> io::Result<()> {
    for id in list.ids.iter().take(list.count as usize) {
        print!(rt; " {id}")?;
    }
    Ok(())
}

// What a call results in.
pub(crate) fn value(rt: &impl Print, v: Value, list: StreamList) -> io::Result<()> {
    ok(rt)?;
    match v {
        Value::Nothing => text(rt, b""),
        Value::Number(n) => print!(rt; ", 0x{n:x}"),
        Value::Range { min, max } => print!(rt; ", {min} to {max}"),
        Value::Streams { direction: _ } => {
            text(rt, b", streams")?;
            ids(rt, list)
        }
    }
}
