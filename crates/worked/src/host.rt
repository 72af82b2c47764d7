// The host between driver and device: it carries requests, answers and periods, and says what it
// carried.
use crate::show;
use codes::Refusal;
use exchange::{Sound, Step, StreamList};
use model::Device;
use sound_core::{MESSAGE, Reply, Value};
use std::io;
use tables::PAGE;
use turns::{Ring, Said};

#[derive(Clone, Copy)]
pub struct Host {
    pub sound: Sound,
    pub device: Device,
    pub ring: Ring,
    // What the driver said last, and the request that it wrote.
    pub reply: Result<Reply, Refusal>,
    pub streams: StreamList,
    pub message: [u8; MESSAGE],
    // The device's last answer to a request: its bytes and its status.
    pub answer: usize,
    pub status: u32,
    // What the transfer said last, its turns, and its bytes that were completed with 0x8000.
    pub said: Said,
    pub turns: u64,
    pub accepted: u64,
    // The device's status for what each slot carries.
    pub statuses: [u32; 32],
    // Turns advance the ring in its own storage.
    pub lent: bool,
}

pub(crate) fn new(sound: Sound, device: Device) -> Host {
    Host {
        sound,
        device,
        ring: Ring::new(),
        reply: Ok(Reply::Done(Value::Nothing)),
        streams: StreamList {
            count: 0,
            ids: [0; 127],
        },
        message: [0; MESSAGE],
        answer: 0,
        status: 0,
        said: Said::Going,
        turns: 0,
        accepted: 0,
        statuses: [0; 32],
        lent: false,
    }
}

// What a call or a feed led to.
pub(crate) fn told(h: Host, step: Step, message: [u8; MESSAGE]) -> Host {
    Host {
        sound: step.sound,
        reply: step.reply,
        streams: step.streams,
        message,
        ..h
    }
}

// A call or a feed, with a message buffer of its own.
pub(crate) fn called<F: FnOnce(&mut [u8]) -> Step>(h: Host, call: F) -> Host
    requires { F.IsAlwaysCallable call }
{
    let mut message = [0u8; MESSAGE];
    let step = call(&mut message);
    told(h, step, message)
}

// The first bytes of a message.
fn front<'a>(message: &'a [u8; MESSAGE], n: usize) -> &'a [u8] {
    &message[..n.min(MESSAGE)]
}

// The request goes to the device, and its answer to the driver.
pub(crate) fn carry(h: Host) -> Host {
    let reply = h.reply;
    let Ok(Reply::Send(n)) = reply else {
        return h;
    };
    let message = h.message;
    let mut page = [0u8; PAGE];
    let a = model::control::control(h.device, front(&message, n), &mut page);
    let device = a.device;
    let said = a.said;
    let mut next = [0u8; MESSAGE];
    let step = exchange::feed(h.sound, &page, &mut next);
    let answer = said.unwrap_or(0);
    let status = layout::get_u32(&page, 0);
    let after = Host {
        device,
        answer,
        status,
        ..h
    };
    told(after, step, next)
}

// Every request of a call, with no word said: at most three of set-up and its own.
pub(crate) fn settle(h: Host) -> Host {
    carry(carry(carry(carry(h))))
}

// What the driver said last.
fn reply(rt: &impl Print, h: Host) -> io::Result<()> {
    let reply = h.reply;
    let message = h.message;
    match reply {
        Ok(Reply::Send(n)) => {
            show::text(rt, b"  sends")?;
            show::bytes(rt, front(&message, n))?;
        }
        Ok(Reply::Done(v)) => {
            show::text(rt, b"  says ")?;
            show::value(rt, v, h.streams)?;
        }
        Err(r) => {
            show::text(rt, b"  says ")?;
            show::refusal(rt, r)?;
        }
    }
    show::text(rt, b"\n")
}

// What the device answered last, and what the driver said to that.
pub(crate) fn answered(rt: &impl Print, h: Host) -> io::Result<()> {
    let answer = h.answer;
    let status = h.status;
    println!(rt; "  device answers {answer} bytes, 0x{status:x}")?;
    reply(rt, h)
}

// What a call or a feed says, under its title.
pub(crate) fn said(rt: &impl Print, title: &[u8], h: Host) -> io::Result<()> {
    show::text(rt, title)?;
    reply(rt, h)
}

// One request and its answer, told.
fn exchanged(rt: &impl Print, h: Host) -> io::Result<Host> {
    let reply = h.reply;
    let Ok(Reply::Send(_)) = reply else {
        return Ok(h);
    };
    let after = carry(h);
    answered(rt, after)?;
    Ok(after)
}

// A call under its title: what it says first, and then each answer and what the driver says to it.
pub(crate) fn finish(rt: &impl Print, title: &[u8], h: Host) -> io::Result<Host> {
    said(rt, title, h)?;
    let mut now = h;
    for _ in 0..4 {
        now = exchanged(rt, now)?;
    }
    Ok(now)
}
