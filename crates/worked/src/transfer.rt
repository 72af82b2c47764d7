// A transfer, turn by turn.
use crate::host::Host;
use crate::{host, show};
use codes::{Refusal, StatusCode};
use exchange::{XferReply, XferStep};
use model::{Answered, Device};
use records::{Transfer, TransferStatus};
use sound_core::MESSAGE;
use std::io;
use std::num::wrapping_add_u64;
use turns::{Completion, Freed, Period, Ring, Said, Turned};

// A reading in numbers, as `turn_lent` takes it: the turn in place is what C calls.
#[derive(Clone, Copy)]
struct Words {
    kind: u32,
    slot: u32,
    status: u32,
}

// ---- the start

fn started(h: Host, x: XferStep) -> Host {
    let sound = x.sound;
    let ring = x.ring;
    let reply = x.reply;
    let XferReply::Says(said) = reply else {
        return h;
    };
    Host {
        sound,
        ring,
        said,
        turns: x.turns,
        accepted: 0,
        ..h
    }
}

fn start(h: Host, frames: &[u8], budget: u64) -> Host {
    let mut message = [0u8; MESSAGE];
    let x = exchange::pcm_xfer_start(h.sound, h.ring, 0, frames, budget, &mut message);
    started(h, x)
}

// A whole transfer to stream 0 in one call, every reading quiet.
pub(crate) fn run_quiet(h: Host, frames: &[u8], budget: u64) -> Host {
    let mut message = [0u8; MESSAGE];
    let x = exchange::pcm_xfer(h.sound, h.ring, 0, frames, budget, &[], &mut message);
    started(h, x)
}

// ---- what goes to the device

// The stream's number and the period, which has at most 16 bytes here.
fn send(d: Device, stream: u32, period: &[u8], answer: &mut [u8]) -> Answered {
    let n = period.len().min(16);
    let mut request = [0u8; 20];
    let head = Transfer { stream };
    let _ = head.write(&mut request);
    request[4..4 + n].copy_from_slice(&period[..n]);
    model::transfer::transfer(d, &request[..4 + n], answer)
}

fn noted(h: Host, device: Device, slot: usize, status: u32) -> Host {
    let mut after = Host { device, ..h };
    if slot < 32 {
        after.statuses[slot] = status;
    }
    after
}

// The period that the next turn submits goes to the device, whose status is kept for the slot.
fn submit(h: Host, frames: &[u8], offer: Result<Option<Period>, Refusal>) -> Host {
    let Ok(sent) = offer else {
        return h;
    };
    let Some(p) = sent else {
        return h;
    };
    let period = turns::offered(h.ring, frames);
    let mut answer = [0u8; TransferStatus::SIZE];
    let t = send(h.device, h.ring.track.stream, period, &mut answer);
    let device = t.device;
    let status = layout::get_u32(&answer, 0);
    noted(h, device, p.slot, status)
}

// ---- a turn

fn status_at(h: Host, slot: u32) -> u32 {
    h.statuses.get(slot as usize).copied().unwrap_or(0)
}

fn quiet() -> Words {
    Words {
        kind: 0,
        slot: 0,
        status: 0,
    }
}

fn completed(slot: u32, status: u32) -> Words {
    Words {
        kind: 1,
        slot,
        status,
    }
}

// What a mark stands for: a digit is a slot, completed with the status that the model gave it; a
// letter, from `a` for slot 0 on, is a slot with an I/O error; any other is quiet.
fn in_words(h: Host, mark: u8) -> Words {
    match mark {
        b'0'..=b'9' => {
            let slot = u32::from(mark - b'0');
            completed(slot, status_at(h, slot))
        }
        b'a'..=255 => completed(u32::from(mark - b'a'), StatusCode::IO_ERR),
        _ => quiet(),
    }
}

fn advance(lent: bool, ring: Ring, frames: &[u8], w: Words) -> Turned {
    if lent {
        return turns::turn_lent(ring, frames, w.kind, w.slot, w.status);
    }
    let reading = Completion::from_words(w.kind, w.slot, w.status);
    turns::turn(ring, frames, reading)
}

// The bytes accepted so far, with those of a slot that was freed with 0x8000.
fn accepted(before: u64, ring: Ring, heard: Option<Freed>) -> u64 {
    let Some(freed) = heard else {
        return before;
    };
    if freed.status != StatusCode::OK {
        return before;
    }
    let Ok(s) = ring.carried(freed.slot) else {
        return before;
    };
    wrapping_add_u64(before, s.len as u64)
}

fn turned(h: Host, t: Turned) -> Host {
    let ring = t.ring;
    let heard = t.heard;
    let said = t.said;
    let turns = t.turns;
    let accepted = accepted(h.accepted, ring, heard);
    Host {
        ring,
        said,
        turns,
        accepted,
        ..h
    }
}

// ---- its line

fn offered(rt: &impl Print, offer: Result<Option<Period>, Refusal>) -> io::Result<()> {
    let Ok(sent) = offer else {
        return Ok(());
    };
    match sent {
        None => show::text(rt, b"nothing                     "),
        Some(p) => {
            show::text(rt, b"slot ")?;
            show::decimal(rt, p.slot as u64)?;
            show::text(rt, b", offset ")?;
            show::wide(rt, p.offset as u64)?;
            show::text(rt, b", length ")?;
            show::wide(rt, p.len as u64)
        }
    }
}

fn seen_in(rt: &impl Print, w: Words) -> io::Result<()> {
    if w.kind == 0 {
        return show::text(rt, b" | quiet          | ");
    }
    let slot = w.slot;
    let status = w.status;
    print!(rt; " | slot {slot}, 0x{status:x} | ")
}

fn says(rt: &impl Print, said: Said) -> io::Result<()> {
    match said {
        Said::Going => show::text(rt, b"goes on"),
        Said::Done => show::ok(rt),
        Said::Ended(r) => show::refusal(rt, r),
        Said::Refused(r) => show::refusal(rt, r),
    }
}

fn line(
    rt: &impl Print,
    turns: u64,
    offer: Result<Option<Period>, Refusal>,
    w: Words,
    said: Said,
) -> io::Result<()> {
    show::text(rt, b"  turn ")?;
    show::wide(rt, turns)?;
    show::text(rt, b" | ")?;
    offered(rt, offer)?;
    seen_in(rt, w)?;
    says(rt, said)?;
    show::text(rt, b"\n")
}

// A turn: what it offers goes to the device, and what the queue then shows goes to the driver.
fn turn(rt: &impl Print, h: Host, frames: &[u8], mark: u8) -> io::Result<Host> {
    let offer = turns::next_offer(h.ring, frames);
    let sent = submit(h, frames, offer);
    let w = in_words(sent, mark);
    let t = advance(sent.lent, sent.ring, frames, w);
    let after = turned(sent, t);
    let said = after.said;
    line(rt, after.turns, offer, w, said)?;
    Ok(after)
}

// A turn for each mark.
fn play(rt: &impl Print, h: Host, frames: &[u8], marks: &[u8]) -> io::Result<Host> {
    let mut now = h;
    for mark in marks {
        now = turn(rt, now, frames, *mark)?;
    }
    Ok(now)
}

// A transfer to stream 0, turn by turn: what the queue shows in each is a mark.
pub(crate) fn run(
    rt: &impl Print,
    h: Host,
    frames: &[u8],
    budget: u64,
    marks: &[u8],
) -> io::Result<Host> {
    play(rt, start(h, frames, budget), frames, marks)
}

// ---- after a turn

fn number(rt: &impl Print, n: Result<u64, Refusal>) -> io::Result<()> {
    match n {
        Ok(k) => show::decimal(rt, k),
        Err(_) => show::text(rt, b"no number of"),
    }
}

// What the transfer said last, and after how many turns.
pub(crate) fn ended(rt: &impl Print, h: Host) -> io::Result<()> {
    let said = h.said;
    let ring = h.ring;
    show::text(rt, b"  says ")?;
    says(rt, said)?;
    let turns = h.turns;
    print!(rt; " on turn {turns}, ")?;
    number(rt, ring.in_flight())?;
    show::text(rt, b" in flight\n")
}

fn oldest(rt: &impl Print, o: Result<Option<usize>, Refusal>) -> io::Result<()> {
    let Ok(Some(slot)) = o else {
        return Ok(());
    };
    show::text(rt, b", the oldest slot ")?;
    show::decimal(rt, slot as u64)
}

// What was completed with 0x8000, and what is in flight.
pub(crate) fn account(rt: &impl Print, h: Host) -> io::Result<()> {
    let ring = h.ring;
    let accepted = h.accepted;
    print!(rt; "  accepted {accepted} bytes, ")?;
    number(rt, ring.in_flight())?;
    show::text(rt, b" in flight")?;
    oldest(rt, ring.oldest())?;
    show::text(rt, b"\n")
}

// A drain turn, and its line.
fn drain(rt: &impl Print, h: Host, mark: u8) -> io::Result<Host> {
    let w = in_words(h, mark);
    let reading = Completion::from_words(w.kind, w.slot, w.status);
    let t = turns::drain_turn(h.ring, reading);
    let ring = t.ring;
    let said = t.said;
    show::text(rt, b"  drain  ")?;
    seen_in(rt, w)?;
    says(rt, said)?;
    show::text(rt, b", ")?;
    number(rt, ring.in_flight())?;
    show::text(rt, b" in flight\n")?;
    Ok(Host { ring, said, ..h })
}

// A drain turn for each mark.
pub(crate) fn drains(rt: &impl Print, h: Host, marks: &[u8]) -> io::Result<Host> {
    let mut now = h;
    for mark in marks {
        now = drain(rt, now, *mark)?;
    }
    Ok(now)
}
