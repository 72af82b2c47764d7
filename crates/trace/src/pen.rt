// The writer's pen: fields, and what one turn writes, as bytes in a lent room.
ghost use Rattle.std.specs.Prelude.{◌≡◌, [], ◌+◌, ◌≤◌, ◌<◌, length};
ghost use Rattle.std.proofs.lemmas.List.Edits.{sets};
ghost use Rattle.trace.specs.Field.{bytes_of, trace_bytes, size_of};
ghost use Rattle.trace.specs.Trace.{sent_then, heard_then, said_then};
ghost use Rattle.trace.specs.Private.{SentFits, HeardFits, turn_fields};
ghost use Rattle.trace.specs.declared.field.Field.TheVariants.{Start, Submitted, Completed, End};

use crate::field::Field;
use layout;
use turns::{Freed, Period, Said};

pub(crate) fn put_start(room: &mut [u8], at: usize, stream: u32, total: u32, period: u32) -> usize
    requires { at + 15 ≤ length room.old }
    ensures { (result ≡ at + 15) × (room.new ≡ sets room.old at (bytes_of (Start stream total period))) }
{
    let len = at + 1;
    let a = len + 2;
    let b = a + 4;
    let c = b + 4;
    let end = c + 4;
    layout::put_u8(room, at, 0);
    layout::put_u16(room, len, 12);
    layout::put_u32(room, a, stream);
    layout::put_u32(room, b, total);
    layout::put_u32(room, c, period);
    end
}

fn put_submitted(room: &mut [u8], at: usize, slot: u8, offset: u32, span: u32) -> usize
    requires { at + 12 ≤ length room.old }
    ensures { (result ≡ at + 12) × (room.new ≡ sets room.old at (bytes_of (Submitted slot offset span))) }
{
    let len = at + 1;
    let a = len + 2;
    let b = a + 1;
    let c = b + 4;
    let end = c + 4;
    layout::put_u8(room, at, 1);
    layout::put_u16(room, len, 9);
    layout::put_u8(room, a, slot);
    layout::put_u32(room, b, offset);
    layout::put_u32(room, c, span);
    end
}

fn put_completed(room: &mut [u8], at: usize, slot: u8, status: u32) -> usize
    requires { at + 8 ≤ length room.old }
    ensures { (result ≡ at + 8) × (room.new ≡ sets room.old at (bytes_of (Completed slot status))) }
{
    let len = at + 1;
    let a = len + 2;
    let b = a + 1;
    let end = b + 4;
    layout::put_u8(room, at, 2);
    layout::put_u16(room, len, 5);
    layout::put_u8(room, a, slot);
    layout::put_u32(room, b, status);
    end
}

fn put_end(room: &mut [u8], at: usize, answer: u8) -> usize
    requires { at + 4 ≤ length room.old }
    ensures { (result ≡ at + 4) × (room.new ≡ sets room.old at (bytes_of (End answer))) }
{
    let len = at + 1;
    let a = len + 2;
    let end = a + 1;
    layout::put_u8(room, at, 3);
    layout::put_u16(room, len, 1);
    layout::put_u8(room, a, answer);
    end
}

// A field's bytes at a place of the room: where they end.
fn put(room: &mut [u8], at: usize, f: Field) -> usize
    requires { at + size_of f ≤ length room.old }
    ensures { (result ≡ at + size_of f) × (room.new ≡ sets room.old at (bytes_of f)) }
{
    match f {
        Field::Start {
            stream,
            total,
            period,
        } => put_start(room, at, stream, total, period),
        Field::Submitted { slot, offset, len } => put_submitted(room, at, slot, offset, len),
        Field::Completed { slot, status } => put_completed(room, at, slot, status),
        Field::End { answer } => put_end(room, at, answer),
    }
}

fn put_sent(room: &mut [u8], at: usize, sent: Option<Period>) -> usize
    requires { SentFits sent × (at + length (trace_bytes (sent_then sent [])) ≤ length room.old) }
    ensures { (result ≡ at + length (trace_bytes (sent_then sent []))) × (room.new ≡ sets room.old at (trace_bytes (sent_then sent []))) }
{
    match sent {
        None => at,
        Some(p) => {
            let f = Field::Submitted {
                slot: p.slot as u8,
                offset: p.offset as u32,
                len: p.len as u32,
            };
            put(room, at, f)
        }
    }
}

fn put_heard(room: &mut [u8], at: usize, heard: Option<Freed>) -> usize
    requires { HeardFits heard × (at + length (trace_bytes (heard_then heard [])) ≤ length room.old) }
    ensures { (result ≡ at + length (trace_bytes (heard_then heard []))) × (room.new ≡ sets room.old at (trace_bytes (heard_then heard []))) }
{
    match heard {
        None => at,
        Some(freed) => {
            let f = Field::Completed {
                slot: freed.slot as u8,
                status: freed.status,
            };
            put(room, at, f)
        }
    }
}

fn put_said(room: &mut [u8], at: usize, said: Said) -> usize
    requires { at + length (trace_bytes (said_then said [])) ≤ length room.old }
    ensures { (result ≡ at + length (trace_bytes (said_then said []))) × (room.new ≡ sets room.old at (trace_bytes (said_then said []))) }
{
    match said {
        Said::Going => at,
        Said::Done => put_end(room, at, 0),
        Said::Ended(r) => {
            let answer = r.number() as u8;
            put_end(room, at, answer)
        }
        Said::Refused(_) => at,
    }
}

// What one turn writes behind `at`: its submission, its completion, the end. Where the trace ends then.
pub(crate) fn put_turn(
    room: &mut [u8],
    at: usize,
    sent: Option<Period>,
    heard: Option<Freed>,
    said: Said,
) -> usize
    requires { SentFits sent × (HeardFits heard × (at + length (trace_bytes (turn_fields sent heard said)) ≤ length room.old)) }
    ensures { (result ≡ at + length (trace_bytes (turn_fields sent heard said))) × (room.new ≡ sets room.old at (trace_bytes (turn_fields sent heard said))) }
{
    let a = put_sent(room, at, sent);
    let b = put_heard(room, a, heard);
    put_said(room, b, said)
}
