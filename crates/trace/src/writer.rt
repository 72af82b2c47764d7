// The writer: a turn of a transfer, and what it writes of its trace into a lent room.
ghost use Rattle.std.specs.Prelude.{◌&&◌, [], ◌≡◌, ◌+◌, ◌≤◌, ◌<◌, ltb, leb, length};
ghost use Rattle.std.proofs.lemmas.List.Edits.{sets};
ghost use Rattle.turns.specs.Ring.{is_refused};
ghost use Rattle.turns.specs.Calls.{refused_of};
ghost use Rattle.codes.specs.declared.answers.Refusal.TheVariants.{InvalidParam};
ghost use Rattle.trace.specs.Field.{trace_bytes};
ghost use Rattle.trace.specs.Trace.{sent_then, heard_then, said_then};
ghost use Rattle.trace.specs.Private.{SentFits, HeardFits};
ghost use Rattle.trace.specs.Writer.{opening, ink_of, writing_call, room_after};

use crate::pen;
use codes::Refusal;
use turns::{Completion, Freed, Period, Said, Step, Track};

// It was refused, and ran no turn.
fn is_refused(said: Said) -> bool
    ensures { result ≡ is_refused said }
{
    match said {
        Said::Going => false,
        Said::Done => false,
        Said::Ended(_) => false,
        Said::Refused(_) => true,
    }
}

// The bytes of each field that a turn may write: two types, and so two functions.
fn sent_size(sent: Option<Period>) -> usize
    ensures { (result ≡ length (trace_bytes (sent_then sent []))) × (result ≤ 12) }
{
    match sent {
        None => 0,
        Some(_) => 12,
    }
}

fn heard_size(heard: Option<Freed>) -> usize
    ensures { (result ≡ length (trace_bytes (heard_then heard []))) × (result ≤ 8) }
{
    match heard {
        None => 0,
        Some(_) => 8,
    }
}

fn said_size(said: Said) -> usize
    ensures { (result ≡ length (trace_bytes (said_then said []))) × (result ≤ 4) }
{
    match said {
        Said::Going => 0,
        Said::Done => 4,
        Said::Ended(_) => 4,
        Said::Refused(_) => 0,
    }
}

// The bytes that a turn writes, the start's before the first turn's.
fn ink_size(t: Track, s: Step) -> usize
    ensures { (result ≡ length (ink_of t s)) × (result ≤ 39) }
{
    let sent = s.sent;
    let heard = s.heard;
    let said = s.said;
    let a = sent_size(sent);
    let b = heard_size(heard);
    let c = said_size(said);
    if t.turns == 0 {
        return 15 + a + b + c;
    }
    a + b + c
}

// The numbers fit their fields, and so many bytes more the room behind what is written.
fn pen_fits(total: usize, period: usize, written: usize, more: usize, room: usize) -> bool
    ensures { result ≡ (ltb total 4294967296 && (ltb period 4294967296 && leb (written + more) room)) }
{
    if 4294967296 <= total {
        return false;
    }
    if 4294967296 <= period {
        return false;
    }
    if room < more {
        return false;
    }
    written <= room - more
}

// The start, before the first turn's fields: where it ends.
fn put_opening(room: &mut [u8], t: Track) -> usize
    requires { (t.total < 4294967296) × ((t.period < 4294967296) × (t.written + length (trace_bytes (opening t [])) ≤ length room.old)) }
    ensures { (result ≡ t.written + length (trace_bytes (opening t []))) × (room.new ≡ sets room.old t.written (trace_bytes (opening t []))) }
{
    let at = t.written;
    if t.turns != 0 {
        return at;
    }
    let total = t.total as u32;
    let period = t.period as u32;
    pen::put_start(room, at, t.stream, total, period)
}

// What a turn that ran writes, behind what is written: where the trace ends then.
fn put_ink(room: &mut [u8], t: Track, s: Step) -> usize
    requires { (t.total < 4294967296) × ((t.period < 4294967296) × (SentFits s.sent × (HeardFits s.heard × (t.written + length (ink_of t s) ≤ length room.old)))) }
    ensures { (result ≡ t.written + length (ink_of t s)) × (room.new ≡ sets room.old t.written (ink_of t s)) }
{
    let at = put_opening(room, t);
    let sent = s.sent;
    let heard = s.heard;
    let said = s.said;
    pen::put_turn(room, at, sent, heard, said)
}

// The ring is none that a traced start left.
fn barred(t: Track) -> Step
    ensures { result ≡ refused_of InvalidParam t }
{
    Step {
        track: t,
        sent: None,
        heard: None,
        said: Said::Refused(Refusal::InvalidParam),
    }
}

// A turn of the track, lent frames of some length, and room for its trace. A refused one leaves the room as it was.
pub fn turn_traced(t: Track, len: usize, room: &mut [u8], reading: Option<Completion>) -> Step
    ensures { (result ≡ writing_call t len (length room.old) reading) × (room.new ≡ room_after t (writing_call t len (length room.old) reading) room.old) }
{
    let n = room.len();
    let s = turns::traced_track(t, len, n, reading);
    if n == 0 {
        return s;
    }
    let said = s.said;
    let none = is_refused(said);
    if none {
        return s;
    }
    let size = ink_size(t, s);
    let fits = pen_fits(t.total, t.period, t.written, size, n);
    if !fits {
        return barred(t);
    }
    let end = put_ink(room, t, s);
    let after = s.track;
    Step {
        track: Track {
            written: end,
            ..after
        },
        ..s
    }
}
