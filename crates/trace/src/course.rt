// The judge of a trace: first every field, then whether a run of the turns writes it.
ghost use Rattle.std.specs.Prelude.{◌≡◌, ◌||◌, List, ◌++◌, ℕ, ◌+◌, ◌*◌, ◌≤◌, ◌<◌, eqb, length};
ghost use Rattle.layout.specs.Bytes.{le};
ghost use Rattle.turns.specs.Rules.{judge_of, played_of};
ghost use Rattle.trace.specs.Judge.{alive, may_send, may_free, may_end, ends, agree, sent_move, freed_move, move_by, move_of, rest_by, begun as started, judges, judged_of};
ghost use Rattle.trace.specs.Private.{Ready, opened_of, Course};
ghost use Rattle.trace.specs.declared.field.Field.TheVariants.{Submitted, Completed, End};
ghost use Rattle.trace.specs.declared.field.Stage.TheVariants.{Opening};

use crate::field::{Field, Judgement, Stage, State, TraceError};
use crate::{fields, rules};
use codes::{Refusal, StatusCode};
use turns::{Choice, Track, mode_ok};

fn may_send(stage: Stage, choice: Choice) -> bool
    ensures { result ≡ may_send stage choice }
{
    matches!(choice, Choice::Submit) && alive(stage)
}

fn alive(stage: Stage) -> bool
    ensures { result ≡ alive stage }
{
    matches!(stage, Stage::Opening | Stage::Out | Stage::Back)
}

// The first of the 4 bytes in which two numbers differ. A chain over to_le_bytes is no plainer.
fn other4(a: u32, b: u32) -> usize
    requires { a ≡ b → ⊥ }
    ensures { (result ≤ 3) × ((xs ys : List ℕ) → result ≡ agree (le 4 a ++ xs) (le 4 b ++ ys)) }
{
    if a % 256 != b % 256 {
        return 0;
    }
    if a / 256 % 256 != b / 256 % 256 {
        return 1;
    }
    if a / 256 / 256 % 256 != b / 256 / 256 % 256 {
        return 2;
    }
    3
}

// A completion may follow: in the turn that submitted, or in a turn that submits nothing.
fn may_free(stage: Stage, choice: Choice) -> bool
    ensures { result ≡ may_free stage choice }
{
    match stage {
        Stage::Opening | Stage::Back => matches!(choice, Choice::Wait),
        Stage::Out => true,
        Stage::Failed | Stage::Over => false,
    }
}

// An end that may follow: 2 after a bad completion; else 9 once a turn was run, 6 in a turn that
// submitted or submits nothing, 0 by the turn that finishes.
fn may_end(stage: Stage, choice: Choice, answer: u8) -> bool
    ensures { result ≡ may_end stage choice answer }
{
    match stage {
        Stage::Opening => match choice {
            Choice::Submit => false,
            Choice::Finish => answer == 0,
            Choice::Wait => answer == 6 || answer == 9,
        },
        Stage::Out => answer == 6 || answer == 9,
        Stage::Back => match choice {
            Choice::Submit => answer == 9,
            Choice::Finish => answer == 0 || answer == 9,
            Choice::Wait => answer == 6 || answer == 9,
        },
        Stage::Failed => answer == 2,
        Stage::Over => false,
    }
}

// A submission: the one that is due, or the first byte in which it differs from it.
fn sent_moved(t: Track, slot: u8, offset: u32, len: u32) -> Result<State, usize>
    requires { Ready t }
    ensures { result ≡ sent_move t slot offset len }
{
    let next = t.next;
    let due = rules::span(t.period, t.total, next);
    if slot as usize != t.head {
        return Err(3);
    }
    if offset as usize != next {
        return Err(4 + other4(offset, next as u32));
    }
    if len as usize != due {
        return Err(8 + other4(len, due as u32));
    }
    Ok(State {
        stage: Stage::Out,
        track: rules::submitted(t),
    })
}

// Some end may follow.
fn some_end(stage: Stage, choice: Choice) -> bool
    ensures { result ≡ ends stage choice }
{
    match stage {
        Stage::Opening => !matches!(choice, Choice::Submit),
        Stage::Out | Stage::Back | Stage::Failed => true,
        Stage::Over => false,
    }
}

// A completion: of the oldest in flight, or it names another slot.
fn freed_moved(t: Track, slot: u8, status: u32) -> Result<State, usize>
    requires { t.tail < 32 }
    ensures { result ≡ freed_move (judge_of t slot (played_of status)) t }
{
    if t.inflight == 0 {
        return Err(3);
    }
    if slot as usize != t.tail {
        return Err(3);
    }
    let track = rules::released(t);
    if status == StatusCode::OK {
        return Ok(State {
            stage: Stage::Back,
            track,
        });
    }
    Ok(State {
        stage: Stage::Failed,
        track,
    })
}

fn sent_by(
    stage: Stage,
    choice: Choice,
    t: Track,
    slot: u8,
    offset: u32,
    len: u32,
) -> Result<State, usize>
    requires { Ready t }
    ensures { result ≡ move_by stage choice t (Submitted slot offset len) }
{
    if !may_send(stage, choice) {
        return Err(0);
    }
    sent_moved(t, slot, offset, len)
}

fn done_by(stage: Stage, choice: Choice, t: Track, slot: u8, status: u32) -> Result<State, usize>
    requires { Ready t }
    ensures { result ≡ move_by stage choice t (Completed slot status) }
{
    if !may_free(stage, choice) {
        return Err(0);
    }
    freed_moved(t, slot, status)
}

fn end_by(stage: Stage, choice: Choice, t: Track, answer: u8) -> Result<State, usize>
    ensures { result ≡ move_by stage choice t (End answer) }
{
    if !some_end(stage, choice) {
        return Err(0);
    }
    if !may_end(stage, choice, answer) {
        return Err(3);
    }
    Ok(State {
        stage: Stage::Over,
        track: t,
    })
}

// One field more.
fn moved(least: usize, stage: Stage, t: Track, f: Field) -> Result<State, usize>
    requires { Ready t }
    ensures { result ≡ move_of least stage t f }
{
    let choice = rules::choose(least, t);
    match f {
        Field::Start { .. } => Err(0),
        Field::Submitted { slot, offset, len } => sent_by(stage, choice, t, slot, offset, len),
        Field::Completed { slot, status } => done_by(stage, choice, t, slot, status),
        Field::End { answer } => end_by(stage, choice, t, answer),
    }
}

// The trace is over: a whole run, or only the beginning of one.
fn rest(stage: Stage, at: usize) -> Judgement
    ensures { result ≡ rest_by stage at }
{
    match stage {
        Stage::Over => Ok(()),
        _ => Err(TraceError::NotARun { at }),
    }
}

// The track at the start of a transfer.
fn begun(per: usize, stream: u32, total: u32, period: u32) -> Track
    ensures { result ≡ started per stream total period 0 }
{
    Track {
        descriptors: per,
        head: 0,
        tail: 0,
        inflight: 0,
        stream,
        total: total as usize,
        period: period as usize,
        next: 0,
        budget: 0,
        turns: 0,
        running: true,
        capture: false,
        lent: total as usize,
        kept: 0,
        room: 0,
        written: 0,
        good: 0,
    }
}

// Field after field behind the start.
fn walk(per: usize, s: &[u8], t: Track) -> Judgement
    requires { Course per s.now 15 Opening t }
    ensures { result ≡ opened_of per s.now }
{
    let mut at: usize = 15;
    let mut state = State {
        stage: Stage::Opening,
        track: t,
    };
    // Each step is as long as its field, so the loop keeps its own place.
    while at != s.len() {
        let Some(f) = fields::field_at(s, at) else {
            return rest(state.stage, at);
        };
        match moved(per, state.stage, state.track, f) {
            Ok(next) => state = next,
            Err(k) => return Err(TraceError::NotARun { at: at + k }),
        }
        at += fields::size(f);
    }
    rest(state.stage, at)
}

// A trace that scans: the start comes first.
fn opened(per: usize, s: &[u8]) -> Judgement
    requires { 0 < per }
    ensures { result ≡ opened_of per s.now }
{
    if s.len() == 0 {
        return Err(TraceError::BadTrace { at: 0 });
    }
    let Some(f) = fields::field_at(s, 0) else {
        return Err(TraceError::BadTrace { at: 0 });
    };
    let Field::Start {
        stream,
        total,
        period,
    } = f
    else {
        return Err(TraceError::NotARun { at: 0 });
    };
    if period == 0 {
        return Err(TraceError::NotARun { at: 14 });
    }
    let t = begun(per, stream, total, period);
    walk(per, s, t)
}

// 18 over the whole trace, then 19.
fn judged(per: usize, s: &[u8]) -> Judgement
    requires { 0 < per }
    ensures { result ≡ judges per per s.now }
{
    fields::scan_fields(s)?;
    opened(per, s)
}

// The judge of a trace. The mode is the descriptors to a submission.
pub fn judge(mode: usize, s: &[u8]) -> Result<Judgement, Refusal>
    ensures { result ≡ judged_of mode s.now }
{
    if !mode_ok(mode) {
        return Err(Refusal::InvalidParam);
    }
    Ok(judged(mode, s))
}
