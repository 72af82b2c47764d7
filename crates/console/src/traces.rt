// Traces of transfers: they have no state, and no ring.
ghost use Rattle.std.specs.Prelude.{◌≡◌};
ghost use Rattle.trace.specs.Fields.{scan_of};
ghost use Rattle.trace.specs.Judge.{judged_of, says_judgement, says_judged, place_of, place_of_judged};

use trace::{Judgement, TraceError};

fn number(j: Judgement) -> u64
    ensures { result ≡ (says_judgement j).number }
{
    match j {
        Ok(()) => 0,
        Err(TraceError::BadTrace { .. }) => 18,
        Err(TraceError::NotARun { .. }) => 19,
    }
}

fn place(j: Judgement) -> u64
    ensures { result ≡ place_of j }
{
    match j {
        Ok(()) => 0,
        Err(TraceError::BadTrace { at }) => at as u64,
        Err(TraceError::NotARun { at }) => at as u64,
    }
}

// Whether a trace is whole fields: 0 or 18.
#[unsafe(no_mangle)]
pub extern "C" fn snd_trace_scan(trace: &[u8]) -> u64
    ensures { result ≡ (says_judgement (scan_of trace.now)).number }
{
    let j = trace::scan(trace);
    number(j)
}

// The offset of its 18.
#[unsafe(no_mangle)]
pub extern "C" fn snd_trace_scan_at(trace: &[u8]) -> u64
    ensures { result ≡ place_of (scan_of trace.now) }
{
    let j = trace::scan(trace);
    place(j)
}

// Whether a run of the turns writes a trace: 0, 18 or 19, and 1 for a mode that is none.
#[unsafe(no_mangle)]
pub extern "C" fn snd_judge(mode: u32, trace: &[u8]) -> u64
    ensures { result ≡ (says_judged (judged_of mode trace.now)).number }
{
    match trace::judge(mode as usize, trace) {
        Ok(j) => number(j),
        Err(r) => r.number() as u64,
    }
}

// The offset of its 18 or 19.
#[unsafe(no_mangle)]
pub extern "C" fn snd_judge_at(mode: u32, trace: &[u8]) -> u64
    ensures { result ≡ place_of_judged (judged_of mode trace.now) }
{
    match trace::judge(mode as usize, trace) {
        Ok(j) => place(j),
        Err(_) => 0,
    }
}
