// The chunks of a RIFF file.
ghost use Rattle.std.specs.Prelude.{◌≡◌, ◌≤◌, ◌-◌, length};
ghost use Rattle.wav.specs.Chunks.{chunks_at};
ghost use Rattle.wav.specs.Private.{walked};

use crate::reader::WaveError;
use layout::get_u32;

// Four letters each: "RIFF", "WAVE", "fmt ", "data".
pub(crate) const RIFF_TAG: u32 = 0x46464952;

pub(crate) const WAVE_TAG: u32 = 0x45564157;

pub(crate) const FMT_TAG: u32 = 0x20746d66;

pub(crate) const DATA_TAG: u32 = 0x61746164;

// Where the first chunk of either kind begins.
#[derive(Clone, Copy)]
pub struct Placed {
    pub fmt: Option<usize>,
    pub frames: Option<usize>,
}

// Every chunk from byte 12 to the end is passed, so that one that is cut is seen wherever it stands.
pub(crate) fn walk(s: &[u8], end: usize) -> Result<Placed, WaveError>
    requires { (12 ≤ end) × (end ≤ length s.now) }
    ensures { result ≡ walked s.now (chunks_at s.now 12 0 (end - 12)) }
{
    let mut at: usize = 12;
    let mut fmt: Option<usize> = None;
    let mut frames: Option<usize> = None;
    // Each step is as long as its chunk, so the loop keeps its own place.
    while at < end {
        let left = end - at;
        if left < 8 {
            return Err(WaveError::NotWave);
        }
        let tag = get_u32(s, at);
        let size = get_u32(s, at + 4) as usize;
        let takes = 8 + size + size % 2;
        if left < takes {
            return Err(WaveError::NotWave);
        }
        fmt = fmt.or((tag == FMT_TAG).then_some(at));
        frames = frames.or((tag == DATA_TAG).then_some(at));
        at += takes;
    }
    Ok(Placed { fmt, frames })
}
