// Reading a file.
ghost use Rattle.std.specs.Prelude.{◌≡◌, ◌≤◌, ◌-◌, length};
ghost use Rattle.wav.specs.Chunks.{chunks_at};
ghost use Rattle.wav.specs.Wave.{wave_in, wave_of, shown_by};

use crate::chunks::{RIFF_TAG, WAVE_TAG, walk};
use crate::sound::{Sound, sound_at};
use layout::{get_u32, part};

// A file's sound, and where the bytes of its data chunk are.
#[derive(Clone, Copy)]
pub struct Wave {
    pub sound: Sound,
    pub offset: usize,
    pub len: usize,
}

// Why a file is not read: 13 for its structure, 14 for its sound.
#[derive(Clone, Copy)]
pub enum WaveError {
    NotWave,
    BadSound,
}

// What a file holds, or why it is not read.
pub fn read(s: &[u8]) -> Result<Wave, WaveError>
    ensures { result ≡ wave_of s.now }
{
    if get_u32(s, 0) != RIFF_TAG {
        return Err(WaveError::NotWave);
    }
    let size = get_u32(s, 4) as usize;
    if size < 4 {
        return Err(WaveError::NotWave);
    }
    if s.len() < 8 + size {
        return Err(WaveError::NotWave);
    }
    if get_u32(s, 8) != WAVE_TAG {
        return Err(WaveError::NotWave);
    }
    in_riff(s, 8 + size)
}

// The chunks of a RIFF that ends there, then the sound.
fn in_riff(s: &[u8], end: usize) -> Result<Wave, WaveError>
    requires { (12 ≤ end) × (end ≤ length s.now) }
    ensures { result ≡ wave_in s.now (chunks_at s.now 12 0 (end - 12)) }
{
    let places = walk(s, end)?;
    let Some(fmt) = places.fmt else {
        return Err(WaveError::NotWave);
    };
    let Some(frames) = places.frames else {
        return Err(WaveError::NotWave);
    };
    if frames <= fmt {
        return Err(WaveError::NotWave);
    }
    if get_u32(s, fmt + 4) < 16 {
        return Err(WaveError::NotWave);
    }
    let sound = sound_at(s, fmt + 8)?;
    let len = get_u32(s, frames + 4) as usize;
    Ok(Wave {
        sound,
        offset: frames + 8,
        len,
    })
}

// The data chunk's bytes, as a part of the file itself; none where the file is refused.
pub fn data_of<'a>(s: &'a [u8]) -> &'a [u8]
    ensures { result.now ≡ shown_by (wave_of s.now) s.now }
{
    match read(s) {
        Ok(w) => part(s, w.offset, w.len),
        Err(_) => &s[..0],
    }
}
