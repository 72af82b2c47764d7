// WAVE files: they have no state, and no ring.
ghost use Rattle.std.specs.Prelude.{◌≡◌};
ghost use Rattle.std.proofs.lemmas.List.Edits.{sets};
ghost use Rattle.layout.specs.Layout.{write as writes};
ghost use Rattle.layout.specs.Lent.{made, shown};
ghost use Rattle.console.specs.Entries.{wave_row, wave_values, wave_entry, file_entry};

use codes::words::BAD_LENGTH;
use wav::{Wave, WaveError, WriteError};

const NOT_WAVE: u64 = 13;

const BAD_SOUND: u64 = 14;

fn put_wave(res: &mut [u8], w: Wave)
    ensures { res.new ≡ sets res.old 0 (writes wave_row (wave_values w)) }
{
    let sound = w.sound;
    layout::put_u64(res, 0, w.offset as u64);
    layout::put_u64(res, 8, w.len as u64);
    layout::put_u8(res, 16, sound.channels);
    layout::put_u8(res, 17, sound.format);
    layout::put_u8(res, 18, sound.rate);
}

#[unsafe(no_mangle)]
pub extern "C" fn snd_wav_read(file: &[u8], res: &mut [u8]) -> u64
    ensures { shown result res.new ≡ wave_entry file.now res.old }
{
    if res.len() < state_store::RESULT {
        return BAD_LENGTH;
    }
    match wav::read(file) {
        Ok(w) => {
            put_wave(res, w);
            0
        }
        Err(WaveError::NotWave) => NOT_WAVE,
        Err(WaveError::BadSound) => BAD_SOUND,
    }
}

#[unsafe(no_mangle)]
pub extern "C" fn snd_wav_write(
    channels: u8,
    format: u8,
    rate: u8,
    frames: &[u8],
    file: &mut [u8],
) -> u64
    ensures { made result file.new ≡ file_entry channels format rate frames.now file.old }
{
    match wav::write(channels, format, rate, frames, file) {
        Ok(_) => 0,
        Err(WriteError::BadSound) => BAD_SOUND,
        Err(WriteError::BadLength) => BAD_LENGTH,
    }
}
