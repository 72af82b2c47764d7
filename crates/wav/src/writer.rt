// Writing a file.
ghost use Rattle.std.specs.Prelude.{◌≡◌, ◌++◌, ◌+◌, ◌≤◌, ◌*◌, ◌%◌, Ok, length, drop};
ghost use Rattle.std.proofs.lemmas.List.Edits.{sets};
ghost use Rattle.layout.specs.Bytes.{zeros};
ghost use Rattle.layout.specs.Layout.{write as writes};
ghost use Rattle.wav.specs.Chunks.{padded};
ghost use Rattle.wav.specs.Wave.{wrote_of, written_by, file_of, header, header_values};

use crate::chunks::{DATA_TAG, FMT_TAG, RIFF_TAG, WAVE_TAG};
use crate::sound::{block, held};
use codes::PcmRate;
use layout::{put_bytes, put_u8, put_u16, put_u32};

// Why a file is not written: 14 for its sound or its frames, 10 for too little room.
#[derive(Clone, Copy)]
pub enum WriteError {
    BadSound,
    BadLength,
}

// The most bytes of frames with their pad.
const MOST: usize = 4294967259;

fn judge(channels: u8, format: u8, rate: u8, len: usize, room: usize) -> Result<usize, WriteError>
    ensures { result ≡ wrote_of channels format rate len room }
{
    let Ok(f) = held(format) else {
        return Err(WriteError::BadSound);
    };
    if 14 <= rate {
        return Err(WriteError::BadSound);
    }
    if channels == 0 {
        return Err(WriteError::BadSound);
    }
    let whole = block(channels, f) as usize;
    if len % whole != 0 {
        return Err(WriteError::BadSound);
    }
    if MOST < len {
        return Err(WriteError::BadSound);
    }
    let padded = len + len % 2;
    if MOST < padded {
        return Err(WriteError::BadSound);
    }
    if room < 44 + padded {
        return Err(WriteError::BadLength);
    }
    Ok(44 + padded)
}

// The header of a file with so many bytes of frames.
fn put_header(out: &mut [u8], channels: u8, hz: u32, whole: u16, bits: u8, len: u32)
    requires { (hz * whole ≤ 4294967295) × (len + len % 2 ≤ 4294967259) }
    ensures { out.new ≡ sets out.old 0 (writes header (header_values channels hz whole bits len)) }
{
    put_u32(out, 0, RIFF_TAG);
    put_u32(out, 4, 36 + len + len % 2);
    put_u32(out, 8, WAVE_TAG);
    put_u32(out, 12, FMT_TAG);
    put_u32(out, 16, 16);
    put_u16(out, 20, 1);
    put_u16(out, 22, channels as u16);
    put_u32(out, 24, hz);
    put_u32(out, 28, hz * (whole as u32));
    put_u16(out, 32, whole);
    put_u16(out, 34, bits as u16);
    put_u32(out, 36, DATA_TAG);
    put_u32(out, 40, len);
}

// A pad of 0 where the number of bytes before it is odd.
fn put_pad(out: &mut [u8], at: usize, odd: usize)
    requires { odd ≤ 1 }
    ensures { out.new ≡ sets out.old at (zeros odd) }
{
    if odd == 1 {
        put_u8(out, at, 0);
    }
}

// The file at the front of a slice with room for it.
fn fill(channels: u8, format: u8, rate: u8, frames: &[u8], out: &mut [u8])
    requires { wrote_of channels format rate (length frames.now) (length out.old) ≡ Ok (44 + padded (length frames.now)) }
    ensures { out.new ≡ file_of channels format rate frames.now ++ drop (44 + padded (length frames.now)) out.old }
{
    let Ok(f) = held(format) else {
        return;
    };
    let Ok(r) = PcmRate::try_from(rate) else {
        return;
    };
    let len = frames.len();
    let whole = block(channels, f);
    put_header(out, channels, r.hz(), whole, f.storage_bits(), len as u32);
    put_bytes(out, 44, frames);
    put_pad(out, 44 + len, len % 2);
}

// The file at the front of the lent slice, and its bytes; the slice is as it was where the file is
// refused.
pub fn write(
    channels: u8,
    format: u8,
    rate: u8,
    frames: &[u8],
    out: &mut [u8],
) -> Result<usize, WriteError>
    ensures value { result ≡ wrote_of channels format rate (length frames.now) (length out.old) }
    ensures out_after { out.new ≡ written_by (wrote_of channels format rate (length frames.now) (length out.old)) (file_of channels format rate frames.now) out.old }
{
    let n = judge(channels, format, rate, frames.len(), out.len())?;
    fill(channels, format, rate, frames, out);
    Ok(n)
}
