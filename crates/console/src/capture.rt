// The start of a capture; its turns stand with the ring's.
ghost use Rattle.std.specs.Prelude.{◌≡◌, length};
ghost use Rattle.console.specs.Entries.{began, capture_entry};

use codes::words::BAD_LENGTH;

// So many periods are captured into the recording.
#[unsafe(no_mangle)]
pub extern "C" fn snd_pcm_capture_start(
    state: &mut [u8],
    ring: &mut [u8],
    stream: u32,
    periods: u64,
    recording: &[u8],
    budget: u64,
    message: &mut [u8],
) -> u64
    ensures { began result state.new ring.new message.new ≡ capture_entry state.old ring.old stream periods (length recording.now) budget message.old }
{
    if ring.len() < ring_store::SIZE {
        return BAD_LENGTH;
    }
    let t = ring_store::track(ring);
    let opening = state_store::open_capture(state, t, stream, message);
    match opening {
        Err(number) => number,
        Ok(period) => ring_store::capture_start(
            ring,
            stream,
            periods as usize,
            period as usize,
            recording.len(),
            budget,
        ),
    }
}
