// The start of a transfer, without a trace and with one.
ghost use Rattle.std.specs.Prelude.{◌≡◌, length};
ghost use Rattle.console.specs.Entries.{began, start_entry, start_traced_entry};

use codes::words::BAD_LENGTH;

#[unsafe(no_mangle)]
pub extern "C" fn snd_pcm_xfer_start(
    state: &mut [u8],
    ring: &mut [u8],
    stream: u32,
    frames: &[u8],
    budget: u64,
    message: &mut [u8],
) -> u64
    ensures { began result state.new ring.new message.new ≡ start_entry state.old ring.old stream (length frames.now) budget message.old }
{
    if ring.len() < ring_store::SIZE {
        return BAD_LENGTH;
    }
    let t = ring_store::track(ring);
    let opening = state_store::open(state, t, stream, message);
    match opening {
        Err(number) => number,
        Ok(period) => ring_store::start(ring, stream, frames.len(), period as usize, budget),
    }
}

// The transfer writes a trace into the room, from its first turn on.
#[unsafe(no_mangle)]
pub extern "C" fn snd_pcm_xfer_start_traced(
    state: &mut [u8],
    ring: &mut [u8],
    stream: u32,
    frames: &[u8],
    budget: u64,
    room: &[u8],
    message: &mut [u8],
) -> u64
    ensures { began result state.new ring.new message.new ≡ start_traced_entry state.old ring.old stream (length frames.now) budget (length room.now) message.old }
{
    let size = ring.len();
    if size < ring_store::SIZE {
        return BAD_LENGTH;
    }
    let t = ring_store::track(ring);
    let opening = state_store::open(state, t, stream, message);
    match opening {
        Err(number) => number,
        Ok(period) => {
            let lent = room.len();
            ring_store::start_traced(ring, stream, frames.len(), period, budget, lent)
        }
    }
}
