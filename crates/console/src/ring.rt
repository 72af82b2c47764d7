// The ring: a new one, what the next turn submits, a turn, of either direction or with a trace, a drain
// turn, and its reads.
ghost use Rattle.std.specs.Prelude.{◌≡◌, length};
ghost use Rattle.turns.specs.Ring.{direct, indirect};
ghost use Rattle.turns.specs.Reads.{running_of, in_flight_of, free_of, turns_of, stream_of, kept_read, written_read, accepted_read, carried_of};
ghost use Rattle.ring_store.specs.Store.{track_at, ring_of};
ghost use Rattle.ring_store.specs.Calls.{new_in, turn_in, drain_in, caught, capture_in, turn_traced_in, offer_in, capture_offer_in, told_in, oldest_says};
ghost use Rattle.layout.specs.Lent.{made, shown};

#[unsafe(no_mangle)]
pub extern "C" fn snd_ring_new(ring: &mut [u8]) -> u64
    ensures { made result ring.new ≡ new_in direct ring.old }
{
    ring_store::new(ring)
}

// A ring for a queue whose descriptors are indirect, as negotiated.
#[unsafe(no_mangle)]
pub extern "C" fn snd_ring_new_indirect(ring: &mut [u8]) -> u64
    ensures { made result ring.new ≡ new_in indirect ring.old }
{
    ring_store::new_indirect(ring)
}

// What the next turn submits: submit it to the device, poll, then call `snd_turn`.
#[unsafe(no_mangle)]
pub extern "C" fn snd_offered(ring: &[u8], frames: &[u8], res: &mut [u8]) -> u64
    ensures { shown result res.new ≡ offer_in ring.now (length frames.now) res.old }
{
    ring_store::offered(ring, frames.len(), res)
}

#[unsafe(no_mangle)]
pub extern "C" fn snd_turn(ring: &mut [u8], frames: &[u8], kind: u32, slot: u32, status: u32) -> u64
    ensures { made result ring.new ≡ turn_in ring.old (length frames.now) kind slot status }
{
    ring_store::turn(ring, frames.len(), kind, slot, status)
}

// What it writes of the trace stands at the front of the room: `snd_trace_length` tells how long it is.
#[unsafe(no_mangle)]
pub extern "C" fn snd_turn_traced(
    ring: &mut [u8],
    frames: &[u8],
    room: &mut [u8],
    kind: u32,
    slot: u32,
    status: u32,
) -> u64
    ensures { caught result ring.new room.new ≡ turn_traced_in ring.old (length frames.now) room.old kind slot status }
{
    ring_store::turn_traced(ring, frames.len(), room, kind, slot, status)
}

// What the next turn of a capture submits: lend the device a period to write, with its status, poll,
// then call `snd_capture_turn`.
#[unsafe(no_mangle)]
pub extern "C" fn snd_capture_offered(ring: &[u8], recording: &[u8], res: &mut [u8]) -> u64
    ensures { shown result res.new ≡ capture_offer_in ring.now (length recording.now) res.old }
{
    ring_store::capture_offered(ring, recording.len(), res)
}

// `bytes` is what the device wrote: the payload and then the status.
#[unsafe(no_mangle)]
pub extern "C" fn snd_capture_turn(
    ring: &mut [u8],
    recording: &mut [u8],
    kind: u32,
    slot: u32,
    written: u32,
    bytes: &[u8],
) -> u64
    ensures { caught result ring.new recording.new ≡ capture_in ring.old recording.old kind slot written bytes.now }
{
    ring_store::capture_turn(ring, recording, kind, slot, written, bytes)
}

#[unsafe(no_mangle)]
pub extern "C" fn snd_drain_turn(ring: &mut [u8], kind: u32, slot: u32, status: u32) -> u64
    ensures { made result ring.new ≡ drain_in ring.old kind slot status }
{
    ring_store::drain_turn(ring, kind, slot, status)
}

#[unsafe(no_mangle)]
pub extern "C" fn snd_ring_running(ring: &[u8], res: &mut [u8]) -> u64
    ensures { shown result res.new ≡ told_in ring.now res.old (running_of (track_at ring.now)) }
{
    ring_store::running(ring, res)
}

#[unsafe(no_mangle)]
pub extern "C" fn snd_ring_in_flight(ring: &[u8], res: &mut [u8]) -> u64
    ensures { shown result res.new ≡ told_in ring.now res.old (in_flight_of (track_at ring.now)) }
{
    ring_store::in_flight(ring, res)
}

#[unsafe(no_mangle)]
pub extern "C" fn snd_ring_free_descriptors(ring: &[u8], res: &mut [u8]) -> u64
    ensures { shown result res.new ≡ told_in ring.now res.old (free_of (track_at ring.now)) }
{
    ring_store::free_descriptors(ring, res)
}

#[unsafe(no_mangle)]
pub extern "C" fn snd_ring_turns_run(ring: &[u8], res: &mut [u8]) -> u64
    ensures { shown result res.new ≡ told_in ring.now res.old (turns_of (track_at ring.now)) }
{
    ring_store::turns_run(ring, res)
}

#[unsafe(no_mangle)]
pub extern "C" fn snd_ring_stream(ring: &[u8], res: &mut [u8]) -> u64
    ensures { shown result res.new ≡ told_in ring.now res.old (stream_of (track_at ring.now)) }
{
    ring_store::stream(ring, res)
}

// The bytes of its recording that a capture accepted.
#[unsafe(no_mangle)]
pub extern "C" fn snd_ring_kept(ring: &[u8], res: &mut [u8]) -> u64
    ensures { shown result res.new ≡ told_in ring.now res.old (kept_read (track_at ring.now)) }
{
    ring_store::kept(ring, res)
}

// The good completions of the transfer that runs, or of the last one that ran.
#[unsafe(no_mangle)]
pub extern "C" fn snd_ring_accepted(ring: &[u8], res: &mut [u8]) -> u64
    ensures { shown result res.new ≡ told_in ring.now res.old (accepted_read (track_at ring.now)) }
{
    ring_store::accepted(ring, res)
}

// The bytes of its room that hold the trace, of the transfer that runs or ran last.
#[unsafe(no_mangle)]
pub extern "C" fn snd_trace_length(ring: &[u8], res: &mut [u8]) -> u64
    ensures { shown result res.new ≡ told_in ring.now res.old (written_read (track_at ring.now)) }
{
    ring_store::trace_length(ring, res)
}

#[unsafe(no_mangle)]
pub extern "C" fn snd_ring_carried(ring: &[u8], slot: usize, res: &mut [u8]) -> u64
    ensures { shown result res.new ≡ told_in ring.now res.old (carried_of (ring_of ring.now) slot) }
{
    ring_store::carried(ring, slot, res)
}

#[unsafe(no_mangle)]
pub extern "C" fn snd_ring_oldest(ring: &[u8], res: &mut [u8]) -> u64
    ensures { shown result res.new ≡ told_in ring.now res.old (oldest_says (track_at ring.now)) }
{
    ring_store::oldest(ring, res)
}
