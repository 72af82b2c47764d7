// Submissions that do not wait: a submission, a completion reading, finishing, and what is pending.
ghost use Rattle.std.specs.Prelude.{◌≡◌};
ghost use Rattle.layout.specs.Lent.{made, shown};
ghost use Rattle.state_store.specs.Tokens.{submitted, mark_in, finish_in, pending_in, seen_in};
ghost use Rattle.console.specs.Entries.{nb_entry};

use codes::words::BAD_LENGTH;

// One whole period is copied into a place; its token stands in the result.
#[unsafe(no_mangle)]
pub extern "C" fn snd_pcm_xfer_nb(
    state: &mut [u8],
    ring: &[u8],
    stream: u32,
    payload: &[u8],
    places: &mut [u8],
    message: &mut [u8],
    res: &mut [u8],
) -> u64
    ensures { submitted result state.new places.new message.new res.new ≡ nb_entry state.old ring.now stream payload.now places.old message.old res.old }
{
    if ring.len() < ring_store::SIZE {
        return BAD_LENGTH;
    }
    let t = ring_store::track(ring);
    state_store::pcm_xfer_nb(state, t, stream, payload, places, message, res)
}

// Kind 0 is quiet, and every other kind is completed.
#[unsafe(no_mangle)]
pub extern "C" fn snd_pcm_xfer_mark(state: &mut [u8], kind: u32, token: u32, status: u32) -> u64
    ensures { made result state.new ≡ mark_in state.old kind token status }
{
    state_store::pcm_xfer_mark(state, kind, token, status)
}

// A marked token is finished, and its place free again.
#[unsafe(no_mangle)]
pub extern "C" fn snd_pcm_xfer_ok(state: &mut [u8], token: u32) -> u64
    ensures { made result state.new ≡ finish_in state.old token }
{
    state_store::pcm_xfer_ok(state, token)
}

#[unsafe(no_mangle)]
pub extern "C" fn snd_pending_count(state: &[u8], res: &mut [u8]) -> u64
    ensures { shown result res.new ≡ pending_in state.now res.old }
{
    state_store::pending_count(state, res)
}

#[unsafe(no_mangle)]
pub extern "C" fn snd_pending_token(state: &[u8], token: usize, res: &mut [u8]) -> u64
    ensures { shown result res.new ≡ seen_in state.now token res.old }
{
    state_store::pending_token(state, token, res)
}
