// A new state, and the configured counts of a state.
ghost use Rattle.std.specs.Prelude.{◌≡◌, ◌≤◌, true, false, length};
ghost use Rattle.std.proofs.lemmas.List.Edits.{sets};
ghost use Rattle.layout.specs.Lent.{made, shown};
ghost use Rattle.state_store.specs.Calls.{new_in, jack_count, stream_count, map_count, count_in};
ghost use Rattle.state_store.specs.Steps.{count_by};
ghost use Rattle.layout.specs.Bytes.{zeros};
ghost use Rattle.state_store.specs.Places.{head_size, state_size, tables_size};

use crate::calls::{RESULT, SIZE};
use crate::head::{core_of, get_head, put_core};
use crate::place::HEAD;
use codes::both;
use codes::words::{BAD_LENGTH, INVALID_PARAM};
use sound_core::{Core, consistent};

// The tables and parameters of a new state are 0.
fn clear(s: &mut [u8])
    requires { state_size ≤ length s.old }
    ensures { s.new ≡ sets s.old head_size (zeros tables_size) }
{
    s[HEAD..SIZE].fill(0);
}

fn make(guard: bool, state: &mut [u8], jacks: u32, streams: u32, chmaps: u32) -> u64
    ensures { made result state.new ≡ new_in guard state.old jacks streams chmaps }
{
    if state.len() < SIZE {
        return BAD_LENGTH;
    }
    put_core(&mut *state, Core::new(guard, jacks, streams, chmaps));
    clear(&mut *state);
    0
}

// The state before any call, from the configured counts.
pub fn new(state: &mut [u8], jacks: u32, streams: u32, chmaps: u32) -> u64
    ensures { made result state.new ≡ new_in false state.old jacks streams chmaps }
{
    make(false, state, jacks, streams, chmaps)
}

// The same with the guard: commands are held to the standard's lifecycle.
pub fn new_guarded(state: &mut [u8], jacks: u32, streams: u32, chmaps: u32) -> u64
    ensures { made result state.new ≡ new_in true state.old jacks streams chmaps }
{
    make(true, state, jacks, streams, chmaps)
}

// A count, of a core that passes the consistency test.
pub(crate) fn show(c: Core, n: u32, res: &mut [u8]) -> u64
    ensures { shown result res.new ≡ count_by c n res.old }
{
    if !consistent(c) {
        return INVALID_PARAM;
    }
    layout::put_u64(&mut *res, 0, n as u64);
    0
}

// The configured counts: three names of C; one function over the field would carry it in its contract.
pub fn jacks(state: &[u8], res: &mut [u8]) -> u64
    ensures { shown result res.new ≡ count_in state.now jack_count res.old }
{
    if !both(SIZE <= state.len(), RESULT <= res.len()) {
        return BAD_LENGTH;
    }
    let c = core_of(get_head(state));
    show(c, c.counts.jacks, res)
}

pub fn streams(state: &[u8], res: &mut [u8]) -> u64
    ensures { shown result res.new ≡ count_in state.now stream_count res.old }
{
    if !both(SIZE <= state.len(), RESULT <= res.len()) {
        return BAD_LENGTH;
    }
    let c = core_of(get_head(state));
    show(c, c.counts.streams, res)
}

pub fn chmaps(state: &[u8], res: &mut [u8]) -> u64
    ensures { shown result res.new ≡ count_in state.now map_count res.old }
{
    if !both(SIZE <= state.len(), RESULT <= res.len()) {
        return BAD_LENGTH;
    }
    let c = core_of(get_head(state));
    show(c, c.counts.maps, res)
}
