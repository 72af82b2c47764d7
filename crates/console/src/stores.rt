// A new state, and the configured counts.
ghost use Rattle.std.specs.Prelude.{◌≡◌, true, false};
ghost use Rattle.layout.specs.Lent.{made, shown};
ghost use Rattle.state_store.specs.Calls.{new_in, jack_count, stream_count, map_count, count_in};

#[unsafe(no_mangle)]
pub extern "C" fn snd_new(state: &mut [u8], jacks: u32, streams: u32, chmaps: u32) -> u64
    ensures { made result state.new ≡ new_in false state.old jacks streams chmaps }
{
    state_store::new(state, jacks, streams, chmaps)
}

#[unsafe(no_mangle)]
pub extern "C" fn snd_new_guarded(state: &mut [u8], jacks: u32, streams: u32, chmaps: u32) -> u64
    ensures { made result state.new ≡ new_in true state.old jacks streams chmaps }
{
    state_store::new_guarded(state, jacks, streams, chmaps)
}

#[unsafe(no_mangle)]
pub extern "C" fn snd_jacks(state: &[u8], res: &mut [u8]) -> u64
    ensures { shown result res.new ≡ count_in state.now jack_count res.old }
{
    state_store::jacks(state, res)
}

#[unsafe(no_mangle)]
pub extern "C" fn snd_streams(state: &[u8], res: &mut [u8]) -> u64
    ensures { shown result res.new ≡ count_in state.now stream_count res.old }
{
    state_store::streams(state, res)
}

#[unsafe(no_mangle)]
pub extern "C" fn snd_chmaps(state: &[u8], res: &mut [u8]) -> u64
    ensures { shown result res.new ≡ count_in state.now map_count res.old }
{
    state_store::chmaps(state, res)
}
