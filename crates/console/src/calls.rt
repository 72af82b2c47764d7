// The calls: state and ring as lent stores, a message to send, a result.
ghost use Rattle.std.specs.Prelude.{◌≡◌, length, None, Some};
ghost use Rattle.sound_core.specs.State.{asked_params};
ghost use Rattle.sound_core.specs.declared.state.Kind.TheVariants.{Prepare, Release, Start, Stop};
ghost use Rattle.sound_core.specs.declared.state.Field.TheVariants.{Rates, Formats, Channels, Features};
ghost use Rattle.sound_core.specs.declared.state.Call.TheVariants as calls;
ghost use Rattle.state_store.specs.Calls.{left, feed_in, fail_in};
ghost use Rattle.console.specs.Entries.{call_entry};

use codes::direction;
use codes::words::BAD_LENGTH;
use sound_core::{Call, Field, Kind, Params};

fn call(state: &mut [u8], ring: &[u8], asked: Call, message: &mut [u8], res: &mut [u8]) -> u64
    ensures { left result state.new message.new res.new ≡ call_entry state.old ring.now asked message.old res.old }
{
    if ring.len() < ring_store::SIZE {
        return BAD_LENGTH;
    }
    let t = ring_store::track(ring);
    state_store::call(state, t, asked, message, res)
}

#[unsafe(no_mangle)]
pub extern "C" fn snd_jack_remap(
    state: &mut [u8],
    ring: &[u8],
    jack: u32,
    association: u32,
    sequence: u32,
    message: &mut [u8],
    res: &mut [u8],
) -> u64
    ensures { left result state.new message.new res.new ≡ call_entry state.old ring.now (calls.Remap jack association sequence) message.old res.old }
{
    let asked = Call::Remap {
        jack,
        association,
        sequence,
    };
    call(state, ring, asked, message, res)
}

#[unsafe(no_mangle)]
pub extern "C" fn snd_pcm_set_params(
    state: &mut [u8],
    ring: &[u8],
    stream: u32,
    buffer: u32,
    period: u32,
    features: u32,
    channels: u8,
    format: u8,
    rate: u8,
    message: &mut [u8],
    res: &mut [u8],
) -> u64
    ensures { left result state.new message.new res.new ≡ call_entry state.old ring.now (calls.SetParams stream (asked_params buffer period features channels format rate)) message.old res.old }
{
    let to = Params {
        known: 0,
        buffer,
        period,
        features,
        channels,
        format,
        rate,
    };
    let asked = Call::SetParams { stream, to };
    call(state, ring, asked, message, res)
}

#[unsafe(no_mangle)]
pub extern "C" fn snd_pcm_prepare(
    state: &mut [u8],
    ring: &[u8],
    stream: u32,
    message: &mut [u8],
    res: &mut [u8],
) -> u64
    ensures { left result state.new message.new res.new ≡ call_entry state.old ring.now (calls.Command Prepare stream) message.old res.old }
{
    let kind = Kind::Prepare;
    let asked = Call::Command { kind, stream };
    call(state, ring, asked, message, res)
}

#[unsafe(no_mangle)]
pub extern "C" fn snd_pcm_release(
    state: &mut [u8],
    ring: &[u8],
    stream: u32,
    message: &mut [u8],
    res: &mut [u8],
) -> u64
    ensures { left result state.new message.new res.new ≡ call_entry state.old ring.now (calls.Command Release stream) message.old res.old }
{
    let kind = Kind::Release;
    let asked = Call::Command { kind, stream };
    call(state, ring, asked, message, res)
}

#[unsafe(no_mangle)]
pub extern "C" fn snd_pcm_start(
    state: &mut [u8],
    ring: &[u8],
    stream: u32,
    message: &mut [u8],
    res: &mut [u8],
) -> u64
    ensures { left result state.new message.new res.new ≡ call_entry state.old ring.now (calls.Command Start stream) message.old res.old }
{
    let kind = Kind::Start;
    let asked = Call::Command { kind, stream };
    call(state, ring, asked, message, res)
}

#[unsafe(no_mangle)]
pub extern "C" fn snd_pcm_stop(
    state: &mut [u8],
    ring: &[u8],
    stream: u32,
    message: &mut [u8],
    res: &mut [u8],
) -> u64
    ensures { left result state.new message.new res.new ≡ call_entry state.old ring.now (calls.Command Stop stream) message.old res.old }
{
    let kind = Kind::Stop;
    let asked = Call::Command { kind, stream };
    call(state, ring, asked, message, res)
}

#[unsafe(no_mangle)]
pub extern "C" fn snd_output_streams(
    state: &mut [u8],
    ring: &[u8],
    message: &mut [u8],
    res: &mut [u8],
) -> u64
    ensures { left result state.new message.new res.new ≡ call_entry state.old ring.now (calls.Streams 0) message.old res.old }
{
    let direction = direction::OUTPUT;
    let asked = Call::Streams { direction };
    call(state, ring, asked, message, res)
}

#[unsafe(no_mangle)]
pub extern "C" fn snd_input_streams(
    state: &mut [u8],
    ring: &[u8],
    message: &mut [u8],
    res: &mut [u8],
) -> u64
    ensures { left result state.new message.new res.new ≡ call_entry state.old ring.now (calls.Streams 1) message.old res.old }
{
    let direction = direction::INPUT;
    let asked = Call::Streams { direction };
    call(state, ring, asked, message, res)
}

#[unsafe(no_mangle)]
pub extern "C" fn snd_rates_supported(
    state: &mut [u8],
    ring: &[u8],
    stream: u32,
    message: &mut [u8],
    res: &mut [u8],
) -> u64
    ensures { left result state.new message.new res.new ≡ call_entry state.old ring.now (calls.Supported Rates stream) message.old res.old }
{
    let field = Field::Rates;
    let asked = Call::Supported { field, stream };
    call(state, ring, asked, message, res)
}

#[unsafe(no_mangle)]
pub extern "C" fn snd_formats_supported(
    state: &mut [u8],
    ring: &[u8],
    stream: u32,
    message: &mut [u8],
    res: &mut [u8],
) -> u64
    ensures { left result state.new message.new res.new ≡ call_entry state.old ring.now (calls.Supported Formats stream) message.old res.old }
{
    let field = Field::Formats;
    let asked = Call::Supported { field, stream };
    call(state, ring, asked, message, res)
}

#[unsafe(no_mangle)]
pub extern "C" fn snd_channel_range_supported(
    state: &mut [u8],
    ring: &[u8],
    stream: u32,
    message: &mut [u8],
    res: &mut [u8],
) -> u64
    ensures { left result state.new message.new res.new ≡ call_entry state.old ring.now (calls.Supported Channels stream) message.old res.old }
{
    let field = Field::Channels;
    let asked = Call::Supported { field, stream };
    call(state, ring, asked, message, res)
}

#[unsafe(no_mangle)]
pub extern "C" fn snd_features_supported(
    state: &mut [u8],
    ring: &[u8],
    stream: u32,
    message: &mut [u8],
    res: &mut [u8],
) -> u64
    ensures { left result state.new message.new res.new ≡ call_entry state.old ring.now (calls.Supported Features stream) message.old res.old }
{
    let field = Field::Features;
    let asked = Call::Supported { field, stream };
    call(state, ring, asked, message, res)
}

// The answer page to the request that is out.
#[unsafe(no_mangle)]
pub extern "C" fn snd_feed(state: &mut [u8], page: &[u8], message: &mut [u8], res: &mut [u8]) -> u64
    ensures { left result state.new message.new res.new ≡ feed_in None state.old page.now message.old res.old }
{
    state_store::feed(state, page, message, res)
}

// The same with the length that the device wrote.
#[unsafe(no_mangle)]
pub extern "C" fn snd_feed_written(
    state: &mut [u8],
    page: &[u8],
    written: u64,
    message: &mut [u8],
    res: &mut [u8],
) -> u64
    ensures { left result state.new message.new res.new ≡ feed_in (Some written) state.old page.now message.old res.old }
{
    state_store::feed_written(state, page, written, message, res)
}

// The queue reports that the request that is out has failed.
#[unsafe(no_mangle)]
pub extern "C" fn snd_feed_failure(state: &mut [u8], message: &mut [u8], res: &mut [u8]) -> u64
    ensures { left result state.new message.new res.new ≡ fail_in state.old message.old res.old }
{
    state_store::feed_failure(state, message, res)
}
