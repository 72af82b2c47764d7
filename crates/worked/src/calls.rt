// The driver's calls, each to what it says first.
use crate::host;
use crate::host::Host;

pub(crate) fn output_streams(h: Host) -> Host {
    host::called(
        h,
        |message: &mut [u8]| exchange::output_streams(h.sound, h.ring, message),
    )
}

// Two channels, S16, 48000.
pub(crate) fn set_params(h: Host, stream: u32, buffer: u32, period: u32) -> Host {
    host::called(
        h,
        |message: &mut [u8]| exchange::pcm_set_params(
            h.sound, h.ring, stream, buffer, period, 0, 2, 5, 7, message,
        ),
    )
}

pub(crate) fn input_streams(h: Host) -> Host {
    host::called(
        h,
        |message: &mut [u8]| exchange::input_streams(h.sound, h.ring, message),
    )
}

pub(crate) fn rates(h: Host, stream: u32) -> Host {
    host::called(
        h,
        |message: &mut [u8]| exchange::rates_supported(h.sound, h.ring, stream, message),
    )
}

pub(crate) fn formats(h: Host, stream: u32) -> Host {
    host::called(
        h,
        |message: &mut [u8]| exchange::formats_supported(h.sound, h.ring, stream, message),
    )
}

pub(crate) fn channel_range(h: Host, stream: u32) -> Host {
    host::called(
        h,
        |message: &mut [u8]| exchange::channel_range_supported(h.sound, h.ring, stream, message),
    )
}

pub(crate) fn features(h: Host, stream: u32) -> Host {
    host::called(
        h,
        |message: &mut [u8]| exchange::features_supported(h.sound, h.ring, stream, message),
    )
}

pub(crate) fn prepare(h: Host, stream: u32) -> Host {
    host::called(
        h,
        |message: &mut [u8]| exchange::pcm_prepare(h.sound, h.ring, stream, message),
    )
}

pub(crate) fn start(h: Host, stream: u32) -> Host {
    host::called(
        h,
        |message: &mut [u8]| exchange::pcm_start(h.sound, h.ring, stream, message),
    )
}

pub(crate) fn stop(h: Host, stream: u32) -> Host {
    host::called(
        h,
        |message: &mut [u8]| exchange::pcm_stop(h.sound, h.ring, stream, message),
    )
}

pub(crate) fn release(h: Host, stream: u32) -> Host {
    host::called(
        h,
        |message: &mut [u8]| exchange::pcm_release(h.sound, h.ring, stream, message),
    )
}

pub(crate) fn remap(h: Host, jack: u32, association: u32, sequence: u32) -> Host {
    host::called(
        h,
        |message: &mut [u8]| exchange::jack_remap(
            h.sound,
            h.ring,
            jack,
            association,
            sequence,
            message,
        ),
    )
}
