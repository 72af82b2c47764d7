// Set-up against the small device, and what the driver then tells of a stream.
use crate::host::Host;
use crate::{calls, device, host, show};
use exchange::Sound;
use std::io;

fn told_of_0(rt: &impl Print, h: Host) -> io::Result<()> {
    host::said(rt, b"rates of stream 0\n", calls::rates(h, 0))?;
    host::said(
        rt,
        b"formats of stream 0, with bit 63, which is unknown\n",
        calls::formats(h, 0),
    )?;
    host::said(rt, b"channels of stream 0\n", calls::channel_range(h, 0))?;
    host::said(rt, b"features of stream 0\n", calls::features(h, 0))
}

pub(crate) fn done(rt: &impl Print) -> io::Result<()> {
    show::text(
        rt,
        b"\nSET-UP: 2 jacks, 2 streams (0 output, 1 input), 1 channel map\n",
    )?;
    let new = host::new(Sound::new(2, 2, 1), device::small());
    let h = host::finish(rt, b"output streams\n", calls::output_streams(new))?;
    host::said(rt, b"input streams\n", calls::input_streams(h))?;
    told_of_0(rt, h)?;
    host::said(
        rt,
        b"rates of stream 2, which is too high\n",
        calls::rates(h, 2),
    )
}

// The queue fails the query that is out.
fn failed(h: Host) -> Host {
    host::called(
        h,
        |message: &mut [u8]| exchange::feed_failure(h.sound, message),
    )
}

fn short_page(h: Host) -> Host {
    let page = [0u8; 4095];
    host::called(
        h,
        |message: &mut [u8]| exchange::feed(h.sound, &page, message),
    )
}

fn jacks_failed(rt: &impl Print, h: Host) -> io::Result<()> {
    host::said(
        rt,
        b"the queue fails on jacks: their table is empty, and streams are asked for\n",
        h,
    )?;
    host::said(
        rt,
        b"then remap of jack 1\n",
        calls::remap(host::settle(h), 1, 5, 6),
    )
}

pub(crate) fn wrong(rt: &impl Print) -> io::Result<()> {
    show::text(rt, b"\nSET-UP THAT GOES WRONG\n")?;
    let new = host::new(Sound::new(2, 2, 1), device::small());
    let asked = calls::output_streams(new);
    host::said(rt, b"a page of 4,095 bytes\n", short_page(asked))?;
    jacks_failed(rt, failed(asked))?;
    host::said(
        rt,
        b"the queue fails on streams\n",
        failed(host::carry(asked)),
    )
}
