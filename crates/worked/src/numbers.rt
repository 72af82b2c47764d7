// The worked numbers of document 01, each under the paper's own words.
use crate::host::Host;
use crate::{calls, device, host, show, transfer};
use codes::{Refusal, StatusCode};
use exchange::Sound;
use records::{Event, Notice};
use std::io;
use tables::PAGE;
use turns::Ring;

// A driver that is set up against the small device.
pub(crate) fn ready() -> Host {
    let h = host::new(Sound::new(2, 2, 1), device::small());
    host::settle(calls::output_streams(h))
}

// The same, with parameters set for stream 0.
pub(crate) fn ready_with(buffer: u32, period: u32) -> Host {
    host::settle(calls::set_params(ready(), 0, buffer, period))
}

fn parameters(rt: &impl Print, h: Host) -> io::Result<()> {
    host::said(
        rt,
        b"P: buffer 8, period 8 is sent\n",
        calls::set_params(h, 0, 8, 8),
    )?;
    host::said(
        rt,
        b"P: buffer 8, period 3 gives 1\n",
        calls::set_params(h, 0, 8, 3),
    )?;
    host::said(rt, b"P: period 0 gives 1\n", calls::set_params(h, 0, 8, 0))
}

fn requests(rt: &impl Print) -> io::Result<()> {
    let h = ready();
    host::said(
        rt,
        b"P: set parameters, stream 1, buffer 8192, period 2048, features 0, 2 channels, S16, 48000\n",
        calls::set_params(h, 1, 8192, 2048),
    )?;
    let three = host::new(Sound::new(3, 0, 0), device::small());
    host::said(rt, b"P: query of 3 jacks\n", calls::output_streams(three))?;
    parameters(rt, h)
}

// A driver that was told of 127 streams by a device that has them.
fn streams_told() -> Host {
    let h = host::new(Sound::new(0, 127, 0), device::streams(127));
    host::carry(host::carry(calls::output_streams(h)))
}

// A driver that was fed an ok header and zeros to its query of 128 streams: no device of the model
// has so many.
fn streams_fed() -> Host {
    let mut page = [0u8; PAGE];
    layout::put_u32(&mut page, 0, StatusCode::OK);
    let h = host::new(Sound::new(0, 128, 0), device::streams(0));
    let asked = host::carry(calls::output_streams(h));
    host::called(
        asked,
        |message: &mut [u8]| exchange::feed(asked.sound, &page, message),
    )
}

fn pages(rt: &impl Print) -> io::Result<()> {
    show::text(rt, b"P: 127 streams with ok fit (4,068 bytes)\n")?;
    host::answered(rt, streams_told())?;
    host::said(rt, b"P: 128 give 5 (4,100)\n", streams_fed())
}

fn transfers(rt: &impl Print) -> io::Result<()> {
    let h = ready_with(8, 4);
    show::text(rt, b"P: empty frames: Ok on turn 1\n")?;
    transfer::ended(rt, transfer::run_quiet(h, &[], 100))?;
    show::text(
        rt,
        b"P: 10 bytes, period 4: lengths 4, 4, 2; a right completion every turn: Ok on turn 4\n",
    )?;
    show::text(
        rt,
        b"  turn    | offered                      | queue          | driver\n",
    )?;
    transfer::ended(rt, transfer::run(rt, h, &[0; 10], 100, b"012.")?)?;
    show::text(
        rt,
        b"P: 11 periods, all quiet, budget 12: answer 9, 10 in flight\n",
    )?;
    transfer::ended(rt, transfer::run_quiet(h, &[0; 44], 12))?;
    indirect(rt, h)
}

// No number of document 01, but of the request for indirect descriptors: the ring is full.
fn indirect(rt: &impl Print, h: Host) -> io::Result<()> {
    let ring = Ring::new_indirect();
    show::text(
        rt,
        b"Indirect descriptors, 33 periods, all quiet, budget 34: answer 9, 32 in flight\n",
    )?;
    transfer::ended(rt, transfer::run_quiet(Host { ring, ..h }, &[0; 132], 34))
}

fn notice(rt: &impl Print, said: Result<Option<Notice>, Refusal>) -> io::Result<()> {
    show::text(rt, b"  says ")?;
    match said {
        Ok(Some(Notice::Event(_, data))) => show::decimal(rt, data as u64)?,
        Ok(Some(Notice::Control(control, _))) => show::decimal(rt, control as u64)?,
        Ok(None) => show::text(rt, b"nothing")?,
        Err(refusal) => show::refusal(rt, refusal)?,
    }
    show::text(rt, b"\n")
}

fn events(rt: &impl Print) -> io::Result<()> {
    let mut bytes = [0u8; Event::SIZE];
    let event = Event {
        code: 0x1002,
        data: 0,
    };
    let _ = event.write(&mut bytes);
    show::text(rt, b"Event code 0x1002 gives 2\n")?;
    notice(rt, records::latest_notification(&bytes))?;
    show::text(rt, b"7 bytes give \"nothing\"\n")?;
    notice(rt, records::latest_notification(&[0; 7]))
}

pub(crate) fn all(rt: &impl Print) -> io::Result<()> {
    show::text(rt, b"WORKED NUMBERS OF DOCUMENT 01\n")?;
    requests(rt)?;
    pages(rt)?;
    transfers(rt)?;
    events(rt)
}
