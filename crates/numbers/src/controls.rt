// What VirtIO 1.3 adds for control elements (5.14.3, 5.14.4, 5.14.6). The system's header may be
// that of 1.2 and have none of it: tests/header.sh leaves out what is printed from here on.
use crate::show;
use codes::{DeviceFeatures, NotificationType};
use records::{Config, Event, Notice, latest_notification_in};
use std::io;

fn config_fields(rt: &impl Print) -> io::Result<()> {
    show::size(rt, "config", Config::SIZE_CTLS)?;
    let mut b = [0u8; 16];
    let r = Config {
        jacks: 0,
        streams: 0,
        chmaps: 0,
        controls: 0xFFFF_FFFF,
    };
    let _ = r.write(true, &mut b);
    show::field(rt, "config", "controls", &b)
}

// Two bytes that were read, each of which holds its own place.
fn places(rt: &impl Print, name: &str, value: u16) -> io::Result<()> {
    let mut b = [0u8; 32];
    layout::put_u8(&mut b, (value % 256) as usize, 0xFF);
    layout::put_u8(&mut b, (value / 256) as usize, 0xFF);
    show::field(rt, "ctl_event", name, &b)
}

fn event_fields(rt: &impl Print) -> io::Result<()> {
    show::size(rt, "ctl_event", Event::SIZE)?;
    let b = [0x00u8, 0x12, 0, 0, 4, 5, 6, 7];
    let Ok(Some(Notice::Control(id, mask))) = latest_notification_in(&b, true) else {
        return Ok(());
    };
    places(rt, "control_id", id)?;
    places(rt, "mask", mask)
}

pub(crate) fn all(rt: &impl Print) -> io::Result<()> {
    rt.write_all(b"VirtIO 1.3\n")?;
    config_fields(rt)?;
    event_fields(rt)?;
    show::number(
        rt,
        b"EVT_CTL_NOTIFY",
        NotificationType::CtlNotify.code() as u64,
    )?;
    show::mask(rt, b"F_CTLS", DeviceFeatures::CTLS)
}
