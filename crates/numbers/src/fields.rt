// The size of each record, and the place and width of each field: each is shown by writing a record
// with that one field all ones.
ghost use Rattle.std.specs.Prelude.{◌≤◌};

use crate::show;
use records::{
    ChannelMap, Config, Event, JackInfo, PcmCommand, PcmInfo, Query, Remap, SetParameters,
    Transfer, TransferStatus,
};
use std::io;

const ALL: u32 = 0xFFFF_FFFF;

const LONG: u64 = 0xFFFF_FFFF_FFFF_FFFF;

// The size of a record, and each of its fields: beside its name stands the record to write.
fn fields<R: Copy, F: Fn(R, &mut [u8])>(
    rt: &impl Print,
    record: &str,
    size: usize,
    cases: &[(&str, R)],
    write: F,
) -> io::Result<()>
    requires { (size ≤ 32) × (F.IsAlwaysCallable write) }
{
    show::size(rt, record, size)?;
    for (name, r) in cases {
        let mut bytes = [0u8; 32];
        write(*r, &mut bytes[..size]);
        show::field(rt, record, name, &bytes[..size])?;
    }
    Ok(())
}

fn query_fields(rt: &impl Print) -> io::Result<()> {
    let z = Query {
        code: 0,
        start: 0,
        count: 0,
        size: 0,
    };
    let cases = [
        ("hdr.code", Query { code: ALL, ..z }),
        ("start_id", Query { start: ALL, ..z }),
        ("count", Query { count: ALL, ..z }),
        ("size", Query { size: ALL, ..z }),
    ];
    fields(
        rt,
        "query_info",
        Query::SIZE,
        &cases,
        |r: Query, out: &mut [u8]| {
            let _ = r.write(out);
        },
    )
}

fn remap_fields(rt: &impl Print) -> io::Result<()> {
    let z = Remap {
        code: 0,
        jack: 0,
        association: 0,
        sequence: 0,
    };
    let cases = [
        ("hdr.hdr.code", Remap { code: ALL, ..z }),
        ("hdr.jack_id", Remap { jack: ALL, ..z }),
        (
            "association",
            Remap {
                association: ALL,
                ..z
            },
        ),
        ("sequence", Remap { sequence: ALL, ..z }),
    ];
    fields(
        rt,
        "jack_remap",
        Remap::SIZE,
        &cases,
        |r: Remap, out: &mut [u8]| {
            let _ = r.write(out);
        },
    )
}

fn command_fields(rt: &impl Print) -> io::Result<()> {
    let z = PcmCommand { code: 0, stream: 0 };
    let cases = [
        ("hdr.code", PcmCommand { code: ALL, ..z }),
        ("stream_id", PcmCommand { stream: ALL, ..z }),
    ];
    fields(
        rt,
        "pcm_hdr",
        PcmCommand::SIZE,
        &cases,
        |r: PcmCommand, out: &mut [u8]| {
            let _ = r.write(out);
        },
    )
}

fn parameters_fields(rt: &impl Print) -> io::Result<()> {
    let z = SetParameters {
        code: 0,
        stream: 0,
        buffer: 0,
        period: 0,
        features: 0,
        channels: 0,
        format: 0,
        rate: 0,
        zero: 0,
    };
    let cases = [
        ("hdr.hdr.code", SetParameters { code: ALL, ..z }),
        ("hdr.stream_id", SetParameters { stream: ALL, ..z }),
        ("buffer_bytes", SetParameters { buffer: ALL, ..z }),
        ("period_bytes", SetParameters { period: ALL, ..z }),
        ("features", SetParameters { features: ALL, ..z }),
        (
            "channels",
            SetParameters {
                channels: 0xFF,
                ..z
            },
        ),
        ("format", SetParameters { format: 0xFF, ..z }),
        ("rate", SetParameters { rate: 0xFF, ..z }),
        ("padding", SetParameters { zero: 0xFF, ..z }),
    ];
    fields(
        rt,
        "pcm_set_params",
        SetParameters::SIZE,
        &cases,
        |r: SetParameters, out: &mut [u8]| {
            let _ = r.write(out);
        },
    )
}

pub(crate) fn control(rt: &impl Print) -> io::Result<()> {
    query_fields(rt)?;
    remap_fields(rt)?;
    command_fields(rt)?;
    parameters_fields(rt)
}

fn jack_fields(rt: &impl Print) -> io::Result<()> {
    let z = JackInfo {
        node: 0,
        features: 0,
        defconf: 0,
        caps: 0,
        connected: 0,
        padding: 0,
        padding4: 0,
        padding6: 0,
    };
    let cases = [
        ("hdr.hda_fn_nid", JackInfo { node: ALL, ..z }),
        ("features", JackInfo { features: ALL, ..z }),
        ("hda_reg_defconf", JackInfo { defconf: ALL, ..z }),
        ("hda_reg_caps", JackInfo { caps: ALL, ..z }),
        (
            "connected",
            JackInfo {
                connected: 0xFF,
                ..z
            },
        ),
        (
            "padding",
            JackInfo {
                padding: ALL,
                padding4: 0xFFFF,
                padding6: 0xFF,
                ..z
            },
        ),
    ];
    fields(
        rt,
        "jack_info",
        JackInfo::SIZE,
        &cases,
        |r: JackInfo, out: &mut [u8]| {
            let _ = r.write(out);
        },
    )
}

fn pcm_fields(rt: &impl Print) -> io::Result<()> {
    let z = PcmInfo {
        node: 0,
        features: 0,
        formats: 0,
        rates: 0,
        direction: 0,
        min: 0,
        max: 0,
        padding: 0,
        padding4: 0,
    };
    let cases = [
        ("hdr.hda_fn_nid", PcmInfo { node: ALL, ..z }),
        ("features", PcmInfo { features: ALL, ..z }),
        ("formats", PcmInfo { formats: LONG, ..z }),
        ("rates", PcmInfo { rates: LONG, ..z }),
        (
            "direction",
            PcmInfo {
                direction: 0xFF,
                ..z
            },
        ),
        ("channels_min", PcmInfo { min: 0xFF, ..z }),
        ("channels_max", PcmInfo { max: 0xFF, ..z }),
        (
            "padding",
            PcmInfo {
                padding: ALL,
                padding4: 0xFF,
                ..z
            },
        ),
    ];
    fields(
        rt,
        "pcm_info",
        PcmInfo::SIZE,
        &cases,
        |r: PcmInfo, out: &mut [u8]| {
            let _ = r.write(out);
        },
    )
}

fn map_fields(rt: &impl Print) -> io::Result<()> {
    let z = ChannelMap {
        node: 0,
        direction: 0,
        channels: 0,
        positions: 0,
        positions8: 0,
        positions16: 0,
    };
    let cases = [
        ("hdr.hda_fn_nid", ChannelMap { node: ALL, ..z }),
        (
            "direction",
            ChannelMap {
                direction: 0xFF,
                ..z
            },
        ),
        (
            "channels",
            ChannelMap {
                channels: 0xFF,
                ..z
            },
        ),
        (
            "positions",
            ChannelMap {
                positions: LONG,
                positions8: LONG,
                positions16: 0xFFFF,
                ..z
            },
        ),
    ];
    fields(
        rt,
        "chmap_info",
        ChannelMap::SIZE,
        &cases,
        |r: ChannelMap, out: &mut [u8]| {
            let _ = r.write(out);
        },
    )
}

pub(crate) fn info(rt: &impl Print) -> io::Result<()> {
    jack_fields(rt)?;
    pcm_fields(rt)?;
    map_fields(rt)
}

fn header_fields(rt: &impl Print) -> io::Result<()> {
    let cases = [("stream_id", Transfer { stream: ALL })];
    fields(
        rt,
        "pcm_xfer",
        Transfer::SIZE,
        &cases,
        |r: Transfer, out: &mut [u8]| {
            let _ = r.write(out);
        },
    )
}

fn status_fields(rt: &impl Print) -> io::Result<()> {
    let z = TransferStatus {
        status: 0,
        latency: 0,
    };
    let cases = [
        ("status", TransferStatus { status: ALL, ..z }),
        ("latency_bytes", TransferStatus { latency: ALL, ..z }),
    ];
    fields(
        rt,
        "pcm_status",
        TransferStatus::SIZE,
        &cases,
        |r: TransferStatus, out: &mut [u8]| {
            let _ = r.write(out);
        },
    )
}

fn event_fields(rt: &impl Print) -> io::Result<()> {
    let z = Event { code: 0, data: 0 };
    let cases = [
        ("hdr.code", Event { code: ALL, ..z }),
        ("data", Event { data: ALL, ..z }),
    ];
    fields(
        rt,
        "event",
        Event::SIZE,
        &cases,
        |r: Event, out: &mut [u8]| {
            let _ = r.write(out);
        },
    )
}

fn config_fields(rt: &impl Print) -> io::Result<()> {
    let z = Config {
        jacks: 0,
        streams: 0,
        chmaps: 0,
        controls: 0,
    };
    let cases = [
        ("jacks", Config { jacks: ALL, ..z }),
        ("streams", Config { streams: ALL, ..z }),
        ("chmaps", Config { chmaps: ALL, ..z }),
    ];
    fields(
        rt,
        "config",
        Config::SIZE,
        &cases,
        |r: Config, out: &mut [u8]| {
            let _ = r.write(false, out);
        },
    )
}

pub(crate) fn transfer(rt: &impl Print) -> io::Result<()> {
    header_fields(rt)?;
    status_fields(rt)?;
    event_fields(rt)?;
    config_fields(rt)
}
