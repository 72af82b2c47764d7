// The devices that the driver is run against.
use codes::{JackFeatures, direction};
use model::{Counts, Device};
use records::{ChannelMap, JackInfo, PcmInfo};

// Tables of empty records.
fn no_jacks() -> [JackInfo; 170] {
    let blank = JackInfo {
        node: 0,
        features: 0,
        defconf: 0,
        caps: 0,
        connected: 0,
        padding: 0,
        padding4: 0,
        padding6: 0,
    };
    [blank; 170]
}

fn no_streams() -> [PcmInfo; 127] {
    let blank = PcmInfo {
        node: 0,
        features: 0,
        formats: 0,
        rates: 0,
        direction: 0,
        min: 0,
        max: 0,
        padding: 0,
        padding4: 0,
    };
    [blank; 127]
}

fn no_maps() -> [ChannelMap; 170] {
    let blank = ChannelMap {
        node: 0,
        direction: 0,
        channels: 0,
        positions: 0,
        positions8: 0,
        positions16: 0,
    };
    [blank; 170]
}

// A jack with some features.
fn jack(features: u32) -> JackInfo {
    JackInfo {
        node: 0,
        features,
        defconf: 0,
        caps: 0,
        connected: 1,
        padding: 0,
        padding4: 0,
        padding6: 0,
    }
}

// A stream of a direction. Bit 63 of its formats is not in the standard.
fn stream(direction: u8, max: u8) -> PcmInfo {
    PcmInfo {
        node: 0,
        features: 0x10,
        formats: 0x8000_0000_0000_0020,
        rates: 0xC0,
        direction,
        min: 1,
        max,
        padding: 0,
        padding4: 0,
    }
}

// Two jacks, of which the second has REMAP; an output and an input stream; one channel map.
pub(crate) fn small() -> Device {
    let mut jacks = no_jacks();
    jacks[0] = jack(0);
    jacks[1] = jack(JackFeatures::REMAP);
    let mut pcms = no_streams();
    pcms[0] = stream(direction::OUTPUT, 2);
    pcms[1] = stream(direction::INPUT, 1);
    let counts = Counts {
        jacks: 2,
        streams: 2,
        maps: 1,
    };
    Device::new(counts, jacks, pcms, no_maps())
}

// So many streams, and nothing else.
pub(crate) fn streams(count: u32) -> Device {
    let counts = Counts {
        jacks: 0,
        streams: count,
        maps: 0,
    };
    Device::new(counts, no_jacks(), no_streams(), no_maps())
}
