// Records of the three tables: what a device answers to a query. CODE is the query's code.
//
// A padding and the channel positions are kept as several machine numbers that fill their bytes
// exactly, and not as arrays: all ten records are then a list of widths, and no law needs a length.
// `padding4` begins at byte 4 of the padding, and so the others.
ghost use Rattle.std.specs.Prelude.{◌≡◌, get_or};
ghost use Rattle.records.specs.Slice.{read_says, write_says, written, says_written};
ghost use Rattle.records.specs.Records.{jack_info, jack_info_values, says_jack_info, pcm_info, pcm_info_values, says_pcm_info, channel_map, channel_map_values, says_channel_map};
ghost use Rattle.layout.specs.Bytes.{le};
ghost use Rattle.records.specs.Positions.{says_position, position_says};

use codes::Refusal;

// VirtIOSndJackInfo: a jack. 7 bytes of padding.
#[derive(Clone, Copy)]
pub struct JackInfo {
    pub node: u32,
    pub features: u32,
    pub defconf: u32,
    pub caps: u32,
    pub connected: u8,
    pub padding: u32,
    pub padding4: u16,
    pub padding6: u8,
}

impl JackInfo {
    pub const SIZE: usize = 24;

    pub const CODE: u32 = 0x0001;

    // Writes the record at the front of a slice.
    pub fn write(self, out: &mut [u8]) -> Result<(), Refusal>
        ensures { (says_written result ≡ write_says jack_info out.old) × (out.new ≡ written jack_info (jack_info_values self) out.old) }
    {
        if out.len() < JackInfo::SIZE {
            return Err(Refusal::BadLength);
        }
        layout::put_u32(out, 0, self.node);
        layout::put_u32(out, 4, self.features);
        layout::put_u32(out, 8, self.defconf);
        layout::put_u32(out, 12, self.caps);
        layout::put_u8(out, 16, self.connected);
        layout::put_u32(out, 17, self.padding);
        layout::put_u16(out, 21, self.padding4);
        layout::put_u8(out, 23, self.padding6);
        Ok(())
    }

    // The record at the front of a slice.
    pub fn read(s: &[u8]) -> Result<JackInfo, Refusal>
        ensures { says_jack_info result ≡ read_says jack_info s.now }
    {
        if s.len() < JackInfo::SIZE {
            return Err(Refusal::BadLength);
        }
        Ok(JackInfo {
            node: layout::get_u32(s, 0),
            features: layout::get_u32(s, 4),
            defconf: layout::get_u32(s, 8),
            caps: layout::get_u32(s, 12),
            connected: layout::get_u8(s, 16),
            padding: layout::get_u32(s, 17),
            padding4: layout::get_u16(s, 21),
            padding6: layout::get_u8(s, 23),
        })
    }
}

// VirtIOSndPcmInfo: a stream, with its channels from `min` to `max`. 5 bytes of padding.
#[derive(Clone, Copy)]
pub struct PcmInfo {
    pub node: u32,
    pub features: u32,
    pub formats: u64,
    pub rates: u64,
    pub direction: u8,
    pub min: u8,
    pub max: u8,
    pub padding: u32,
    pub padding4: u8,
}

impl PcmInfo {
    pub const SIZE: usize = 32;

    pub const CODE: u32 = 0x0100;

    // Writes the record at the front of a slice.
    pub fn write(self, out: &mut [u8]) -> Result<(), Refusal>
        ensures { (says_written result ≡ write_says pcm_info out.old) × (out.new ≡ written pcm_info (pcm_info_values self) out.old) }
    {
        if out.len() < PcmInfo::SIZE {
            return Err(Refusal::BadLength);
        }
        layout::put_u32(out, 0, self.node);
        layout::put_u32(out, 4, self.features);
        layout::put_u64(out, 8, self.formats);
        layout::put_u64(out, 16, self.rates);
        layout::put_u8(out, 24, self.direction);
        layout::put_u8(out, 25, self.min);
        layout::put_u8(out, 26, self.max);
        layout::put_u32(out, 27, self.padding);
        layout::put_u8(out, 31, self.padding4);
        Ok(())
    }

    // The record at the front of a slice.
    pub fn read(s: &[u8]) -> Result<PcmInfo, Refusal>
        ensures { says_pcm_info result ≡ read_says pcm_info s.now }
    {
        if s.len() < PcmInfo::SIZE {
            return Err(Refusal::BadLength);
        }
        Ok(PcmInfo {
            node: layout::get_u32(s, 0),
            features: layout::get_u32(s, 4),
            formats: layout::get_u64(s, 8),
            rates: layout::get_u64(s, 16),
            direction: layout::get_u8(s, 24),
            min: layout::get_u8(s, 25),
            max: layout::get_u8(s, 26),
            padding: layout::get_u32(s, 27),
            padding4: layout::get_u8(s, 31),
        })
    }
}

// 256 to the power of the place.
const PLACE: [u64; 8] = [
    1,
    256,
    65536,
    16777216,
    4294967296,
    1099511627776,
    281474976710656,
    72057594037927936,
];

// Byte `i` of a number, the least first; past its eight bytes there is 0.
fn byte_of(v: u64, i: usize) -> u8
    ensures { result ≡ get_or (le 8 v) i 0 }
{
    if 8 <= i {
        return 0;
    }
    (v / PLACE[i] % 256) as u8
}

// VirtIOSndChmapInfo: a channel map. 18 positions of one byte.
#[derive(Clone, Copy)]
pub struct ChannelMap {
    pub node: u32,
    pub direction: u8,
    pub channels: u8,
    pub positions: u64,
    pub positions8: u64,
    pub positions16: u16,
}

impl ChannelMap {
    pub const SIZE: usize = 24;

    pub const CODE: u32 = 0x0200;

    pub const POSITIONS: usize = 18;

    // Writes the record at the front of a slice.
    pub fn write(self, out: &mut [u8]) -> Result<(), Refusal>
        ensures { (says_written result ≡ write_says channel_map out.old) × (out.new ≡ written channel_map (channel_map_values self) out.old) }
    {
        if out.len() < ChannelMap::SIZE {
            return Err(Refusal::BadLength);
        }
        layout::put_u32(out, 0, self.node);
        layout::put_u8(out, 4, self.direction);
        layout::put_u8(out, 5, self.channels);
        layout::put_u64(out, 6, self.positions);
        layout::put_u64(out, 14, self.positions8);
        layout::put_u16(out, 22, self.positions16);
        Ok(())
    }

    // The record at the front of a slice.
    pub fn read(s: &[u8]) -> Result<ChannelMap, Refusal>
        ensures { says_channel_map result ≡ read_says channel_map s.now }
    {
        if s.len() < ChannelMap::SIZE {
            return Err(Refusal::BadLength);
        }
        Ok(ChannelMap {
            node: layout::get_u32(s, 0),
            direction: layout::get_u8(s, 4),
            channels: layout::get_u8(s, 5),
            positions: layout::get_u64(s, 6),
            positions8: layout::get_u64(s, 14),
            positions16: layout::get_u16(s, 22),
        })
    }

    // Position `i` of the 18: the speaker of channel `i`.
    pub fn position(self, i: usize) -> Result<u8, Refusal>
        ensures { says_position result ≡ position_says self i }
    {
        if i < 8 {
            return Ok(byte_of(self.positions, i));
        }
        if i < 16 {
            return Ok(byte_of(self.positions8, i - 8));
        }
        if i < ChannelMap::POSITIONS {
            return Ok(byte_of(self.positions16 as u64, i - 16));
        }
        Err(Refusal::InvalidParam)
    }
}
