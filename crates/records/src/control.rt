// Records of the control queue: the requests. Each field is written out at its place, as in the
// standard, since a record is nothing but its places.
ghost use Rattle.std.specs.Prelude.{◌≡◌};
ghost use Rattle.records.specs.Slice.{read_says, write_says, written, says_written};
ghost use Rattle.records.specs.Records.{query, query_values, says_query, remap, remap_values, says_remap, pcm_command, pcm_command_values, says_pcm_command, set_parameters, set_parameters_values, says_set_parameters};

use codes::Refusal;

// VirtIOSndQueryInfo: asks for `count` records of `size` bytes, from number `start` on.
#[derive(Clone, Copy)]
pub struct Query {
    pub code: u32,
    pub start: u32,
    pub count: u32,
    pub size: u32,
}

impl Query {
    pub const SIZE: usize = 16;

    // Writes the record at the front of a slice.
    pub fn write(self, out: &mut [u8]) -> Result<(), Refusal>
        ensures { (says_written result ≡ write_says query out.old) × (out.new ≡ written query (query_values self) out.old) }
    {
        if out.len() < Query::SIZE {
            return Err(Refusal::BadLength);
        }
        layout::put_u32(out, 0, self.code);
        layout::put_u32(out, 4, self.start);
        layout::put_u32(out, 8, self.count);
        layout::put_u32(out, 12, self.size);
        Ok(())
    }

    // The record at the front of a slice.
    pub fn read(s: &[u8]) -> Result<Query, Refusal>
        ensures { says_query result ≡ read_says query s.now }
    {
        if s.len() < Query::SIZE {
            return Err(Refusal::BadLength);
        }
        Ok(Query {
            code: layout::get_u32(s, 0),
            start: layout::get_u32(s, 4),
            count: layout::get_u32(s, 8),
            size: layout::get_u32(s, 12),
        })
    }
}

// VirtIOSndJackRemap: asks for a jack's new association and sequence.
#[derive(Clone, Copy)]
pub struct Remap {
    pub code: u32,
    pub jack: u32,
    pub association: u32,
    pub sequence: u32,
}

impl Remap {
    pub const SIZE: usize = 16;

    pub const CODE: u32 = 0x0002;

    // Writes the record at the front of a slice.
    pub fn write(self, out: &mut [u8]) -> Result<(), Refusal>
        ensures { (says_written result ≡ write_says remap out.old) × (out.new ≡ written remap (remap_values self) out.old) }
    {
        if out.len() < Remap::SIZE {
            return Err(Refusal::BadLength);
        }
        layout::put_u32(out, 0, self.code);
        layout::put_u32(out, 4, self.jack);
        layout::put_u32(out, 8, self.association);
        layout::put_u32(out, 12, self.sequence);
        Ok(())
    }

    // The record at the front of a slice.
    pub fn read(s: &[u8]) -> Result<Remap, Refusal>
        ensures { says_remap result ≡ read_says remap s.now }
    {
        if s.len() < Remap::SIZE {
            return Err(Refusal::BadLength);
        }
        Ok(Remap {
            code: layout::get_u32(s, 0),
            jack: layout::get_u32(s, 4),
            association: layout::get_u32(s, 8),
            sequence: layout::get_u32(s, 12),
        })
    }
}

// VirtIOSndPcmHdr: a command to a stream, the whole of the message.
#[derive(Clone, Copy)]
pub struct PcmCommand {
    pub code: u32,
    pub stream: u32,
}

impl PcmCommand {
    pub const SIZE: usize = 8;

    pub const PREPARE: u32 = 0x0102;

    pub const RELEASE: u32 = 0x0103;

    pub const START: u32 = 0x0104;

    pub const STOP: u32 = 0x0105;

    // Writes the record at the front of a slice.
    pub fn write(self, out: &mut [u8]) -> Result<(), Refusal>
        ensures { (says_written result ≡ write_says pcm_command out.old) × (out.new ≡ written pcm_command (pcm_command_values self) out.old) }
    {
        if out.len() < PcmCommand::SIZE {
            return Err(Refusal::BadLength);
        }
        layout::put_u32(out, 0, self.code);
        layout::put_u32(out, 4, self.stream);
        Ok(())
    }

    // The record at the front of a slice.
    pub fn read(s: &[u8]) -> Result<PcmCommand, Refusal>
        ensures { says_pcm_command result ≡ read_says pcm_command s.now }
    {
        if s.len() < PcmCommand::SIZE {
            return Err(Refusal::BadLength);
        }
        Ok(PcmCommand {
            code: layout::get_u32(s, 0),
            stream: layout::get_u32(s, 4),
        })
    }
}

// VirtIOSndPcmSetParams: the parameters of a stream. The last byte is kept as it stands, like
// padding; calls send 0.
#[derive(Clone, Copy)]
pub struct SetParameters {
    pub code: u32,
    pub stream: u32,
    pub buffer: u32,
    pub period: u32,
    pub features: u32,
    pub channels: u8,
    pub format: u8,
    pub rate: u8,
    pub zero: u8,
}

impl SetParameters {
    pub const SIZE: usize = 24;

    pub const CODE: u32 = 0x0101;

    // Writes the record at the front of a slice.
    pub fn write(self, out: &mut [u8]) -> Result<(), Refusal>
        ensures { (says_written result ≡ write_says set_parameters out.old) × (out.new ≡ written set_parameters (set_parameters_values self) out.old) }
    {
        if out.len() < SetParameters::SIZE {
            return Err(Refusal::BadLength);
        }
        layout::put_u32(out, 0, self.code);
        layout::put_u32(out, 4, self.stream);
        layout::put_u32(out, 8, self.buffer);
        layout::put_u32(out, 12, self.period);
        layout::put_u32(out, 16, self.features);
        layout::put_u8(out, 20, self.channels);
        layout::put_u8(out, 21, self.format);
        layout::put_u8(out, 22, self.rate);
        layout::put_u8(out, 23, self.zero);
        Ok(())
    }

    // The record at the front of a slice.
    pub fn read(s: &[u8]) -> Result<SetParameters, Refusal>
        ensures { says_set_parameters result ≡ read_says set_parameters s.now }
    {
        if s.len() < SetParameters::SIZE {
            return Err(Refusal::BadLength);
        }
        Ok(SetParameters {
            code: layout::get_u32(s, 0),
            stream: layout::get_u32(s, 4),
            buffer: layout::get_u32(s, 8),
            period: layout::get_u32(s, 12),
            features: layout::get_u32(s, 16),
            channels: layout::get_u8(s, 20),
            format: layout::get_u8(s, 21),
            rate: layout::get_u8(s, 22),
            zero: layout::get_u8(s, 23),
        })
    }
}
