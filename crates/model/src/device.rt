// The model device by value.
ghost use Rattle.std.specs.Prelude.{◌≡◌};
ghost use Rattle.model.specs.Device.{new_device, few_of, within_of, stream_ok, says_held, params_says, says_count, played_says, place_of};

use codes::Refusal;
use records::{ChannelMap, JackInfo, PcmInfo, SetParameters};

// How many records each table has at the most: as many as a page holds.
const JACKS: usize = 170;

const STREAMS: usize = 127;

const MAPS: usize = 170;

// How many records each table has.
#[derive(Clone, Copy)]
pub struct Counts {
    pub jacks: u32,
    pub streams: u32,
    pub maps: u32,
}

// The parameters that a stream was set to, all 24 bytes as received; `known` is 0 where it never was.
// It is no Option: `known` is the byte that a store keeps, and a store that is read and written
// again has to keep each of its bytes.
#[derive(Clone, Copy)]
pub struct Held {
    pub known: u8,
    pub set: SetParameters,
}

#[derive(Clone, Copy)]
pub struct Device {
    pub counts: Counts,
    pub jacks: [JackInfo; 170],
    pub pcms: [PcmInfo; 127],
    pub maps: [ChannelMap; 170],
    pub params: [Held; 127],
    // Payload bytes played by each stream, modulo 2^64.
    pub played: [u64; 127],
}

// Counts of tables that a page holds each.
pub fn few(jacks: usize, streams: usize, maps: usize) -> bool
    ensures { result ≡ few_of jacks streams maps }
{
    jacks <= JACKS && streams <= STREAMS && maps <= MAPS
}

// A device with larger tables than a page holds is refused, but for `payload`, which only shows a
// part of the request.
pub fn within(n: Counts) -> bool
    ensures { result ≡ within_of n }
{
    few(n.jacks as usize, n.streams as usize, n.maps as usize)
}

// A stream of a device that is not refused.
pub fn stream_ok(n: Counts, stream: u32) -> bool
    ensures { result ≡ stream_ok n stream }
{
    within(n) && stream < n.streams
}

// The place of a stream in the tables by stream.
fn place(n: Counts, stream: u32) -> Result<usize, Refusal>
    ensures { result ≡ place_of n stream }
{
    if stream_ok(n, stream) {
        return Ok(stream as usize);
    }
    Err(Refusal::InvalidParam)
}

impl Device {
    // Of each table the first records count; no stream has parameters, and nothing was played.
    pub fn new(
        counts: Counts,
        jacks: [JackInfo; 170],
        pcms: [PcmInfo; 127],
        maps: [ChannelMap; 170],
    ) -> Device
        ensures { result ≡ new_device counts jacks pcms maps }
    {
        let set = SetParameters {
            code: 0,
            stream: 0,
            buffer: 0,
            period: 0,
            features: 0,
            channels: 0,
            format: 0,
            rate: 0,
            zero: 0,
        };
        let nothing = Held { known: 0, set };
        let params = [nothing; 127];
        let played = [0u64; 127];
        Device {
            counts,
            jacks,
            pcms,
            maps,
            params,
            played,
        }
    }

    // The parameters of a stream.
    pub fn params(self, stream: u32) -> Result<Option<SetParameters>, Refusal>
        ensures { says_held result ≡ params_says self stream }
    {
        let held = self.params[place(self.counts, stream)?];
        if held.known == 0 {
            return Ok(None);
        }
        Ok(Some(held.set))
    }

    // How many bytes a stream has played, modulo 2^64.
    pub fn played(self, stream: u32) -> Result<u64, Refusal>
        ensures { says_count result ≡ played_says self stream }
    {
        Ok(self.played[place(self.counts, stream)?])
    }
}
