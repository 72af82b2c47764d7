// Flag sets. A set holds any bits: those that the standard does not name are kept. Each is a type of
// its own and not one generic set: they differ in their word and in the names of their bits.
ghost use Rattle.std.specs.Prelude.{◌≡◌, ◌^◌, ◌<◌, ◌/◌, ◌%◌, eqb};
ghost use Rattle.codes.specs.Codes.{number_says};
ghost use Rattle.codes.specs.Formats.{format_number};
ghost use Rattle.codes.specs.Rates.{rate_number};
ghost use Rattle.codes.specs.Flags.{has_bit, ctls_feature, remap_feature, feature_number, says_bit};

use crate::answers::Refusal;
use crate::formats::PcmFormat;
use crate::rates::PcmRate;

// The bit of a mask that is a power of 2.
fn bit_of(bits: u64, mask: u64) -> bool
    requires { 0 < mask }
    ensures { result ≡ eqb (bits / mask % 2) 1 }
{
    bits / mask % 2 == 1
}

// Features of a device.
#[derive(Clone, Copy)]
pub struct DeviceFeatures {
    pub bits: u64,
}

impl DeviceFeatures {
    pub const CTLS: u64 = 1 << 0;

    // Has the device control elements?
    pub fn has_ctls(self) -> bool
        ensures { result ≡ has_bit ctls_feature self.bits }
    {
        bit_of(self.bits, DeviceFeatures::CTLS)
    }
}

// Features of a jack.
#[derive(Clone, Copy)]
pub struct JackFeatures {
    pub bits: u32,
}

impl JackFeatures {
    pub const REMAP: u32 = 1 << 0;

    // The set of these bits, unknown ones too.
    pub fn from_bits_retain(bits: u32) -> JackFeatures
        ensures { result.bits ≡ bits }
    {
        JackFeatures { bits }
    }

    // Can the jack be remapped?
    pub fn has_remap(self) -> bool
        ensures { result ≡ has_bit remap_feature self.bits }
    {
        bit_of(self.bits as u64, JackFeatures::REMAP as u64)
    }
}

// A feature of a PCM stream.
#[derive(Clone, Copy)]
pub enum PcmFeature {
    ShmemHost,
    ShmemGuest,
    MsgPolling,
    EvtShmemPeriods,
    EvtXruns,
}

// Features of a PCM stream.
#[derive(Clone, Copy)]
pub struct PcmFeatures {
    pub bits: u32,
}

impl PcmFeatures {
    pub const SHMEM_HOST: u32 = 1 << 0;

    pub const SHMEM_GUEST: u32 = 1 << 1;

    pub const MSG_POLLING: u32 = 1 << 2;

    pub const EVT_SHMEM_PERIODS: u32 = 1 << 3;

    pub const EVT_XRUNS: u32 = 1 << 4;

    // The set of these bits, unknown ones too.
    pub fn from_bits_retain(bits: u32) -> PcmFeatures
        ensures { result.bits ≡ bits }
    {
        PcmFeatures { bits }
    }

    // Is the feature in the set?
    pub fn contains(self, feature: PcmFeature) -> bool
        ensures { result ≡ has_bit (feature_number feature) self.bits }
    {
        let mask = PcmFeatures::from(feature);
        bit_of(self.bits as u64, mask.bits as u64)
    }
}

// The set with just the bit of a feature.
impl From<PcmFeature> for PcmFeatures {
    ghost from_gives = { λ feature set. set.bits ≡ 2 ^ feature_number feature };

    fn from(feature: PcmFeature) -> PcmFeatures {
        PcmFeatures {
            bits: match feature {
                PcmFeature::ShmemHost => PcmFeatures::SHMEM_HOST,
                PcmFeature::ShmemGuest => PcmFeatures::SHMEM_GUEST,
                PcmFeature::MsgPolling => PcmFeatures::MSG_POLLING,
                PcmFeature::EvtShmemPeriods => PcmFeatures::EVT_SHMEM_PERIODS,
                PcmFeature::EvtXruns => PcmFeatures::EVT_XRUNS,
            },
        }
    }
}

// Formats of a PCM stream.
#[derive(Clone, Copy)]
pub struct PcmFormats {
    pub bits: u64,
}

impl PcmFormats {
    pub const IMA_ADPCM: u64 = 1 << 0;

    pub const MU_LAW: u64 = 1 << 1;

    pub const A_LAW: u64 = 1 << 2;

    pub const S8: u64 = 1 << 3;

    pub const U8: u64 = 1 << 4;

    pub const S16: u64 = 1 << 5;

    pub const U16: u64 = 1 << 6;

    pub const S18_3: u64 = 1 << 7;

    pub const U18_3: u64 = 1 << 8;

    pub const S20_3: u64 = 1 << 9;

    pub const U20_3: u64 = 1 << 10;

    pub const S24_3: u64 = 1 << 11;

    pub const U24_3: u64 = 1 << 12;

    pub const S20: u64 = 1 << 13;

    pub const U20: u64 = 1 << 14;

    pub const S24: u64 = 1 << 15;

    pub const U24: u64 = 1 << 16;

    pub const S32: u64 = 1 << 17;

    pub const U32: u64 = 1 << 18;

    pub const FLOAT: u64 = 1 << 19;

    pub const FLOAT64: u64 = 1 << 20;

    pub const DSD_U8: u64 = 1 << 21;

    pub const DSD_U16: u64 = 1 << 22;

    pub const DSD_U32: u64 = 1 << 23;

    pub const IEC958_SUBFRAME: u64 = 1 << 24;

    // The set of these bits, unknown ones too.
    pub fn from_bits_retain(bits: u64) -> PcmFormats
        ensures { result.bits ≡ bits }
    {
        PcmFormats { bits }
    }

    // The mask bit of a format number.
    pub fn from_number(n: u8) -> Result<u64, Refusal>
        ensures { says_bit result ≡ number_says 25 n (2 ^ n) }
    {
        if n < 25 {
            Ok(1u64 << n)
        } else {
            Err(Refusal::InvalidParam)
        }
    }

    // Is the format in the set?
    pub fn contains(self, format: PcmFormat) -> bool
        ensures { result ≡ has_bit (format_number format) self.bits }
    {
        let format_mask = PcmFormats::from(format);
        bit_of(self.bits, format_mask.bits)
    }
}

// The set with just the bit of a format.
impl From<PcmFormat> for PcmFormats {
    ghost from_gives = { λ format set. set.bits ≡ 2 ^ format_number format };

    fn from(format: PcmFormat) -> PcmFormats {
        let n = format.number();
        PcmFormats { bits: 1u64 << n }
    }
}

// Rates of a PCM stream.
#[derive(Clone, Copy)]
pub struct PcmRates {
    pub bits: u64,
}

impl PcmRates {
    pub const RATE_5512: u64 = 1 << 0;

    pub const RATE_8000: u64 = 1 << 1;

    pub const RATE_11025: u64 = 1 << 2;

    pub const RATE_16000: u64 = 1 << 3;

    pub const RATE_22050: u64 = 1 << 4;

    pub const RATE_32000: u64 = 1 << 5;

    pub const RATE_44100: u64 = 1 << 6;

    pub const RATE_48000: u64 = 1 << 7;

    pub const RATE_64000: u64 = 1 << 8;

    pub const RATE_88200: u64 = 1 << 9;

    pub const RATE_96000: u64 = 1 << 10;

    pub const RATE_176400: u64 = 1 << 11;

    pub const RATE_192000: u64 = 1 << 12;

    pub const RATE_384000: u64 = 1 << 13;

    // The set of these bits, unknown ones too.
    pub fn from_bits_retain(bits: u64) -> PcmRates
        ensures { result.bits ≡ bits }
    {
        PcmRates { bits }
    }

    // The mask bit of a rate number.
    pub fn from_number(n: u8) -> Result<u64, Refusal>
        ensures { says_bit result ≡ number_says 14 n (2 ^ n) }
    {
        let rate = PcmRate::try_from(n)?;
        let mask = PcmRates::from(rate);
        Ok(mask.bits)
    }

    // Is the rate in the set?
    pub fn contains(self, rate: PcmRate) -> bool
        ensures { result ≡ has_bit (rate_number rate) self.bits }
    {
        let rate_mask = PcmRates::from(rate);
        bit_of(self.bits, rate_mask.bits)
    }
}

// The set with just the bit of a rate.
impl From<PcmRate> for PcmRates {
    ghost from_gives = { λ rate set. set.bits ≡ 2 ^ rate_number rate };

    fn from(rate: PcmRate) -> PcmRates {
        PcmRates {
            bits: match rate {
                PcmRate::Rate5512 => PcmRates::RATE_5512,
                PcmRate::Rate8000 => PcmRates::RATE_8000,
                PcmRate::Rate11025 => PcmRates::RATE_11025,
                PcmRate::Rate16000 => PcmRates::RATE_16000,
                PcmRate::Rate22050 => PcmRates::RATE_22050,
                PcmRate::Rate32000 => PcmRates::RATE_32000,
                PcmRate::Rate44100 => PcmRates::RATE_44100,
                PcmRate::Rate48000 => PcmRates::RATE_48000,
                PcmRate::Rate64000 => PcmRates::RATE_64000,
                PcmRate::Rate88200 => PcmRates::RATE_88200,
                PcmRate::Rate96000 => PcmRates::RATE_96000,
                PcmRate::Rate176400 => PcmRates::RATE_176400,
                PcmRate::Rate192000 => PcmRates::RATE_192000,
                PcmRate::Rate384000 => PcmRates::RATE_384000,
            },
        }
    }
}
