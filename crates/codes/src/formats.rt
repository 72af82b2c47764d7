// PCM sample formats and their numbers.
ghost use Rattle.std.specs.Prelude.{◌≡◌};
ghost use Rattle.codes.specs.Codes.{number_says};
ghost use Rattle.codes.specs.Formats.{format_number, says_format, sample_bits, storage_bits};

use crate::answers::Refusal;

#[derive(Clone, Copy)]
pub enum PcmFormat {
    ImaAdpcm = 0,
    MuLaw = 1,
    ALaw = 2,
    S8 = 3,
    U8 = 4,
    S16 = 5,
    U16 = 6,
    S18_3 = 7,
    U18_3 = 8,
    S20_3 = 9,
    U20_3 = 10,
    S24_3 = 11,
    U24_3 = 12,
    S20 = 13,
    U20 = 14,
    S24 = 15,
    U24 = 16,
    S32 = 17,
    U32 = 18,
    FLOAT = 19,
    FLOAT64 = 20,
    DsdU8 = 21,
    DsdU16 = 22,
    DsdU32 = 23,
    Iec958Subframe = 24,
}

// By format number: the bits of a sample, and the bits that it takes.
const SAMPLE: [u8; 25] = [
    4, 8, 8, 8, 8, 16, 16, 18, 18, 20, 20, 24, 24, 20, 20, 24, 24, 32, 32, 32, 64, 8, 16, 32, 32,
];

const STORAGE: [u8; 25] = [
    4, 8, 8, 8, 8, 16, 16, 24, 24, 24, 24, 24, 24, 32, 32, 32, 32, 32, 32, 32, 64, 8, 16, 32, 32,
];

impl PcmFormat {
    // The number of a format.
    pub fn number(self) -> u8
        ensures { result ≡ format_number self }
    {
        self as u8
    }

    // The bits of a sample.
    pub fn sample_bits(self) -> u8
        ensures { result ≡ sample_bits self }
    {
        let n = self.number() as usize;
        SAMPLE[n]
    }

    // The bits that a sample takes where it is stored.
    pub fn storage_bits(self) -> u8
        ensures { result ≡ storage_bits self }
    {
        let at = self.number() as usize;
        STORAGE[at]
    }
}

impl TryFrom<u8> for PcmFormat {
    type Error = Refusal;

    ghost try_from_gives = { λ n result. says_format result ≡ number_says 25 n n };

    fn try_from(n: u8) -> Result<PcmFormat, Refusal> {
        match n {
            0 => Ok(PcmFormat::ImaAdpcm),
            1 => Ok(PcmFormat::MuLaw),
            2 => Ok(PcmFormat::ALaw),
            3 => Ok(PcmFormat::S8),
            4 => Ok(PcmFormat::U8),
            5 => Ok(PcmFormat::S16),
            6 => Ok(PcmFormat::U16),
            7 => Ok(PcmFormat::S18_3),
            8 => Ok(PcmFormat::U18_3),
            9 => Ok(PcmFormat::S20_3),
            10 => Ok(PcmFormat::U20_3),
            11 => Ok(PcmFormat::S24_3),
            12 => Ok(PcmFormat::U24_3),
            13 => Ok(PcmFormat::S20),
            14 => Ok(PcmFormat::U20),
            15 => Ok(PcmFormat::S24),
            16 => Ok(PcmFormat::U24),
            17 => Ok(PcmFormat::S32),
            18 => Ok(PcmFormat::U32),
            19 => Ok(PcmFormat::FLOAT),
            20 => Ok(PcmFormat::FLOAT64),
            21 => Ok(PcmFormat::DsdU8),
            22 => Ok(PcmFormat::DsdU16),
            23 => Ok(PcmFormat::DsdU32),
            24 => Ok(PcmFormat::Iec958Subframe),
            _ => Err(Refusal::InvalidParam),
        }
    }
}
