// PCM frame rates, their numbers and their Hz.
ghost use Rattle.std.specs.Prelude.{◌≡◌};
ghost use Rattle.codes.specs.Codes.{number_says};
ghost use Rattle.codes.specs.Rates.{rate_number, says_rate, hz_table, hz_of, place_of};

use crate::answers::Refusal;

#[derive(Clone, Copy)]
pub enum PcmRate {
    Rate5512 = 0,
    Rate8000 = 1,
    Rate11025 = 2,
    Rate16000 = 3,
    Rate22050 = 4,
    Rate32000 = 5,
    Rate44100 = 6,
    Rate48000 = 7,
    Rate64000 = 8,
    Rate88200 = 9,
    Rate96000 = 10,
    Rate176400 = 11,
    Rate192000 = 12,
    Rate384000 = 13,
}

const HZ: [u32; 14] = [
    5512, 8000, 11025, 16000, 22050, 32000, 44100, 48000, 64000, 88200, 96000, 176400, 192000,
    384000,
];

impl PcmRate {
    // The number of a rate.
    pub fn number(self) -> u8
        ensures { result ≡ rate_number self }
    {
        self as u8
    }

    // The Hz of a rate.
    pub fn hz(self) -> u32
        ensures { result ≡ hz_of self }
    {
        let n = self.number() as usize;
        HZ[n]
    }

    // The rate of a number of Hz: the table is searched for its number. It is no TryFrom: a number of
    // u32 could be one of Hz or of a rate.
    pub fn from_hz(hz: u32) -> Result<PcmRate, Refusal>
        ensures { says_rate result ≡ number_says 14 (place_of hz hz_table) (place_of hz hz_table) }
    {
        match HZ.iter().position(|&x| x == hz) {
            Some(at) => PcmRate::try_from(at as u8),
            None => Err(Refusal::InvalidParam),
        }
    }
}

impl TryFrom<u8> for PcmRate {
    type Error = Refusal;

    ghost try_from_gives = { λ n result. says_rate result ≡ number_says 14 n n };

    fn try_from(n: u8) -> Result<PcmRate, Refusal> {
        match n {
            0 => Ok(PcmRate::Rate5512),
            1 => Ok(PcmRate::Rate8000),
            2 => Ok(PcmRate::Rate11025),
            3 => Ok(PcmRate::Rate16000),
            4 => Ok(PcmRate::Rate22050),
            5 => Ok(PcmRate::Rate32000),
            6 => Ok(PcmRate::Rate44100),
            7 => Ok(PcmRate::Rate48000),
            8 => Ok(PcmRate::Rate64000),
            9 => Ok(PcmRate::Rate88200),
            10 => Ok(PcmRate::Rate96000),
            11 => Ok(PcmRate::Rate176400),
            12 => Ok(PcmRate::Rate192000),
            13 => Ok(PcmRate::Rate384000),
            _ => Err(Refusal::InvalidParam),
        }
    }
}
