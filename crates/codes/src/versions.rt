// The versions of VirtIO that a caller names, and what a version and the negotiated features make.
ghost use Rattle.std.specs.Prelude.{◌≡◌};
ghost use Rattle.codes.specs.Codes.{code_says};
ghost use Rattle.codes.specs.Versions.{version_numbers, version_number, says_version, has_controls};

use crate::answers::Refusal;
use crate::flags::DeviceFeatures;
use crate::tests::both;

#[derive(Clone, Copy)]
pub enum Version {
    V12 = 0x0102,
    V13 = 0x0103,
}

impl Version {
    // The number of a version.
    pub fn number(self) -> u32
        ensures { result ≡ version_number self }
    {
        self as u32
    }
}

impl TryFrom<u32> for Version {
    type Error = Refusal;

    ghost try_from_gives = { λ n result. says_version result ≡ code_says version_numbers 1 n };

    fn try_from(n: u32) -> Result<Version, Refusal> {
        match n {
            0x0102 => Ok(Version::V12),
            0x0103 => Ok(Version::V13),
            _ => Err(Refusal::InvalidParam),
        }
    }
}

// Has the device control elements? A number that is no version has none.
pub fn has_controls(version: u32, features: u64) -> bool
    ensures { result ≡ has_controls version features }
{
    let set = DeviceFeatures { bits: features };
    both(version == 0x0103, set.has_ctls())
}
