// Status codes of an answer.
ghost use Rattle.std.specs.Prelude.{◌≡◌, eqb};
ghost use Rattle.codes.specs.Statuses.{status_code, says_status, status_says};

#[derive(Clone, Copy, PartialEq, Eq)]
pub enum StatusCode {
    SOk = 0x8000,
    SBadMsg = 0x8001,
    SNotSupp = 0x8002,
    SIoErr = 0x8003,
}

// The status of an answer where the standard does not name it.
#[derive(Clone, Copy, PartialEq, Eq)]
pub struct UnknownStatus {
    pub word: u32,
}

impl StatusCode {
    pub const OK: u32 = 0x8000;

    pub const BAD_MSG: u32 = 0x8001;

    pub const NOT_SUPP: u32 = 0x8002;

    pub const IO_ERR: u32 = 0x8003;

    // The code of a status.
    pub fn code(self) -> u32
        ensures { result ≡ status_code self }
    {
        self as u32
    }
}

impl TryFrom<u32> for StatusCode {
    type Error = UnknownStatus;

    ghost try_from_gives = { λ code result. says_status result ≡ status_says code };

    fn try_from(code: u32) -> Result<StatusCode, UnknownStatus> {
        match code {
            0x8000 => Ok(StatusCode::SOk),
            0x8001 => Ok(StatusCode::SBadMsg),
            0x8002 => Ok(StatusCode::SNotSupp),
            0x8003 => Ok(StatusCode::SIoErr),
            _ => Err(UnknownStatus { word: code }),
        }
    }
}

// Is the status of an answer ok? No other one is, known or not.
pub fn status_is_ok(code: u32) -> bool
    ensures { result ≡ eqb code 0x8000 }
{
    StatusCode::try_from(code) == Ok(StatusCode::SOk)
}
