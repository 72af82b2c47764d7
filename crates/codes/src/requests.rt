// Codes of control requests.
ghost use Rattle.std.specs.Prelude.{◌≡◌};
ghost use Rattle.codes.specs.Codes.{code_says};
ghost use Rattle.codes.specs.Requests.{request_codes, request_code, says_request};

use crate::answers::Refusal;

#[derive(Clone, Copy)]
pub enum RequestCode {
    RJackInfo = 0x0001,
    RJackRemap = 0x0002,
    RPcmInfo = 0x0100,
    RPcmSetParams = 0x0101,
    RPcmPrepare = 0x0102,
    RPcmRelease = 0x0103,
    RPcmStart = 0x0104,
    RPcmStop = 0x0105,
    RChmapInfo = 0x0200,
}

impl RequestCode {
    // The code of a request.
    pub fn code(self) -> u32
        ensures { result ≡ request_code self }
    {
        self as u32
    }
}

impl TryFrom<u32> for RequestCode {
    type Error = Refusal;

    ghost try_from_gives = { λ code result. says_request result ≡ code_says request_codes 1 code };

    fn try_from(code: u32) -> Result<RequestCode, Refusal> {
        match code {
            0x0001 => Ok(RequestCode::RJackInfo),
            0x0002 => Ok(RequestCode::RJackRemap),
            0x0100 => Ok(RequestCode::RPcmInfo),
            0x0101 => Ok(RequestCode::RPcmSetParams),
            0x0102 => Ok(RequestCode::RPcmPrepare),
            0x0103 => Ok(RequestCode::RPcmRelease),
            0x0104 => Ok(RequestCode::RPcmStart),
            0x0105 => Ok(RequestCode::RPcmStop),
            0x0200 => Ok(RequestCode::RChmapInfo),
            _ => Err(Refusal::InvalidParam),
        }
    }
}
