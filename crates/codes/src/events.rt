// Event kinds and their codes.
ghost use Rattle.std.specs.Prelude.{◌≡◌};
ghost use Rattle.codes.specs.Codes.{code_says};
ghost use Rattle.codes.specs.Events.{event_codes, event_codes_of, event_code, says_kind};

use crate::answers::{Cause, Refusal};
use crate::tests::both;

#[derive(Clone, Copy)]
pub enum NotificationType {
    JackConnected = 0x1000,
    JackDisconnected = 0x1001,
    PcmPeriodElapsed = 0x1100,
    PcmXrun = 0x1101,
    CtlNotify = 0x1200,
}

impl NotificationType {
    // The code of an event.
    pub fn code(self) -> u32
        ensures { result ≡ event_code self }
    {
        self as u32
    }

    // Where the device has control elements, a change of one is an event too. It is no TryFrom, since
    // it takes the mode beside the code.
    pub fn from_code_in(code: u32, controls: bool) -> Result<NotificationType, Refusal>
        ensures { says_kind result ≡ code_says (event_codes_of controls) 2 code }
    {
        if both(controls, code == 0x1200) {
            return Ok(NotificationType::CtlNotify);
        }
        NotificationType::try_from(code)
    }
}

impl TryFrom<u32> for NotificationType {
    type Error = Refusal;

    ghost try_from_gives = { λ code result. says_kind result ≡ code_says event_codes 2 code };

    fn try_from(code: u32) -> Result<NotificationType, Refusal> {
        match code {
            0x1000 => Ok(NotificationType::JackConnected),
            0x1001 => Ok(NotificationType::JackDisconnected),
            0x1100 => Ok(NotificationType::PcmPeriodElapsed),
            0x1101 => Ok(NotificationType::PcmXrun),
            _ => Err(Refusal::IoError(Cause::NoStatus)),
        }
    }
}
