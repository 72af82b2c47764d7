// Events of a device that may have control elements.
ghost use Rattle.std.specs.Prelude.{◌≡◌};
ghost use Rattle.records.specs.Notice.{says_notice, notice_says_of};

use crate::event::{Event, Notice};
use codes::{NotificationType, Refusal};

// Where it has them, 0x1200 is a change of one; every other event is as without.
pub fn latest_notification_in(s: &[u8], controls: bool) -> Result<Option<Notice>, Refusal>
    ensures { says_notice result ≡ notice_says_of controls s.now }
{
    if s.len() != Event::SIZE {
        return Ok(None);
    }
    let code = layout::get_u32(s, 0);
    let kind = NotificationType::from_code_in(code, controls)?;
    if code == 0x1200 {
        return Ok(Some(Notice::Control(layout::get_u16(s, 4), layout::get_u16(s, 6))));
    }
    Ok(Some(Notice::Event(kind, layout::get_u32(s, 4))))
}
