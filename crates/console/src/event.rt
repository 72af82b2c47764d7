// An event.
ghost use Rattle.std.specs.Prelude.{◌≡◌};
ghost use Rattle.layout.specs.Lent.{shown};
ghost use Rattle.console.specs.Entries.{notice_entry};
ghost use Rattle.console.specs.Private.{noticed};

use codes::Refusal;
use codes::words::BAD_LENGTH;
use records::{Notice, latest_notification};

// An event that says nothing.
const NOTHING: u64 = 513;

// Each number that an event gives takes 4 bytes of the result.
pub(crate) fn tell(said: Result<Option<Notice>, Refusal>, res: &mut [u8]) -> u64
    ensures { shown result res.new ≡ noticed said res.old }
{
    match said {
        Ok(Some(Notice::Event(kind, data))) => {
            layout::put_u32(res, 0, kind.code());
            layout::put_u32(res, 4, data);
            0
        }
        Ok(Some(Notice::Control(id, mask))) => {
            layout::put_u32(res, 0, 0x1200);
            layout::put_u32(res, 4, id as u32);
            layout::put_u32(res, 8, mask as u32);
            0
        }
        Ok(None) => NOTHING,
        Err(refusal) => refusal.word(),
    }
}

#[unsafe(no_mangle)]
pub extern "C" fn snd_latest_notification(event: &[u8], res: &mut [u8]) -> u64
    ensures { shown result res.new ≡ notice_entry event.now res.old }
{
    if res.len() < state_store::RESULT {
        return BAD_LENGTH;
    }
    let said = latest_notification(event);
    tell(said, res)
}
