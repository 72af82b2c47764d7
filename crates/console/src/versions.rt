// What a device of VirtIO 1.2 or 1.3 shows: its configuration and its events.
ghost use Rattle.std.specs.Prelude.{◌≡◌};
ghost use Rattle.std.proofs.lemmas.List.Edits.{sets};
ghost use Rattle.layout.specs.Layout.{write as writes};
ghost use Rattle.layout.specs.Lent.{shown};
ghost use Rattle.records.specs.Config.{config_row, config_values};
ghost use Rattle.console.specs.Entries.{config_entry, notice_entry_in};

use crate::event::tell;
use codes::words::{BAD_LENGTH, INVALID_PARAM};
use codes::{Version, has_controls};
use records::{Config, latest_notification_in};

// A number that is no version.
fn put_config(res: &mut [u8], c: Config, controls: bool)
    ensures { res.new ≡ sets res.old 0 (writes (config_row controls) (config_values controls c)) }
{
    layout::put_u32(res, 0, c.jacks);
    layout::put_u32(res, 4, c.streams);
    layout::put_u32(res, 8, c.chmaps);
    if controls {
        layout::put_u32(res, 12, c.controls);
    }
}

#[unsafe(no_mangle)]
pub extern "C" fn snd_config(config: &[u8], version: u32, features: u64, res: &mut [u8]) -> u64
    ensures { shown result res.new ≡ config_entry config.now version features res.old }
{
    if res.len() < state_store::RESULT {
        return BAD_LENGTH;
    }
    let controls = has_controls(version, features);
    let Ok(c) = Config::read(config, controls) else {
        return BAD_LENGTH;
    };
    let Ok(_) = Version::try_from(version) else {
        return INVALID_PARAM;
    };
    put_config(res, c, controls);
    0
}

#[unsafe(no_mangle)]
pub extern "C" fn snd_latest_notification_in(
    event: &[u8],
    version: u32,
    features: u64,
    res: &mut [u8],
) -> u64
    ensures { shown result res.new ≡ notice_entry_in event.now version features res.old }
{
    if res.len() < state_store::RESULT {
        return BAD_LENGTH;
    }
    let Ok(_) = Version::try_from(version) else {
        return INVALID_PARAM;
    };
    let controls = has_controls(version, features);
    let said = latest_notification_in(event, controls);
    tell(said, res)
}
