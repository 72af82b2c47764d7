// What a page says to what was asked.
ghost use Rattle.std.specs.Prelude.{◌≡◌};
ghost use Rattle.sound_core.specs.Plan.{verdict_by};

use crate::state::{Counts, Stage};
use records::{ChannelMap, JackInfo, PcmInfo};
use tables::{Verdict, Written, judge};

// A command's answer has a status and nothing more.
pub fn verdict_by(w: Written, stage: Stage, n: Counts, page: &[u8]) -> Verdict
    ensures { result ≡ verdict_by w stage n page.now }
{
    match stage {
        Stage::JacksAsked(_) => judge(w, page, n.jacks, JackInfo::SIZE as u32),
        Stage::StreamsAsked(_) => judge(w, page, n.streams, PcmInfo::SIZE as u32),
        Stage::MapsAsked(_) => judge(w, page, n.maps, ChannelMap::SIZE as u32),
        Stage::Idle | Stage::Sent(_) => judge(w, page, 0, 0),
    }
}
