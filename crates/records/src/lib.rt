// Records: written in a lent slice and read from it. A slice shorter than the record is BadLength,
// and reading and writing refuse nothing else; a configuration has just its bytes. What an event
// says, and a position of a channel map.
#![tactic(auto)]

mod config;
mod control;
mod event;
mod info;
mod notice;
mod transfer;

pub use config::Config;
pub use control::{PcmCommand, Query, Remap, SetParameters};
pub use event::{Event, Notice, latest_notification};
pub use info::{ChannelMap, JackInfo, PcmInfo};
pub use notice::latest_notification_in;
pub use transfer::{Transfer, TransferStatus};
