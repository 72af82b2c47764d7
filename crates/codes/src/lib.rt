// Codes and masks: formats, rates, flag sets, event kinds, request and status codes, channel
// positions, versions, and the answers of a call with their numbers.
#![tactic(auto)]

mod answers;
pub mod direction;
mod events;
mod flags;
mod formats;
pub mod life;
pub mod position;
mod rates;
mod requests;
mod statuses;
mod tests;
mod versions;
pub mod words;

pub use answers::{Cause, Refusal};
pub use events::NotificationType;
pub use flags::{DeviceFeatures, JackFeatures, PcmFeature, PcmFeatures, PcmFormats, PcmRates};
pub use formats::PcmFormat;
pub use rates::PcmRate;
pub use requests::RequestCode;
pub use statuses::{StatusCode, UnknownStatus, status_is_ok};
pub use tests::both;
pub use versions::{Version, has_controls};
