// The state as bytes in its owner's storage, looked at and changed by place: no table is decoded.
#![tactic(auto)]

mod calls;
mod config;
mod effect;
mod fields;
mod flat;
mod head;
mod nonblocking;
mod place;
mod result;
mod tokens;

pub use calls::{RESULT, SIZE, call, feed, feed_failure, feed_written, open, open_capture, size};
pub use config::{chmaps, jacks, new, new_guarded, streams};
pub use flat::{Flat, Head};
pub use nonblocking::pcm_xfer_nb;
pub use tokens::{pcm_xfer_mark, pcm_xfer_ok, pending_count, pending_token};
