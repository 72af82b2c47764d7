// The state by value: every call, the feeds of an answer, the start of a transfer, submissions that do not wait.
#![tactic(auto)]

mod calls;
mod effect;
mod fields;
mod listing;
mod nonblocking;
mod state;
mod xfer;

pub use calls::{
    Step, StreamList, channel_range_supported, features_supported, feed, feed_failure,
    feed_written, formats_supported, input_streams, jack_remap, output_streams, pcm_prepare,
    pcm_release, pcm_set_params, pcm_start, pcm_stop, rates_supported,
};
pub use effect::{direction_at, life_at, look, pending_look};
pub use nonblocking::{
    NbEnd, NbReply, NbStep, pcm_xfer_mark, pcm_xfer_nb, pcm_xfer_ok, pending_count, pending_token,
    places_of,
};
pub use state::Sound;
pub use xfer::{
    XferReply, XferStep, pcm_capture_start, pcm_xfer, pcm_xfer_start, pcm_xfer_start_traced,
};
