// Submissions that do not wait: which token is taken, which waits for its completion, which may be
// finished; and where in the lent store a token's message stands.
#![tactic(auto)]

mod calls;
mod place;
mod table;

pub use calls::{Judged, Told, finish, finish_token, hold, mark, mark_token};
pub use place::{INDIRECT_PLACES, PLACES, find_spot, place_size, placed};
pub use table::{Pending, Seen, Token, count, is_none, look, lowest, seen_token};
