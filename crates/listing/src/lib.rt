// The stream listing of a PCM info answer, line by line: bytes into a lent slice.
#![tactic(auto)]

mod lines;
mod verdict;

pub use lines::{count_line, line_at, refused_line, stream_line};
pub use verdict::judge;
