// An answer page and a count: what is known of the page, and three tables kept as its bytes.
#![tactic(auto)]

mod kept;
mod verdict;

pub use kept::{JACKS, MAPS, STREAMS, TABLES, fill};
pub use verdict::{Fault, PAGE, Verdict, Written, holds, is_good, judge, page_ok, refused_by};
