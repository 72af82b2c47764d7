// A transfer's trace: its fields, the judge of a foreign one, the differences of two, the writer of our own.
#![tactic(auto)]

mod course;
mod diff;
mod difference;
mod field;
mod fields;
mod pen;
mod rules;
mod writer;

pub use course::judge;
pub use diff::{ROW, compare, differences};
pub use difference::CompareError;
pub use field::{Judgement, TraceError};
pub use fields::scan;
pub use writer::turn_traced;
