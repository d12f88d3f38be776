// A replay on slices: settings and a trace, both .npy arrays, in; a line a row out.
#![tactic(auto)]

mod course;
mod going;
mod measure;
mod opening;
mod refusal_line;
mod whole;

pub use course::{Begun, Course, Replayed, RowsTaken};
pub use going::rows;
pub use measure::end;
pub use opening::{start, start_bytes};
pub use refusal_line::refused_line;
pub use whole::replay;
