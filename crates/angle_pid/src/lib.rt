// filters/angle_pid.rs: the angle controller, for f32. It is a state that is given by value and handed back.
#![tactic(auto)]

mod lp_filter;
mod pid;
mod range;

pub use pid::{Pid, PidConfig, PidUpdated};
pub use range::Range;
