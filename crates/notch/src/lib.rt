// filters/mod.rs: `NotchFilter` and its biquad, for f32, without the tangent: the caller hands in the value t of the Rust's
// (fc·2·pi·dt/2).tan(). And three notches in a row over a lent run of samples. Every number is accepted.
#![tactic(auto)]

mod biquad;
mod notch_filter;
mod notches;
mod samples;

pub use biquad::{BiquadFilter, BiquadParams};
pub use notch_filter::NotchFilter;
pub use notches::Notches;
pub use samples::{Sampled, run};
