// filters/mod.rs: the simple filters, for f32. Each is a state that is given by value and handed back.
// Its curves, `ExpoRates` and `Linear`, stand in the crate rates.
#![tactic(auto)]

mod complementary;
mod highpass;
mod integrating;
mod integrating_complementary;
mod integrating_highpass;
mod lowpass;
mod lowpass2;
mod moving_average;
mod slew_rate;

pub use complementary::Complementary;
pub use highpass::Highpass;
pub use integrating_complementary::IntegratingComplementary;
pub use integrating_highpass::IntegratingHighpass;
pub use lowpass::Lowpass;
pub use lowpass2::NthOrderLowpass;
pub use moving_average::MovingAverage;
pub use slew_rate::{SlewRate, bad_limit};
