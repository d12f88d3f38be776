// Curves: rates.rs, and `ExpoRates` and `Linear` of filters/mod.rs.
#![tactic(auto)]

pub mod expo_rates;
mod line;
pub mod linear;
pub mod rates;
