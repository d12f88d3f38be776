// NthOrderLowpass at order 2: what the first low pass gives is the second's input.
ghost use Rattle.std.specs.Prelude.{◌≡◌};
ghost use Rattle.filters.specs.Lowpass2.{new_lowpass2, set_dt_lowpass2, configure_lowpass2, step_lowpass2};

use crate::lowpass::Lowpass;
use step::Stepped;

#[derive(Clone, Copy, Default)]
pub struct NthOrderLowpass {
    pub first: Lowpass,
    pub second: Lowpass,
}

#[tactic(auto, unfolding(crate::specs::Lowpass2::new_lowpass2, crate::specs::Lowpass2::set_dt_lowpass2, crate::specs::Lowpass2::configure_lowpass2, crate::specs::Lowpass2::step_lowpass2))]
impl NthOrderLowpass {
    pub fn new(tau: f32, dt: f32) -> Self
        ensures { result ≡ new_lowpass2 tau dt }
    {
        NthOrderLowpass {
            first: Lowpass::new(tau, dt),
            second: Lowpass::new(tau, dt),
        }
    }

    pub fn set_dt(self, dt: f32) -> Self
        ensures { result ≡ set_dt_lowpass2 self dt }
    {
        NthOrderLowpass {
            first: self.first.set_dt(dt),
            second: self.second.set_dt(dt),
        }
    }

    // The Rust's name for setting tau here.
    pub fn configure(self, tau: f32) -> Self
        ensures { result ≡ configure_lowpass2 self tau }
    {
        NthOrderLowpass {
            first: self.first.set_tau(tau),
            second: self.second.set_tau(tau),
        }
    }

    pub fn update(self, x: f32) -> Stepped<NthOrderLowpass>
        ensures { result ≡ step_lowpass2 self x }
    {
        let one = self.first.update(x);
        let two = self.second.update(one.y);
        let state = NthOrderLowpass {
            first: one.state,
            second: two.state,
        };
        Stepped { y: two.y, state }
    }
}
