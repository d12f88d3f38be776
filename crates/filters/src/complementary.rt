// The low pass of one signal and the high pass of another, added.
ghost use Rattle.std.specs.Prelude.{◌≡◌};
ghost use Rattle.filters.specs.Complementary.{new_complementary, set_dt_complementary, set_tau_complementary, step_complementary};

use crate::highpass::Highpass;
use crate::lowpass::Lowpass;
use step::Stepped;

// Kept: as in NthOrderLowpass each setter sets both parts. The parts differ in type, and a trait over them would be no shorter.
#[derive(Clone, Copy, Default)]
pub struct Complementary {
    pub lp_filter: Lowpass,
    pub hp_filter: Highpass,
}

#[tactic(auto, unfolding(crate::specs::Complementary::new_complementary, crate::specs::Complementary::set_dt_complementary, crate::specs::Complementary::set_tau_complementary, crate::specs::Complementary::step_complementary))]
impl Complementary {
    pub fn new(tau: f32, dt: f32) -> Self
        ensures { result ≡ new_complementary tau dt }
    {
        Complementary {
            lp_filter: Lowpass::new(tau, dt),
            hp_filter: Highpass::new(tau, dt),
        }
    }

    pub fn set_dt(self, dt: f32) -> Self
        ensures { result ≡ set_dt_complementary self dt }
    {
        Complementary {
            lp_filter: self.lp_filter.set_dt(dt),
            hp_filter: self.hp_filter.set_dt(dt),
        }
    }

    pub fn set_tau(self, tau: f32) -> Self
        ensures { result ≡ set_tau_complementary self tau }
    {
        Complementary {
            lp_filter: self.lp_filter.set_tau(tau),
            hp_filter: self.hp_filter.set_tau(tau),
        }
    }

    pub fn update(self, low_frequency: f32, high_frequency: f32) -> Stepped<Complementary>
        ensures { result ≡ step_complementary self low_frequency high_frequency }
    {
        let low = self.lp_filter.update(low_frequency);
        let high = self.hp_filter.update(high_frequency);
        let state = Complementary {
            lp_filter: low.state,
            hp_filter: high.state,
        };
        Stepped {
            y: low.y + high.y,
            state,
        }
    }
}
