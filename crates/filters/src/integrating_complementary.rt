// A complementary filter whose second signal is integrated. Its setters change alpha only: the stored dt and tau stay as
// constructed, as the Rust has it.
ghost use Rattle.std.specs.Prelude.{◌≡◌};
ghost use Rattle.filters.specs.IntegratingComplementary.{new_integrating_complementary, set_dt_integrating_complementary, set_tau_integrating_complementary, step_integrating_complementary};

use crate::integrating;
use step::Stepped;

// Kept: its fields and setters are IntegratingHighpass's too (the comment there says why).
#[derive(Clone, Copy, Default)]
pub struct IntegratingComplementary {
    pub tau: f32,
    pub dt: f32,
    pub alpha: f32,
    pub y_prev: f32,
}

#[tactic(auto, unfolding(crate::specs::IntegratingComplementary::new_integrating_complementary, crate::specs::IntegratingComplementary::set_dt_integrating_complementary, crate::specs::IntegratingComplementary::set_tau_integrating_complementary, crate::specs::IntegratingComplementary::step_integrating_complementary))]
impl IntegratingComplementary {
    pub fn new(tau: f32, dt: f32) -> Self
        ensures { result ≡ new_integrating_complementary tau dt }
    {
        IntegratingComplementary {
            tau,
            dt,
            alpha: integrating::alpha(tau, dt),
            y_prev: 0.0,
        }
    }

    pub fn update(
        self,
        low_frequency: f32,
        high_frequency: f32,
    ) -> Stepped<IntegratingComplementary>
        ensures { result ≡ step_integrating_complementary self low_frequency high_frequency }
    {
        let y = low_frequency * self.alpha
            + (high_frequency * self.dt + self.y_prev) * (1.0 - self.alpha);
        let state = IntegratingComplementary { y_prev: y, ..self };
        Stepped { y, state }
    }

    pub fn set_dt(self, dt: f32) -> Self
        ensures { result ≡ set_dt_integrating_complementary self dt }
    {
        IntegratingComplementary {
            alpha: integrating::alpha(self.tau, dt),
            ..self
        }
    }

    pub fn set_tau(self, tau: f32) -> Self
        ensures { result ≡ set_tau_integrating_complementary self tau }
    {
        IntegratingComplementary {
            alpha: integrating::alpha(tau, self.dt),
            ..self
        }
    }
}
