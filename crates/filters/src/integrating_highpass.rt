// A high pass that integrates its input. Its setters change alpha only: the stored dt and tau stay as constructed, as
// the Rust has it.
ghost use Rattle.std.specs.Prelude.{◌≡◌};
ghost use Rattle.filters.specs.IntegratingHighpass.{new_integrating_highpass, set_dt_integrating_highpass, set_tau_integrating_highpass, step_integrating_highpass};

use crate::integrating;
use step::Stepped;

// Kept: IntegratingHighpass and IntegratingComplementary have the same fields and setters. Each is a type of its own that is
// built by hand, with an `update` of its own; a trait with the setters would ask for its fields' names, and be no shorter.
#[derive(Clone, Copy, Default)]
pub struct IntegratingHighpass {
    pub tau: f32,
    pub dt: f32,
    pub alpha: f32,
    pub y_prev: f32,
}

#[tactic(auto, unfolding(crate::specs::IntegratingHighpass::new_integrating_highpass, crate::specs::IntegratingHighpass::set_dt_integrating_highpass, crate::specs::IntegratingHighpass::set_tau_integrating_highpass, crate::specs::IntegratingHighpass::step_integrating_highpass))]
impl IntegratingHighpass {
    pub fn new(tau: f32, dt: f32) -> Self
        ensures { result ≡ new_integrating_highpass tau dt }
    {
        IntegratingHighpass {
            tau,
            dt,
            alpha: integrating::alpha(tau, dt),
            y_prev: 0.0,
        }
    }

    pub fn update(self, x: f32) -> Stepped<IntegratingHighpass>
        ensures { result ≡ step_integrating_highpass self x }
    {
        let y = (x * self.dt + self.y_prev) * self.alpha;
        let state = IntegratingHighpass { y_prev: y, ..self };
        Stepped { y, state }
    }

    pub fn set_dt(self, dt: f32) -> Self
        ensures { result ≡ set_dt_integrating_highpass self dt }
    {
        IntegratingHighpass {
            alpha: integrating::alpha(self.tau, dt),
            ..self
        }
    }

    pub fn set_tau(self, tau: f32) -> Self
        ensures { result ≡ set_tau_integrating_highpass self tau }
    {
        IntegratingHighpass {
            alpha: integrating::alpha(tau, self.dt),
            ..self
        }
    }
}
