// A first order low pass. It accepts every number. In memory the two coefficients stand apart, for speed (docs/DECISIONS.md).
ghost use Rattle.std.specs.Prelude.{◌≡◌};
ghost use Rattle.filters.specs.Lowpass.{alpha0_of, lowpass_of, new_lowpass, set_dt_lowpass, set_tau_lowpass, step_lowpass};

use step::Stepped;

#[derive(Clone, Copy, Default)]
pub struct Lowpass {
    pub y: f32,
    pub alpha0: f32,
    pub tau: f32,
    pub alpha1: f32,
    pub dt: f32,
}

// Where tau + dt is zero, the quotient would be NaN or an infinity.
#[tactic(auto, unfolding(crate::specs::Lowpass::alpha0_of))]
fn alpha0(tau: f32, dt: f32) -> f32
    ensures { result ≡ alpha0_of tau dt }
{
    let sum = tau + dt;
    if sum == 0.0 { 1.0 } else { dt / sum }
}

#[tactic(auto, unfolding(crate::specs::Lowpass::lowpass_of, crate::specs::Lowpass::new_lowpass, crate::specs::Lowpass::set_dt_lowpass, crate::specs::Lowpass::set_tau_lowpass, crate::specs::Lowpass::step_lowpass))]
impl Lowpass {
    // The one place that makes the coefficients.
    fn with(tau: f32, dt: f32, y: f32) -> Self
        ensures { result ≡ lowpass_of tau dt y }
    {
        let alpha0 = alpha0(tau, dt);
        let alpha1 = 1.0 - alpha0;
        Lowpass {
            tau,
            dt,
            y,
            alpha0,
            alpha1,
        }
    }

    pub fn new(tau: f32, dt: f32) -> Self
        ensures { result ≡ new_lowpass tau dt }
    {
        Lowpass::with(tau, dt, 0.0)
    }

    pub fn set_dt(self, dt: f32) -> Self
        ensures { result ≡ set_dt_lowpass self dt }
    {
        Lowpass::with(self.tau, dt, self.y)
    }

    pub fn set_tau(self, tau: f32) -> Self
        ensures { result ≡ set_tau_lowpass self tau }
    {
        Lowpass::with(tau, self.dt, self.y)
    }

    pub fn update(self, x: f32) -> Stepped<Lowpass>
        ensures { result ≡ step_lowpass self x }
    {
        let y = self.alpha0 * x + self.alpha1 * self.y;
        let state = Lowpass { y, ..self };
        Stepped { y, state }
    }
}
