// A first order high pass; the Rust has it for Complementary alone. It accepts every number.
ghost use Rattle.std.specs.Prelude.{◌≡◌};
ghost use Rattle.filters.specs.Highpass.{highpass_of, new_highpass, set_dt_highpass, set_tau_highpass, step_highpass};

use step::Stepped;

#[derive(Clone, Copy, Default)]
pub struct Highpass {
    pub tau: f32,
    pub dt: f32,
    pub y: f32,
    pub x_prev: f32,
    pub alpha: f32,
}

#[tactic(auto, unfolding(crate::specs::Highpass::highpass_of, crate::specs::Highpass::new_highpass, crate::specs::Highpass::set_dt_highpass, crate::specs::Highpass::set_tau_highpass, crate::specs::Highpass::step_highpass))]
impl Highpass {
    // The one place that makes the coefficient.
    fn with(tau: f32, dt: f32, y: f32, x_prev: f32) -> Self
        ensures { result ≡ highpass_of tau dt y x_prev }
    {
        let alpha = tau / (tau + dt);
        Highpass {
            tau,
            dt,
            y,
            x_prev,
            alpha,
        }
    }

    pub fn new(tau: f32, dt: f32) -> Self
        ensures { result ≡ new_highpass tau dt }
    {
        Highpass::with(tau, dt, 0.0, 0.0)
    }

    pub fn set_dt(self, dt: f32) -> Self
        ensures { result ≡ set_dt_highpass self dt }
    {
        Highpass::with(self.tau, dt, self.y, self.x_prev)
    }

    pub fn set_tau(self, tau: f32) -> Self
        ensures { result ≡ set_tau_highpass self tau }
    {
        Highpass::with(tau, self.dt, self.y, self.x_prev)
    }

    pub fn update(self, x: f32) -> Stepped<Highpass>
        ensures { result ≡ step_highpass self x }
    {
        let y = self.alpha * self.y + self.alpha * (x - self.x_prev);
        let state = Highpass {
            y,
            x_prev: x,
            ..self
        };
        Stepped { y, state }
    }
}
