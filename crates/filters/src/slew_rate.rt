// A limiter of how fast a signal moves. Every call, on a state built by hand too, refuses a limit that has a negative
// sign or is NaN.
ghost use Rattle.std.specs.Prelude.{◌≡◌};
ghost use Rattle.filters.specs.SlewRate.{bad_limit, call_new_slew_rate, call_set_dt_slew_rate, call_update_slew_rate};

use refusal::{Answer, Refusal};
use step::Stepped;

#[derive(Clone, Copy, Default)]
pub struct SlewRate {
    pub rate_limit: f32,
    pub signal: f32,
    pub dt: f32,
}

// A limit of -0 has a negative sign.
#[tactic(auto, unfolding(crate::specs::SlewRate::bad_limit))]
pub fn bad_limit(limit: f32) -> bool
    ensures { result ≡ bad_limit limit }
{
    float::is_nan(limit) || float::is_sign_negative(limit)
}

#[tactic(auto, unfolding(crate::specs::SlewRate::call_new_slew_rate, crate::specs::SlewRate::call_set_dt_slew_rate, crate::specs::SlewRate::call_update_slew_rate, crate::specs::SlewRate::set_dt_slew_rate, crate::specs::SlewRate::step_slew_rate, crate::specs::SlewRate::slew_change))]
impl SlewRate {
    // Refused, the state is all zero.
    pub fn new(rate_limit: f32, dt: f32) -> Answer<SlewRate>
        ensures { result ≡ call_new_slew_rate rate_limit dt }
    {
        if bad_limit(rate_limit) {
            return Refusal::Slew.with(SlewRate::default());
        }
        Ok(SlewRate {
            rate_limit,
            signal: 0.0,
            dt,
        })
    }

    // Refused, y is +0 and the state is as it was.
    pub fn update(self, input: f32) -> Answer<Stepped<SlewRate>>
        ensures { result ≡ call_update_slew_rate self input }
    {
        if bad_limit(self.rate_limit) {
            return Refusal::Slew.with(Stepped {
                y: 0.0,
                state: self,
            });
        }
        let low = -self.rate_limit * self.dt;
        let high = self.rate_limit * self.dt;
        let change = float::min(float::max(input - self.signal, low), high);
        let y = self.signal + change;
        let state = SlewRate { signal: y, ..self };
        Ok(Stepped { y, state })
    }

    // Refused, the state is as it was.
    pub fn set_dt(self, dt: f32) -> Answer<SlewRate>
        ensures { result ≡ call_set_dt_slew_rate self dt }
    {
        if bad_limit(self.rate_limit) {
            return Refusal::Slew.with(self);
        }
        Ok(SlewRate { dt, ..self })
    }
}
