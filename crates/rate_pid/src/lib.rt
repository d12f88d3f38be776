// rate_pid.rs: the rate controller of the innermost loop. A state is given by value and handed back; `update_in_place`
// changes one where it lies. Every call, on a state built by hand too, refuses a stored slew limit that has a negative
// sign or is NaN, and leaves the state as it was; but for `advance`, which takes the limiter off, and the tests `bad` and
// `unlimited`.
#![tactic(auto)]

ghost use Rattle.std.specs.Prelude.{◌≡◌, false, None, cond, ◌&&◌};
ghost use Rattle.std.specs.Float.Ieee.{lt};
ghost use Rattle.float.specs.F32 as F;
ghost use Rattle.float.specs.Float.{abs_f, clamp_f};
ghost use Rattle.rate_pid.specs.Slew.{bad_slew, step_slew};
ghost use Rattle.rate_pid.specs.RatePid.{zero_terms, zero_rate_pid, total_of, calm, integrated, bad_rate_pid, changed_rate_pid, guarded, slewed_of, with_slew, new_rate_pid, step_rate_pid, call_slew_rate_pid, call_set_ts_rate_pid, call_set_gains_rate_pid, call_enable_integral_rate_pid, call_reset_integral_rate_pid, call_enable_reset_integral_rate_pid, call_update_rate_pid, call_get_terms_rate_pid, unlimited_rate_pid, summed, advanced};

use filters::{Lowpass, NthOrderLowpass, SlewRate};
use refusal::{Answer, Refusal};
use step::Stepped;

// The numbers that the last update added up.
#[derive(Clone, Copy, Default)]
pub struct PidTerms {
    pub p_out: f32,
    pub i_out: f32,
    pub dr_out: f32,
    pub dm_out: f32,
}

// The Rust's max_integral is always 1, and is no field here. A number that an update changes stands between two that it
// does not: side by side, the compiler would keep them as one vector, and each would wait for the slowest of them.
#[derive(Clone, Copy, Default)]
pub struct RatePid {
    pub kp: f32,
    pub integral: f32,
    pub ki: f32,
    pub prev_meas: f32,
    pub kd: f32,
    pub prev_ref: f32,
    pub dt: f32,
    pub terms: PidTerms,
    // Kept: a switch beside the integral, and no Option of it. The integral stays while the switch is off.
    pub integral_en: bool,
    pub lowpass: Lowpass,
    pub d_lowpass: NthOrderLowpass,
    pub d_slew: Option<SlewRate>,
}

// What an update gives: refused, the value is +0 and the state as it was. The value is apart from the state, since the
// update in place gives the value alone.
#[derive(Clone, Copy)]
pub struct Updated {
    pub answer: Answer<f32>,
    pub pid: RatePid,
}

// What an update makes of the integral and of the damping filter.
#[derive(Clone, Copy)]
struct Integrated {
    integral: f32,
    lowpass: Lowpass,
}

// The size of a number is below 1. Two tests say it without the size.
#[tactic(auto, using(crate::specs::RatePidLaws::abs_below_one))]
fn small(x: f32) -> bool
    ensures { result ≡ lt (abs_f x) F.one }
{
    -1.0 < x && x < 1.0
}

// One of two numbers. Both are worked out before it is known which: the compiler makes no jump of it.
fn pick(first: bool, a: f32, b: f32) -> f32
    ensures { result ≡ cond first a b }
{
    if first { a } else { b }
}

fn at_least_minus_one(x: f32) -> f32
    ensures { result ≡ cond (lt x F.minus_one) F.minus_one x }
{
    if x < -1.0 { -1.0 } else { x }
}

// Clamped to -1 and 1. The second test is of what the first gives, so that the compiler makes one instruction of each.
fn clamp_to_one(x: f32) -> f32
    ensures { result ≡ clamp_f x F.minus_one F.one }
{
    let low = at_least_minus_one(x);
    if low > 1.0 { 1.0 } else { low }
}

// The integral may move. NaN is never calm. All three are asked in any case, so that none becomes a jump.
#[tactic(auto, unfolding(crate::specs::RatePid::calm))]
fn calm(on: bool, filtered: f32, slewed: f32) -> bool
    ensures { result ≡ calm on filtered slewed }
{
    let filtered_small = small(filtered);
    let slewed_small = small(slewed);
    on && filtered_small && slewed_small
}

// The reference as the limiter lets it through, and the limiter after it. The controller tests the limit before.
#[tactic(auto, using(filters::specs::SlewRateLaws::update_slew_accepted), unfolding(crate::specs::Slew::step_slew, crate::specs::Slew::bad_slew))]
fn slewed(slew: Option<SlewRate>, reference: f32) -> Stepped<Option<SlewRate>>
    requires { bad_slew slew ≡ false }
    ensures { result ≡ step_slew slew reference }
{
    match slew {
        None => Stepped {
            y: reference,
            state: None,
        },
        Some(limiter) => {
            let next = refusal::given(limiter.update(reference));
            Stepped {
                y: next.y,
                state: Some(next.state),
            }
        }
    }
}

impl PidTerms {
    #[tactic(auto, unfolding(crate::specs::RatePid::total_of))]
    fn total(self) -> f32
        ensures { result ≡ total_of self }
    {
        self.p_out + self.i_out + self.dr_out + self.dm_out
    }
}

impl RatePid {
    // The one check of a state: its stored slew limit is bad.
    #[tactic(auto, unfolding(crate::specs::RatePid::bad_rate_pid, crate::specs::Slew::bad_slew))]
    pub fn bad(self) -> bool
        ensures { result ≡ bad_rate_pid self }
    {
        match self.d_slew {
            None => false,
            Some(limiter) => filters::bad_limit(limiter.rate_limit),
        }
    }

    // What the integral and the damping filter become if they move is worked out in any case, and kept only if they do.
    #[tactic(auto, unfolding(crate::specs::RatePid::integrated, crate::specs::RatePid::grown_of, crate::specs::RatePid::damping_of, crate::specs::RatePid::damped_of, filters::specs::Lowpass::step_lowpass))]
    fn integrate(self, moves: bool, derivative: f32, error: f32) -> Integrated
        ensures { result ≡ integrated self moves derivative error }
    {
        let damped = self.lowpass.update(float::abs(derivative));
        let damping = 1.0 + damped.y;
        let sum = self.integral + self.ki * error * self.dt / damping;
        let grown = clamp_to_one(sum);
        let integral = pick(moves, grown, self.integral);
        let y = pick(moves, damped.y, self.lowpass.y);
        Integrated {
            integral,
            lowpass: Lowpass { y, ..self.lowpass },
        }
    }

    // An update with the reference as the limiter lets it through, but for the limiter itself. P goes by the raw reference,
    // the derivative and the calm test by the slewed one.
    // Kept: the three numbers of an update are passed apart, as the Rust's call takes them.
    #[tactic(auto, unfolding(crate::specs::RatePid::step_rate_pid, crate::specs::RatePid::terms_of, crate::specs::RatePid::integrated_of, crate::specs::RatePid::calm_of, crate::specs::RatePid::filtered_of, crate::specs::RatePid::ref_derivative_of, crate::specs::RatePid::meas_derivative_of, crate::specs::RatePid::d_gain_of, crate::specs::RatePid::with_slew, crate::specs::RatePid::summed))]
    fn follow(
        self,
        slewed: f32,
        reference: f32,
        measurement: f32,
        prediction: f32,
    ) -> Stepped<RatePid>
        requires { slewed ≡ slewed_of self reference }
        ensures { result ≡ summed (with_slew (step_rate_pid self reference measurement prediction) self.d_slew) }
    {
        let passed = self.d_lowpass.update(measurement);
        let measurement_lp = passed.y;
        let d_gain = self.kd / self.dt;
        let ref_derivative = d_gain * (slewed - self.prev_ref);
        let meas_derivative = d_gain * (self.prev_meas - measurement_lp);
        let moves = calm(self.integral_en, measurement_lp, slewed);
        let next = self.integrate(moves, meas_derivative, prediction - measurement);
        let terms = PidTerms {
            p_out: self.kp * (reference - measurement),
            i_out: next.integral,
            dr_out: ref_derivative,
            dm_out: meas_derivative,
        };
        let y = terms.total();
        let state = RatePid {
            integral: next.integral,
            prev_meas: measurement_lp,
            prev_ref: slewed,
            terms,
            lowpass: next.lowpass,
            d_lowpass: passed.state,
            ..self
        };
        Stepped { y, state }
    }

    // An update of a state that is not bad.
    #[tactic(auto, unfolding(crate::specs::RatePid::bad_rate_pid, crate::specs::RatePid::slewed_of, crate::specs::RatePid::summed, crate::specs::RatePid::step_rate_pid, crate::specs::RatePid::with_slew))]
    fn step(self, reference: f32, measurement: f32, prediction: f32) -> Stepped<RatePid>
        requires { bad_rate_pid self ≡ false }
        ensures { result ≡ summed (step_rate_pid self reference measurement prediction) }
    {
        let limited = slewed(self.d_slew, reference);
        let next = self.follow(limited.y, reference, measurement, prediction);
        let state = RatePid {
            d_slew: limited.state,
            ..next.state
        };
        Stepped { y: next.y, state }
    }

    // There is no limiter.
    #[tactic(auto, unfolding(crate::specs::RatePid::unlimited_rate_pid, crate::specs::Slew::is_off))]
    pub fn unlimited(self) -> bool
        ensures { result ≡ unlimited_rate_pid self }
    {
        self.d_slew.is_none()
    }

    // An update of the state with its limiter, if it has one, taken off: it cannot be refused, and there is no test in it that
    // the compiler must make a jump of.
    #[tactic(auto, unfolding(crate::specs::RatePid::advanced, crate::specs::RatePid::summed, crate::specs::RatePid::with_slew, crate::specs::RatePid::slewed_of, crate::specs::Slew::step_slew, crate::specs::RatePid::step_rate_pid))]
    pub fn advance(self, reference: f32, measurement: f32, prediction: f32) -> Stepped<RatePid>
        ensures { result ≡ advanced self reference measurement prediction }
    {
        let bare = RatePid {
            d_slew: None,
            ..self
        };
        bare.follow(reference, reference, measurement, prediction)
    }

    // The all-zero state with its switches off. Nothing made by `new` is like it: there the integral is on.
    // Kept: a public name beside `default`.
    #[tactic(auto, unfolding(crate::specs::RatePid::zero_rate_pid, crate::specs::RatePid::zero_lowpass, crate::specs::RatePid::zero_terms))]
    pub fn zero() -> Self
        ensures { result ≡ zero_rate_pid }
    {
        RatePid::default()
    }

    // Nothing given here is refused. The integral is on.
    #[tactic(auto, unfolding(crate::specs::RatePid::new_rate_pid, crate::specs::RatePid::zero_rate_pid))]
    pub fn new(kp: f32, ki: f32, kd: f32, tau: f32, dt: f32) -> Self
        ensures { result ≡ new_rate_pid kp ki kd tau dt }
    {
        RatePid {
            kp,
            ki,
            kd: kd * kp,
            dt,
            integral_en: true,
            lowpass: Lowpass::new(tau * 10.0, dt),
            d_lowpass: NthOrderLowpass::new(tau, dt),
            ..RatePid::zero()
        }
    }

    // What `slew` and the setters give: the state that they make or, where the stored limit is bad, the state as it was.
    #[tactic(auto, unfolding(crate::specs::RatePid::guarded))]
    fn keep(self, next: RatePid) -> Answer<RatePid>
        ensures { result ≡ guarded self (changed_rate_pid None next) }
    {
        if self.bad() {
            return Refusal::Slew.with(self);
        }
        Ok(next)
    }

    // A bad limit given is refused as a bad limit stored is: it does not matter which of the two is tested first.
    #[tactic(auto, unfolding(crate::specs::RatePid::call_slew_rate_pid, crate::specs::RatePid::slew_rate_pid, crate::specs::RatePid::with_slew, crate::specs::RatePid::guarded, filters::specs::SlewRate::call_new_slew_rate))]
    pub fn slew(self, limit: f32) -> Answer<RatePid>
        ensures { result ≡ call_slew_rate_pid self limit }
    {
        match SlewRate::new(limit, self.dt) {
            Ok(limiter) => self.keep(RatePid {
                d_slew: Some(limiter),
                ..self
            }),
            Err(refused) => refused.refusal.with(self),
        }
    }

    // The damping filter keeps its sample time.
    #[tactic(auto, unfolding(crate::specs::RatePid::call_set_ts_rate_pid, crate::specs::RatePid::set_ts_rate_pid, crate::specs::Slew::set_dt_slew, filters::specs::SlewRate::set_dt_slew_rate))]
    pub fn set_ts(self, ts: f32) -> Answer<RatePid>
        ensures { result ≡ call_set_ts_rate_pid self ts }
    {
        self.keep(RatePid {
            dt: ts,
            d_lowpass: self.d_lowpass.set_dt(ts),
            d_slew: self.d_slew.map(|limiter| SlewRate { dt: ts, ..limiter }),
            ..self
        })
    }

    #[tactic(auto, unfolding(crate::specs::RatePid::call_set_gains_rate_pid, crate::specs::RatePid::set_gains_rate_pid))]
    pub fn set_gains(self, kp: f32, ki: f32, kd: f32) -> Answer<RatePid>
        ensures { result ≡ call_set_gains_rate_pid self kp ki kd }
    {
        let kd = kd * kp;
        self.keep(RatePid { kp, ki, kd, ..self })
    }

    #[tactic(auto, unfolding(crate::specs::RatePid::call_enable_integral_rate_pid, crate::specs::RatePid::enable_integral_rate_pid))]
    pub fn enable_integral(self, enable: bool) -> Answer<RatePid>
        ensures { result ≡ call_enable_integral_rate_pid self enable }
    {
        self.keep(RatePid {
            integral_en: enable,
            ..self
        })
    }

    #[tactic(auto, unfolding(crate::specs::RatePid::call_reset_integral_rate_pid, crate::specs::RatePid::reset_integral_rate_pid))]
    pub fn reset_integral(self) -> Answer<RatePid>
        ensures { result ≡ call_reset_integral_rate_pid self }
    {
        self.keep(RatePid {
            integral: 0.0,
            ..self
        })
    }

    #[tactic(auto, unfolding(crate::specs::RatePid::call_enable_reset_integral_rate_pid, crate::specs::RatePid::enable_integral_rate_pid, crate::specs::RatePid::reset_integral_rate_pid))]
    pub fn enable_reset_integral(self, enable: bool) -> Answer<RatePid>
        ensures { result ≡ call_enable_reset_integral_rate_pid self enable }
    {
        self.keep(RatePid {
            integral_en: enable,
            integral: 0.0,
            ..self
        })
    }

    #[tactic(auto, unfolding(crate::specs::RatePid::call_update_rate_pid, crate::specs::RatePid::summed))]
    pub fn update(self, reference: f32, measurement: f32, prediction: f32) -> Updated
        ensures { result ≡ call_update_rate_pid self reference measurement prediction }
    {
        if self.bad() {
            return Updated {
                answer: Refusal::Slew.with(0.0),
                pid: self,
            };
        }
        let next = self.step(reference, measurement, prediction);
        Updated {
            answer: Ok(next.y),
            pid: next.state,
        }
    }

    // Refused, the four numbers are +0.
    #[tactic(auto, unfolding(crate::specs::RatePid::call_get_terms_rate_pid, crate::specs::RatePid::zero_terms))]
    pub fn get_terms(self) -> Answer<PidTerms>
        ensures { result ≡ call_get_terms_rate_pid self }
    {
        if self.bad() {
            return Refusal::Slew.with(PidTerms::default());
        }
        Ok(self.terms)
    }
}

// The controller is changed where it lies, as the Rust's is.
pub fn update_in_place(
    pid: &mut RatePid,
    reference: f32,
    measurement: f32,
    prediction: f32,
) -> Answer<f32>
    ensures { (result ≡ (call_update_rate_pid pid.old reference measurement prediction).answer) × (pid.new ≡ (call_update_rate_pid pid.old reference measurement prediction).pid) }
{
    let next = pid.update(reference, measurement, prediction);
    *pid = next.pid;
    next.answer
}
