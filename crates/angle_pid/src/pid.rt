// The controller. Every call on it, when it was built by hand too, checks its ranges and its low pass's tau first.
ghost use Rattle.std.specs.Prelude.{◌≡◌, Some};
ghost use Rattle.refusal.specs.Answers.{first_refusal};
ghost use Rattle.angle_pid.specs.declared.pid.Pid.{Pid};
ghost use Rattle.angle_pid.specs.Range.{range_refusal, shifted};
ghost use Rattle.angle_pid.specs.Pid.{range, pid_refusal, ideal_gain, grown, step_pid, unless_refused, new_pid, call_with_config_pid, call_set_wrapping_pid, call_set_output_limit_pid, call_set_anti_windup_pid, call_set_lp_filter_pid, call_set_gains_pid, call_reset_integral_pid, call_reset_integral_to_pid, call_enable_integral_pid, call_enable_reset_integral_pid, call_update_ts_pid, call_update_pid};

use crate::lp_filter::{new_lp_filter, step_lp_filter, tau_refusal};
use crate::range::Range;
use filters::Lowpass;
use func::Wrapped;
use refusal::{Answer, Refusal};
use step::Stepped;

// Its default is all zero, with the switches off.
#[derive(Clone, Copy, Default)]
pub struct Pid {
    pub kp: f32,
    pub ki: f32,
    pub kd: f32,
    pub ts: f32,
    pub integral: f32,
    // Kept: a switch beside the integral, and no Option of it. The integral stays while the switch is off.
    pub integral_en: bool,
    pub prev_error: f32,
    pub wrapping: Option<Range>,
    pub output_limit: Option<Range>,
    pub anti_windup: Option<Range>,
    pub lp_filter: Option<Lowpass>,
}

// What a controller is made of: the low pass is asked for by its tau.
#[derive(Clone, Copy)]
pub struct PidConfig {
    pub kp: f32,
    pub ki: f32,
    pub kd: f32,
    // Kept: a switch of the configuration, with no value beside it.
    pub ideal: bool,
    pub wrapping: Option<Range>,
    pub output_limit: Option<Range>,
    pub anti_windup: Option<Range>,
    pub lp_filter: Option<f32>,
}

// What an update gives: refused, y is +0, the steps are 0, or 64 where they ran out, and the state is as it was.
#[derive(Clone, Copy)]
pub struct PidUpdated {
    pub y: f32,
    pub steps: u32,
    pub pid: Pid,
}

// In the ideal form the gains of the integral and the derivative are multiples of kp.
#[tactic(auto, unfolding(crate::specs::Pid::ideal_gain))]
fn gain(ideal: bool, k: f32, kp: f32) -> f32
    ensures { result ≡ ideal_gain ideal k kp }
{
    if ideal { k * kp } else { k }
}

// The integral after one step, which adds to it where it is on and P + D lies in the anti-windup range.
#[tactic(auto, unfolding(crate::specs::Pid::grown))]
fn grown(on: bool, anti_windup: Option<Range>, integral: f32, input: f32, pd: f32) -> f32
    ensures { result ≡ grown on anti_windup integral input pd }
{
    if on && anti_windup.is_none_or(|range| range.admits(pd)) {
        integral + input
    } else {
        integral
    }
}

impl Pid {
    #[tactic(auto, unfolding(crate::specs::Pid::new_pid, crate::specs::Pid::zero_pid))]
    pub fn new(kp: f32, ki: f32, kd: f32, ideal: bool, ts: f32) -> Self
        ensures { result ≡ new_pid kp ki kd ideal ts }
    {
        Pid {
            kp,
            ki: gain(ideal, ki, kp),
            kd: gain(ideal, kd, kp),
            ts,
            integral_en: true,
            ..Pid::default()
        }
    }

    // Refused, it is the all-zero controller.
    pub fn with_config(config: PidConfig, ts: f32) -> Answer<Self>
        ensures { result ≡ call_with_config_pid config ts }
    {
        let pid = Pid {
            wrapping: config.wrapping,
            output_limit: config.output_limit,
            anti_windup: config.anti_windup,
            lp_filter: new_lp_filter(config.lp_filter, ts),
            ..Pid::new(config.kp, config.ki, config.kd, config.ideal, ts)
        };
        Pid::default().keep(pid.refusal(), pid)
    }

    // The first refusal of its parts: wrapping, output limit, anti-windup, and the low pass's tau, whatever its coefficients are.
    fn refusal(self) -> Option<Refusal>
        ensures { result ≡ pid_refusal self }
    {
        self.wrapping
            .and_then(Range::refusal)
            .or(self.output_limit.and_then(Range::refusal))
            .or(self.anti_windup.and_then(Range::refusal))
            .or(self.lp_filter.and_then(|filter| tau_refusal(filter.tau)))
    }

    // The answer of a call that would make it `next`: refused, it stays.
    #[tactic(auto, unfolding(crate::specs::Pid::unless_refused))]
    fn keep(self, why: Option<Refusal>, next: Pid) -> Answer<Self>
        ensures { result ≡ unless_refused why self next }
    {
        match why {
            None => Ok(next),
            Some(refusal) => refusal.with(self),
        }
    }

    // The answer of a setter that puts this range into one of its three places.
    #[tactic(auto, using(crate::proofs::Options::or_is_first))]
    fn set_range<F: FnOnce(Option<Range>) -> Pid>(self, min: f32, max: f32, put: F) -> Answer<Self>
        requires { F.IsAlwaysCallable put }
        ensures { (next : Pid) × F.post put (Some (range min max)) next × (result ≡ unless_refused (first_refusal (pid_refusal self) (range_refusal (Some (range min max)))) self next) }
    {
        let range = Range { min, max };
        self.keep(self.refusal().or(range.refusal()), put(Some(range)))
    }

    #[tactic(auto, unfolding(crate::specs::Pid::call_set_wrapping_pid, crate::specs::Pid::with_parts))]
    pub fn set_wrapping(self, min: f32, max: f32) -> Answer<Self>
        ensures { result ≡ call_set_wrapping_pid self min max }
    {
        self.set_range(min, max, |wrapping| Pid { wrapping, ..self })
    }

    #[tactic(auto, unfolding(crate::specs::Pid::call_set_output_limit_pid, crate::specs::Pid::with_parts))]
    pub fn set_output_limit(self, min: f32, max: f32) -> Answer<Self>
        ensures { result ≡ call_set_output_limit_pid self min max }
    {
        self.set_range(
            min,
            max,
            |output_limit| Pid {
                output_limit,
                ..self
            },
        )
    }

    #[tactic(auto, unfolding(crate::specs::Pid::call_set_anti_windup_pid, crate::specs::Pid::with_parts))]
    pub fn set_anti_windup(self, min: f32, max: f32) -> Answer<Self>
        ensures { result ≡ call_set_anti_windup_pid self min max }
    {
        self.set_range(
            min,
            max,
            |anti_windup| Pid {
                anti_windup,
                ..self
            },
        )
    }

    #[tactic(auto, using(crate::proofs::Options::or_is_first), unfolding(crate::specs::Pid::call_set_lp_filter_pid, crate::specs::Pid::with_parts))]
    pub fn set_lp_filter(self, tau: f32) -> Answer<Self>
        ensures { result ≡ call_set_lp_filter_pid self tau }
    {
        let lp_filter = new_lp_filter(Some(tau), self.ts);
        self.keep(
            self.refusal().or(tau_refusal(tau)),
            Pid { lp_filter, ..self },
        )
    }

    // The gains as they are given: the controller does not remember whether it was made in the ideal form.
    #[tactic(auto, unfolding(crate::specs::Pid::call_set_gains_pid, crate::specs::Pid::set_gains_pid))]
    pub fn set_gains(self, kp: f32, ki: f32, kd: f32) -> Answer<Self>
        ensures { result ≡ call_set_gains_pid self kp ki kd }
    {
        self.keep(self.refusal(), Pid { kp, ki, kd, ..self })
    }

    #[tactic(auto, unfolding(crate::specs::Pid::call_reset_integral_pid))]
    pub fn reset_integral(self) -> Answer<Self>
        ensures { result ≡ call_reset_integral_pid self }
    {
        self.reset_integral_to(0.0)
    }

    #[tactic(auto, unfolding(crate::specs::Pid::call_reset_integral_to_pid, crate::specs::Pid::with_integral))]
    pub fn reset_integral_to(self, integral: f32) -> Answer<Self>
        ensures { result ≡ call_reset_integral_to_pid self integral }
    {
        self.keep(self.refusal(), Pid { integral, ..self })
    }

    #[tactic(auto, unfolding(crate::specs::Pid::call_enable_integral_pid, crate::specs::Pid::with_integral))]
    pub fn enable_integral(self, enable: bool) -> Answer<Self>
        ensures { result ≡ call_enable_integral_pid self enable }
    {
        self.keep(
            self.refusal(),
            Pid {
                integral_en: enable,
                ..self
            },
        )
    }

    #[tactic(auto, unfolding(crate::specs::Pid::call_enable_reset_integral_pid, crate::specs::Pid::with_integral))]
    pub fn enable_reset_integral(self, enable: bool) -> Answer<Self>
        ensures { result ≡ call_enable_reset_integral_pid self enable }
    {
        self.keep(
            self.refusal(),
            Pid {
                integral_en: enable,
                integral: 0.0,
                ..self
            },
        )
    }

    // x, one width further where the error jumped out of the wrapping's range.
    fn shifted(self, jump: f32, x: f32) -> f32
        ensures { result ≡ shifted self.wrapping jump x }
    {
        self.wrapping.map_or(x, |range| range.shift(jump, x))
    }

    // One step on an error that is wrapped already: P, D and its low pass, the integral, and the limit on their sum.
    fn step(self, error: f32, ts: f32) -> Stepped<Self>
        ensures { result ≡ step_pid self error ts }
    {
        let jump = error - self.prev_error;
        let prev_error = self.shifted(jump, self.prev_error);
        let integral = self.shifted(jump, self.integral);
        let p = self.kp * error;
        let raw = self.kd * (error - prev_error) / ts;
        let d = step_lp_filter(self.lp_filter, raw);
        let input = self.ki * error * ts;
        let integral = grown(self.integral_en, self.anti_windup, integral, input, p + d.y);
        let sum = p + integral + d.y;
        Stepped {
            y: self.output_limit.map_or(sum, |range| range.limit(sum)),
            state: Pid {
                integral,
                prev_error: error,
                lp_filter: d.state,
                ..self
            },
        }
    }

    #[tactic(auto, unfolding(crate::specs::Pid::call_update_ts_pid, crate::specs::Pid::after_wrap))]
    pub fn update_ts(self, error: f32, ts: f32) -> Answer<PidUpdated>
        ensures { result ≡ call_update_ts_pid self error ts }
    {
        let as_it_was = PidUpdated {
            y: 0.0,
            steps: 0,
            pid: self,
        };
        if let Some(refusal) = self.refusal() {
            return refusal.with(as_it_was);
        }
        let unwrapped = Wrapped {
            value: error,
            steps: 0,
        };
        match self
            .wrapping
            .map_or(Ok(unwrapped), |range| range.wrap(error))
        {
            Ok(Wrapped { value, steps }) => {
                let next = self.step(value, ts);
                Ok(PidUpdated {
                    y: next.y,
                    steps,
                    pid: next.state,
                })
            }
            Err(refused) => refused.refusal.with(PidUpdated {
                steps: refused.answer.steps,
                ..as_it_was
            }),
        }
    }

    #[tactic(auto, unfolding(crate::specs::Pid::call_update_pid))]
    pub fn update(self, error: f32) -> Answer<PidUpdated>
        ensures { result ≡ call_update_pid self error }
    {
        self.update_ts(error, self.ts)
    }
}
