// statistics.rs: a running mean and variance that forget old samples.
#![tactic(auto)]

ghost use Rattle.std.specs.Prelude.{◌≡◌};
ghost use Rattle.statistics.specs.Statistics.{bad_alpha, call_new_statistics, sampled, call_add_sample, call_mean_var, call_std_dev};

use refusal::{Answer, Refusal};

#[derive(Clone, Copy, Debug, Default, PartialEq)]
pub struct Statistics {
    // Kept: a flag beside the numbers, and no Option of them. A state built by hand holds numbers that are not in use yet, and shows them.
    pub initialized: bool,
    pub alpha: f32,
    pub mean: f32,
    pub variance: f32,
}

#[derive(Clone, Copy, Debug, Default, PartialEq)]
pub struct MeanVar {
    pub mean: f32,
    pub variance: f32,
}

fn bad_alpha(alpha: f32) -> bool
    ensures { result ≡ bad_alpha alpha }
{
    !(alpha > 0.0 && alpha <= 1.0)
}

impl Statistics {
    // Refused, the state is all-zero.
    pub fn new(alpha: f32) -> Answer<Statistics>
        ensures { result ≡ call_new_statistics alpha }
    {
        if bad_alpha(alpha) {
            return Refusal::Alpha.with(Statistics::default());
        }
        Ok(Statistics {
            alpha,
            ..Statistics::default()
        })
    }

    fn sampled(self, sample: f32) -> Statistics
        ensures { result ≡ sampled self sample }
    {
        if !self.initialized {
            return Statistics {
                initialized: true,
                mean: sample,
                variance: 0.0,
                ..self
            };
        }
        let delta = sample - self.mean;
        Statistics {
            mean: self.mean + delta * self.alpha,
            variance: (self.variance + delta * delta * self.alpha) * (1.0 - self.alpha),
            ..self
        }
    }

    // Refused, the state is as it was.
    pub fn add_sample(self, sample: f32) -> Answer<Statistics>
        ensures { result ≡ call_add_sample self sample }
    {
        if bad_alpha(self.alpha) {
            return Refusal::Alpha.with(self);
        }
        Ok(self.sampled(sample))
    }

    pub fn mean_var(self) -> Answer<MeanVar>
        ensures { result ≡ call_mean_var self }
    {
        if bad_alpha(self.alpha) {
            return Refusal::Alpha.with(MeanVar::default());
        }
        Ok(MeanVar {
            mean: self.mean,
            variance: self.variance,
        })
    }

    pub fn std_dev(self) -> Answer<f32>
        ensures { result ≡ call_std_dev self }
    {
        if bad_alpha(self.alpha) {
            return Refusal::Alpha.with(0.0);
        }
        Ok(root::sqrt(self.variance))
    }
}
