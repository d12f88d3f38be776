// The Rust's `Wrapping`, `OutputLimit` and `AntiWindup`: one kind of range. A controller has an Option of each.
ghost use Rattle.std.specs.Prelude.{◌≡◌, Some};
ghost use Rattle.angle_pid.specs.Range.{range_refusal, wrap_error, shifted, admits, limited};

use func::Wrapped;
use refusal::{Answer, Refusal};

#[derive(Clone, Copy, Default)]
pub struct Range {
    pub min: f32,
    pub max: f32,
}

impl Range {
    #[tactic(auto, unfolding(crate::specs::Range::range_refusal))]
    pub(crate) fn refusal(self) -> Option<Refusal>
        ensures { result ≡ range_refusal (Some self) }
    {
        if self.min < self.max {
            None
        } else {
            Some(Refusal::Range)
        }
    }

    // The range is closed: unlike `wrap`, the controller leaves an error of max where it is.
    #[tactic(auto, unfolding(crate::specs::Range::wrap_error))]
    pub(crate) fn wrap(self, error: f32) -> Answer<Wrapped>
        ensures { result ≡ wrap_error (Some self) error }
    {
        func::wrap_by(error, self.min, self.max, true)
    }

    // x, one width to the side to which the error jumped out of the range.
    #[tactic(auto, unfolding(crate::specs::Range::shifted))]
    pub(crate) fn shift(self, jump: f32, x: f32) -> f32
        ensures { result ≡ shifted (Some self) jump x }
    {
        let width = self.max - self.min;
        if jump < self.min {
            x - width
        } else if jump > self.max {
            x + width
        } else {
            x
        }
    }

    // Strictly between: at either end the integral stands still.
    #[tactic(auto, unfolding(crate::specs::Range::admits))]
    pub(crate) fn admits(self, pd: f32) -> bool
        ensures { result ≡ admits (Some self) pd }
    {
        pd > self.min && pd < self.max
    }

    // NaN passes.
    #[tactic(auto, unfolding(crate::specs::Range::limited))]
    pub(crate) fn limit(self, x: f32) -> f32
        ensures { result ≡ limited (Some self) x }
    {
        float::clamp(x, self.min, self.max)
    }
}
