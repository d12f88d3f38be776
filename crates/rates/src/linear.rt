// `Linear` of filters/mod.rs: the straight line a · x + b.
ghost use Rattle.std.specs.Prelude.{◌≡◌};
ghost use Rattle.rates.specs.Linear.{new_linear, linear_default, map_linear, params_of};

use crate::line;

// Kept: `rates::rates::Linear` is such a line too, under other names for its numbers and for `map`. The Rust has both types, and
// what they share is in `line`.
#[derive(Clone, Copy)]
pub struct Linear {
    pub factor: f32,
    pub offset: f32,
}

// A line's two numbers.
#[derive(Clone, Copy)]
pub struct Params(pub f32, pub f32);

// Kept: by hand, since its numbers are not all zero.
#[tactic(auto, unfolding(crate::specs::Linear::linear_default))]
impl Default for Linear {
    ghost is_default = { λ line. line ≡ linear_default };

    fn default() -> Self {
        Linear {
            factor: 1.0,
            offset: 0.0,
        }
    }
}

#[tactic(auto, unfolding(crate::specs::Linear::new_linear, crate::specs::Linear::map_linear, crate::specs::Linear::params_of))]
impl Linear {
    // The line through (in_min, out_min) and (in_max, out_max).
    pub fn new(in_min: f32, in_max: f32, out_min: f32, out_max: f32) -> Self
        ensures { result ≡ new_linear in_min in_max out_min out_max }
    {
        Linear {
            factor: line::slope(in_min, in_max, out_min, out_max),
            offset: line::offset(in_min, in_max, out_min, out_max),
        }
    }

    // Sets both numbers anew, whatever they were.
    pub fn set(self, in_min: f32, in_max: f32, out_min: f32, out_max: f32) -> Self
        ensures { result ≡ new_linear in_min in_max out_min out_max }
    {
        Linear::new(in_min, in_max, out_min, out_max)
    }

    // The same as `set`, under the Rust's second name for it.
    pub fn set_params(self, in_min: f32, in_max: f32, out_min: f32, out_max: f32) -> Self
        ensures { result ≡ new_linear in_min in_max out_min out_max }
    {
        Linear::new(in_min, in_max, out_min, out_max)
    }

    pub fn map(self, sig: f32) -> f32
        ensures { result ≡ map_linear self sig }
    {
        sig * self.factor + self.offset
    }

    pub fn params(self) -> Params
        ensures { result ≡ params_of self }
    {
        Params(self.factor, self.offset)
    }
}
