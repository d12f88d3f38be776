// rates.rs: the curves that a stick's position goes through.
ghost use Rattle.std.specs.Prelude.{◌≡◌};
ghost use Rattle.rates.specs.Rates.{rates_default, actual_default, linear_curve_default, rates_of, apply_rates, apply_actual, new_linear_curve, apply_linear_curve};

use crate::line;

// A curve: none, one with an "expo" response, or a straight line.
#[derive(Clone, Copy)]
pub enum Rates {
    Identity,
    Actual { rate: f32, expo: f32, cent: f32 },
    Linear { fact: f32, offs: f32 },
}

// The numbers of an `Actual` curve: the rate of change at full deflection, how far its effect is pushed from the centre, and the
// rate of change around the centre.
#[derive(Clone, Copy)]
pub struct Actual {
    pub rate: f32,
    pub expo: f32,
    pub cent: f32,
}

// The numbers of a `Linear` curve, fact · x + offs.
// Kept: the Rust has this type and `rates::linear::Linear` (the comment there says more).
#[derive(Clone, Copy)]
pub struct Linear {
    pub fact: f32,
    pub offs: f32,
}

// Kept: by hand, so that its contract is the definition.
#[tactic(auto, unfolding(crate::specs::Rates::rates_default))]
impl Default for Rates {
    ghost is_default = { λ curve. curve ≡ rates_default };

    fn default() -> Self {
        Rates::Identity
    }
}

#[tactic(auto, unfolding(crate::specs::Rates::rates_of))]
impl From<Actual> for Rates {
    ghost from_gives = { λ actual curve. curve ≡ rates_of actual };

    fn from(actual: Actual) -> Self {
        Rates::Actual {
            rate: actual.rate,
            expo: actual.expo,
            cent: actual.cent,
        }
    }
}

#[tactic(auto, unfolding(crate::specs::Rates::apply_rates))]
impl Rates {
    pub fn apply(self, input: f32) -> f32
        ensures { result ≡ apply_rates self input }
    {
        match self {
            Rates::Identity => input,
            Rates::Actual { rate, expo, cent } => Actual { rate, expo, cent }.apply(input),
            Rates::Linear { fact, offs } => Linear { fact, offs }.apply(input),
        }
    }
}

// Kept: by hand, since its numbers are not all zero.
#[tactic(auto, unfolding(crate::specs::Rates::actual_default))]
impl Default for Actual {
    ghost is_default = { λ curve. curve ≡ actual_default };

    fn default() -> Self {
        Actual {
            rate: 20.0,
            expo: 0.5,
            cent: 5.0,
        }
    }
}

#[tactic(auto, unfolding(crate::specs::Rates::apply_actual))]
impl Actual {
    pub fn apply(self, val: f32) -> f32
        ensures { result ≡ apply_actual self val }
    {
        self.cent * val
            + (self.rate - self.cent)
                * (float::abs(val) * (float::powi5(val) * self.expo + val * (1.0 - self.expo)))
    }
}

// Kept: by hand, since its numbers are not all zero.
#[tactic(auto, unfolding(crate::specs::Rates::linear_curve_default))]
impl Default for Linear {
    ghost is_default = { λ line. line ≡ linear_curve_default };

    fn default() -> Self {
        Linear {
            fact: 1.0,
            offs: 0.0,
        }
    }
}

#[tactic(auto, unfolding(crate::specs::Rates::new_linear_curve, crate::specs::Rates::apply_linear_curve))]
impl Linear {
    // The line through (in_min, out_min) and (in_max, out_max).
    pub fn new(in_min: f32, in_max: f32, out_min: f32, out_max: f32) -> Self
        ensures { result ≡ new_linear_curve in_min in_max out_min out_max }
    {
        Linear {
            fact: line::slope(in_min, in_max, out_min, out_max),
            offs: line::offset(in_min, in_max, out_min, out_max),
        }
    }

    // Sets both numbers anew, whatever they were.
    pub fn set(self, in_min: f32, in_max: f32, out_min: f32, out_max: f32) -> Self
        ensures { result ≡ new_linear_curve in_min in_max out_min out_max }
    {
        Linear::new(in_min, in_max, out_min, out_max)
    }

    // The same as `set`, under the Rust's second name for it.
    pub fn set_params(self, in_min: f32, in_max: f32, out_min: f32, out_max: f32) -> Self
        ensures { result ≡ new_linear_curve in_min in_max out_min out_max }
    {
        Linear::new(in_min, in_max, out_min, out_max)
    }

    pub fn apply(self, val: f32) -> f32
        ensures { result ≡ apply_linear_curve self val }
    {
        val * self.fact + self.offs
    }
}
