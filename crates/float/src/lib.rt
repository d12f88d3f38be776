// What Rust has as methods of f32, as document 01's section 'Arithmetic' fixes it: each for every f32, zeros of either
// sign, infinities and NaN included.
// Kept: functions of our own, as document 01 asks: std leaves open, or requires away, what it fixes of zeros and NaN in max, min and clamp
// and of the products in powi, and the rest stand beside these.
#![tactic(auto)]

ghost use Rattle.std.specs.Prelude.{◌≡◌, cond};
ghost use Rattle.std.specs.Float.{binary32};
ghost use Rattle.std.specs.Float.Ieee.{is_nan, of_bits, to_bits, lt, neg};
ghost use Rattle.float.specs.F32 as F;
ghost use Rattle.float.specs.Float.{max_f, min_f, clamp_f, abs_f, cube_f, fifth_f, negative};

// f32::is_nan.
pub fn is_nan(x: f32) -> bool
    ensures { result ≡ is_nan x }
{
    x.is_nan()
}

// f32::is_sign_negative, but that the one NaN has no sign.
#[tactic(auto, using(crate::proofs::Ties::own_sign, crate::proofs::Ties::nan_no_sign))]
pub fn is_sign_negative(x: f32) -> bool
    ensures { result ≡ negative x }
{
    !x.is_nan() && x.is_sign_negative()
}

// f32::max, with the first of two zeros of opposite sign.
#[tactic(auto, using(crate::specs::FloatLaws::lt_nan), unfolding(crate::specs::Float::max_f))]
pub fn max(a: f32, b: f32) -> f32
    ensures { result ≡ max_f a b }
{
    if a.is_nan() {
        return b;
    }
    if a < b { b } else { a }
}

// f32::min, with the first of two zeros of opposite sign.
#[tactic(auto, using(crate::specs::FloatLaws::nan_lt), unfolding(crate::specs::Float::min_f))]
pub fn min(a: f32, b: f32) -> f32
    ensures { result ≡ min_f a b }
{
    if a.is_nan() {
        return b;
    }
    if b < a { b } else { a }
}

// f32::clamp, for bounds in any order: a NaN x passes, and a NaN bound bounds nothing.
#[tactic(auto, unfolding(crate::specs::Float::clamp_f))]
pub fn clamp(x: f32, low: f32, high: f32) -> f32
    ensures { result ≡ clamp_f x low high }
{
    if x < low {
        low
    } else if x > high {
        high
    } else {
        x
    }
}

// f32::abs. -0 compares equal to +0, so the zeros are told apart from the rest by a test of their own.
pub fn abs(x: f32) -> f32
    ensures { result ≡ abs_f x }
{
    let y = turned(x);
    if x == 0.0 { 0.0 } else { y }
}

// -0 stays as it is. The tests of `abs` are made apart so that neither becomes a jump.
fn turned(x: f32) -> f32
    ensures { result ≡ cond (lt x F.zero) (neg x) x }
{
    if x < 0.0 { -x } else { x }
}

// x.powi(3).
#[tactic(auto, unfolding(crate::specs::Float::cube_f))]
pub fn powi3(x: f32) -> f32
    ensures { result ≡ cube_f x }
{
    x * (x * x)
}

// x.powi(5).
#[tactic(auto, unfolding(crate::specs::Float::fifth_f))]
pub fn powi5(x: f32) -> f32
    ensures { result ≡ fifth_f x }
{
    x * ((x * x) * (x * x))
}

// f32::from_bits, every NaN's pattern being the one NaN.
pub fn from_bits(n: u32) -> f32
    ensures { result ≡ of_bits binary32 n }
{
    if 0x7f80_0000 < n % 0x8000_0000 {
        return f32::NAN;
    }
    f32::from_bits(n)
}

// f32::to_bits, with 7fc00000 for NaN.
pub fn to_bits(x: f32) -> u32
    ensures { result ≡ to_bits binary32 x }
{
    if x.is_nan() {
        return 0x7fc0_0000;
    }
    f32::to_bits(x)
}
