// f32::sqrt: the square root of an f32, rounded once. A guess from float arithmetic is tested over whole numbers; where it
// fails, and for what is no finite number above zero, the search answers. Only `sqrt` is public; its contract is the seam
// at which the inside can be replaced.
#![tactic(auto)]

ghost use Rattle.std.specs.Prelude.{◌≡◌, true, ◌+◌, ◌-◌, ◌^◌, ◌≤◌, ◌<◌};
ghost use Rattle.std.specs.Float.Ieee.{lt, to_bits};
ghost use Rattle.std.specs.Float.{binary32};
ghost use Rattle.float.specs.F32 as F;
ghost use Rattle.root.specs.Root.{root};
ghost use Rattle.root.specs.Post.{PartsIn, IsRounded, is_near};

mod search;

use search::by_search;

// A guess at the root of s, from 1 to below 4, in units of 2^-23, on top of 2^44, where an f64's last place is 2^-8: a
// quotient of polynomials, with a polynomial split off that is worked out beside the division. It is at most 0.31 units
// off there, and no proof relies on that: another guess changes a call's time, and no answer.
fn guess(s: f64) -> f64 {
    let below = (s + 0.37793579847) * (s + 2.5405017056);
    let above = s * 21086370.327 + 11054286.362;
    let beside = s * 2204781.9624 + 17592199152624.586 - below * (70735.331338 - s * 1807.4339878);
    beside - above / below
}

// Whether the root of n, rounded, is g or g + 1: document 01's inequality at the lower end of the one's range and at the
// upper end of the other's, g² - g < n ≤ (g + 1)² + (g + 1). The second is asked of what the first leaves, so that one
// product is enough.
fn is_near(n: u64, g: u64) -> bool
    requires { (n < 2 ^ 48) × (g < 2 ^ 24) }
    ensures { result ≡ is_near n g }
{
    let square = g * g;
    square < n + g && n + g - square <= 4 * g + 2
}

// How far the root of n, rounded, is from g, 0 or 1, where it is near: the inequality between the two, n ≤ g² + g, asked
// with g on the other side, which the compiler leaves as it is.
fn step(n: u64, g: u64) -> u64
    requires { (2 ^ 46 ≤ n) × (n ≤ 2 ^ 48 - 2 ^ 24) × (g < 2 ^ 24) × (is_near n g ≡ true) }
    ensures { IsRounded n (g + result) }
{
    if n - g <= g * g { 0 } else { 1 }
}

// The root of x, a finite number above zero. It is m · 2^e in units of 2^-275, m from 2^23 to below 2^24, and t holds m
// without its leading digit in 23 digits and e before them (`PartsIn`). With e even, the root of m · 2^e is the root of m
// by half of e places; an odd place goes to m first.
fn quick(x: f32, t: u32) -> f32
    requires { (lt F.zero x ≡ true) × (to_bits binary32 x < 0x7f80_0000) × PartsIn (to_bits binary32 x) t }
    ensures { result ≡ root x }
{
    let low = t % 0x100_0000;
    let m = low % 0x80_0000 + 0x80_0000;
    let place = low / 0x80_0000 * 0x80_0000 + 0x80_0000;
    let n = m as u64 * place as u64;
    // n is s · 2^46, so the root of n is that of s in units of 2^-23.
    let s = f64::from_bits(low as u64 * 0x2000_0000 + 0x3ff0_0000_0000_0000);
    let z = guess(s);
    // No guess is NaN, whose bits are not defined; this tells the language so.
    if z > 1.0 {
        // What stands above 2^44, without its fraction of 8 digits.
        let g = f64::to_bits(z) % 0x1_0000_0000 / 0x100;
        if is_near(n, g) {
            return f32::from_bits(t / 0x100_0000 * 0x80_0000 + g as u32 + step(n, g) as u32);
        }
    }
    by_search(x)
}

// The parts of a subnormal above zero, as `quick` takes them. Its pattern b is its number in units of 2^-149; as a float,
// that number has its leading digit at place 23, and an exponent's field from which 24 is taken for the units.
fn subnormal_parts(b: u32) -> u32
    requires { (0 < b) × (b < 2 ^ 23) }
    ensures { PartsIn b result }
{
    f32::to_bits(b as f32) - 0xc00_0000
}

// The root of x, rounded once. A normal number's pattern has its parts where `quick` takes them, but for 125 more in the
// exponent's field.
pub fn sqrt(x: f32) -> f32
    ensures { result ≡ root x }
{
    if x > 0.0 {
        let b = f32::to_bits(x);
        if b < 0x80_0000 {
            return quick(x, subnormal_parts(b));
        }
        if b < 0x7f80_0000 {
            return quick(x, b + 0x3e80_0000);
        }
    }
    by_search(x)
}
