// utils/func.rs: mapping a number from one range to another, and wrapping it into a range by counted steps.
#![tactic(auto)]

ghost use Rattle.std.specs.Prelude.{◌≡◌};
ghost use Rattle.func.specs.Func.{linear_map, refused, above, call_wrap_by, call_wrap};

use refusal::{Answer, Refusal};

// What wrapping gives: refused, the number is +0 and the steps are 0, or 64 where they ran out.
#[derive(Clone, Copy)]
pub struct Wrapped {
    pub value: f32,
    pub steps: u32,
}

// Maps num from in_min..in_max to out_min..out_max.
#[tactic(auto, unfolding(crate::specs::Func::linear_map))]
pub fn linear_map(num: f32, in_min: f32, in_max: f32, out_min: f32, out_max: f32) -> f32
    ensures { result ≡ linear_map num in_min in_max out_min out_max }
{
    let out_delta = out_max - out_min;
    let in_delta = in_max - in_min;
    ((num - in_min) / in_delta) * out_delta + out_min
}

fn refused(refusal: Refusal, steps: u32) -> Answer<Wrapped>
    ensures { result ≡ refused refusal steps }
{
    refusal.with(Wrapped { value: 0.0, steps })
}

// A number above the range: past max, and at max too where the range is not closed.
// Kept: `closed`, and no closure for the test: `wrap_by` would have to say of it what it answers at every number.
fn above(closed: bool, max: f32, n: f32) -> bool
    ensures { result ≡ above closed max n }
{
    if closed { n > max } else { n >= max }
}

// The one wrapping rule, for `wrap` (at max too) and for the angle controller (only past max, `closed`): the width is added while num is
// below min, then subtracted while it is above. The Rust's loops have no cap: at an infinity, or where a step changes nothing, they never end.
pub fn wrap_by(num: f32, min: f32, max: f32, closed: bool) -> Answer<Wrapped>
    ensures { result ≡ call_wrap_by (above closed) num min max }
{
    if min < max {
        let width = max - min;
        let mut n = num;
        // Kept: two loops go on with one count, so a `for` over it would need a flag that says which of them it is in.
        let mut steps = 0u32;
        while n < min {
            if steps == 64 {
                return refused(Refusal::Steps, 64);
            }
            n = n + width;
            steps += 1;
        }
        while above(closed, max, n) {
            if steps == 64 {
                return refused(Refusal::Steps, 64);
            }
            n = n - width;
            steps += 1;
        }
        return Ok(Wrapped { value: n, steps });
    }
    refused(Refusal::Range, 0)
}

// The Rust's wrap: while num < min add the width, while num ≥ max subtract it.
#[tactic(auto, unfolding(crate::specs::Func::call_wrap))]
pub fn wrap(num: f32, min: f32, max: f32) -> Answer<Wrapped>
    ensures { result ≡ call_wrap num min max }
{
    wrap_by(num, min, max, false)
}
