// linear_lut.rs: a table of points, and the straight lines between them.
#![tactic(auto)]

ghost use Rattle.std.specs.Prelude.{◌≡◌, ◌+◌, ◌-◌, ◌*◌, ◌/◌, ◌≤◌, ◌<◌, length};
ghost use Rattle.linear_lut.specs.LinearLut.{segment, holds, within, among, call_get};

use refusal::{Answer, Refusal};

// The line of the segment from point i to the next, at x.
fn segment(points: &[f32], i: usize, x: f32) -> f32
    requires { 2 * i + 3 < length points.now }
    ensures { result ≡ segment points.now i x }
{
    let x0 = points[2 * i];
    let y0 = points[2 * i + 1];
    let x1 = points[2 * i + 2];
    let y1 = points[2 * i + 3];
    y0 + (y1 - y0) * (x - x0) / (x1 - x0)
}

// Whether x lies from point i's x to the next one's.
fn holds(points: &[f32], i: usize, x: f32) -> bool
    requires { 2 * i + 3 < length points.now }
    ensures { result ≡ holds points.now i x }
{
    points[2 * i] <= x && x <= points[2 * i + 2]
}

// The first segment that holds x, at x.
#[tactic(auto, using(crate::specs::LinearLutLaws::found, crate::specs::LinearLutLaws::passed, crate::specs::LinearLutLaws::none_left))]
fn within(points: &[f32], x: f32) -> f32
    requires { 4 ≤ length points.now }
    ensures { result ≡ within points.now (length points.now / 2 - 1) 0 x }
{
    for i in 0..points.len() / 2 - 1 {
        if holds(points, i, x) {
            return segment(points, i, x);
        }
    }
    0.0
}

fn among(points: &[f32], x: f32) -> f32
    requires { 4 ≤ length points.now }
    ensures { result ≡ among points.now (length points.now / 2) x }
{
    let n = points.len() / 2;
    if x <= points[0] {
        return segment(points, 0, x);
    }
    if x >= points[2 * n - 2] {
        return segment(points, n - 2, x);
    }
    within(points, x)
}

// `LinearLut::get`, over a lent run of x, y pairs.
pub fn get(points: &[f32], x: f32) -> Answer<f32>
    ensures { result ≡ call_get points.now x }
{
    let n = points.len();
    if n % 2 == 1 || n == 2 {
        return Refusal::Points.with(0.0);
    }
    if n == 0 {
        return Ok(0.0);
    }
    Ok(among(points, x))
}
