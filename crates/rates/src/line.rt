// The two numbers of the line through (in_min, out_min) and (in_max, out_max), which both `Linear` types of the Rust have.
ghost use Rattle.std.specs.Prelude.{◌≡◌};
ghost use Rattle.rates.specs.Line.{slope_of, offset_of};

// Kept: four numbers apart, as the Rust's calls of both types take them.
#[tactic(auto, unfolding(crate::specs::Line::slope_of))]
pub(crate) fn slope(in_min: f32, in_max: f32, out_min: f32, out_max: f32) -> f32
    ensures { result ≡ slope_of in_min in_max out_min out_max }
{
    (out_max - out_min) / (in_max - in_min)
}

#[tactic(auto, unfolding(crate::specs::Line::offset_of))]
pub(crate) fn offset(in_min: f32, in_max: f32, out_min: f32, out_max: f32) -> f32
    ensures { result ≡ offset_of in_min in_max out_min out_max }
{
    out_min - in_min * (out_max - out_min) / (in_max - in_min)
}
