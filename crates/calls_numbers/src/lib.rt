// The numbers: crates float, root and func.
#![tactic(auto)]

use calls_words::{Call, Reply, Results, answers, gives};

pub fn answer(call: Call<'_>, results: &mut Results) -> Reply {
    match call.name {
        b"abs" => gives(float::abs(call.all()?), results),
        b"powi3" => gives(float::powi3(call.all()?), results),
        b"powi5" => gives(float::powi5(call.all()?), results),
        b"sqrt" => gives(root::sqrt(call.all()?), results),
        b"max" => {
            let (a, b) = call.all()?;
            gives(float::max(a, b), results)
        }
        b"min" => {
            let (a, b) = call.all()?;
            gives(float::min(a, b), results)
        }
        b"clamp" => {
            let (x, low, high) = call.all()?;
            gives(float::clamp(x, low, high), results)
        }
        b"wrap" => {
            let (x, min, max) = call.all()?;
            answers(func::wrap(x, min, max), results)
        }
        b"linear_map" => {
            let (num, (in_min, in_max), (out_min, out_max)) = call.all()?;
            gives(
                func::linear_map(num, in_min, in_max, out_min, out_max),
                results,
            )
        }
        _ => None,
    }
}
