// The curves, the table lookup and the frames: crates rates, linear_lut and airframe.
#![tactic(auto)]

mod rates_calls;

use arrayvec::ArrayVec;
use calls_words::{Call, Reply, Results, answers};

// More points than a line has room for.
const POINTS: usize = 224;

pub fn answer(call: Call<'_>, results: &mut Results) -> Reply {
    match call.name {
        b"linear_lut" => {
            let (x, points): (f32, ArrayVec<f32, POINTS>) = call.all()?;
            answers(linear_lut::get(points.as_slice(), x), results)
        }
        b"quad_x_basic" => {
            let (x_dist, y_dist, reaction, outspin) = call.all()?;
            answers(
                airframe::quad_x_basic(x_dist, y_dist, reaction, outspin),
                results,
            )
        }
        b"quad_p_basic" => {
            let (x_dist, y_dist, reaction, outspin) = call.all()?;
            answers(
                airframe::quad_p_basic(x_dist, y_dist, reaction, outspin),
                results,
            )
        }
        b"dev_quad_motor_setup" => {
            let () = call.all()?;
            answers(airframe::dev_quad_motor_setup(), results)
        }
        _ => rates_calls::answer(call, results),
    }
}
