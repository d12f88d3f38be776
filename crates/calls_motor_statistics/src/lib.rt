// The motor curve, and mean and variance: crates motor_lin and statistics.
#![tactic(auto)]

use calls_words::{Call, Reply, Results, answers, sets};
use motor_lin::MotorLin;
use statistics::Statistics;

// One of each, all-zero at the start.
#[derive(Clone, Copy, Default)]
pub struct MotorStatistics {
    motor_lin: MotorLin,
    statistics: Statistics,
}

impl MotorStatistics {
    // Kept: alike in shape with the other parts, but each names its own states and calls.
    pub fn answer(&mut self, call: Call<'_>, results: &mut Results) -> Reply {
        let (state, call) = call.on_state()?;
        match state {
            b"motor_lin" => on_motor_lin(call, &mut self.motor_lin, results),
            b"statistics" => on_statistics(call, &mut self.statistics, results),
            _ => None,
        }
    }
}

fn on_motor_lin(call: Call<'_>, motor: &mut MotorLin, results: &mut Results) -> Reply {
    let before = *motor;
    match call.name {
        b"new" => {
            let (a, b, min, max) = call.all()?;
            sets(motor, MotorLin::new(a, b, min, max))
        }
        b"command_to_force" => {
            let command = call.all()?;
            answers(before.command_to_force(command), results)
        }
        b"force_to_command" => {
            let force = call.all()?;
            answers(before.force_to_command(force), results)
        }
        b"min_force" => {
            let () = call.all()?;
            answers(before.min_force(), results)
        }
        b"max_force" => {
            let () = call.all()?;
            answers(before.max_force(), results)
        }
        _ => call.by_hand(motor, results),
    }
}

fn on_statistics(call: Call<'_>, statistics: &mut Statistics, results: &mut Results) -> Reply {
    let before = *statistics;
    match call.name {
        b"new" => sets(statistics, Statistics::new(call.all()?)),
        b"add_sample" => {
            let sample = call.all()?;
            sets(statistics, before.add_sample(sample))
        }
        b"mean_var" => {
            let () = call.all()?;
            answers(before.mean_var(), results)
        }
        b"std_dev" => {
            let () = call.all()?;
            answers(before.std_dev(), results)
        }
        _ => call.by_hand(statistics, results),
    }
}
