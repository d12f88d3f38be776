// The controllers: crates angle_pid and rate_pid.
#![tactic(auto)]

use angle_pid::{Pid, PidUpdated};
use calls_words::{Call, Reply, Results, answers, leaves, sets};
use rate_pid::{RatePid, Updated};
use refusal::{Answer, answer_of, given, refusal_of};

// One of each, all-zero at the start.
#[derive(Clone, Copy, Default)]
pub struct Controllers {
    pid: Pid,
    rate_pid: RatePid,
}

impl Controllers {
    // Kept: alike in shape with the other parts, but each names its own states and calls.
    pub fn answer(&mut self, call: Call<'_>, results: &mut Results) -> Reply {
        let (state, call) = call.on_state()?;
        match state {
            b"pid" => on_pid(call, &mut self.pid, results),
            b"rate_pid" => on_rate_pid(call, &mut self.rate_pid, results),
            _ => None,
        }
    }
}

fn on_pid(call: Call<'_>, pid: &mut Pid, results: &mut Results) -> Reply {
    let before = *pid;
    match call.name {
        b"new" => {
            let ((kp, ki, kd), ideal, ts) = call.all()?;
            sets(pid, Ok(Pid::new(kp, ki, kd, ideal, ts)))
        }
        b"with_config" => {
            let (config, ts) = call.all()?;
            sets(pid, Pid::with_config(config, ts))
        }
        b"set_wrapping" => {
            let (min, max) = call.all()?;
            sets(pid, before.set_wrapping(min, max))
        }
        b"set_output_limit" => {
            let (min, max) = call.all()?;
            sets(pid, before.set_output_limit(min, max))
        }
        b"set_anti_windup" => {
            let (min, max) = call.all()?;
            sets(pid, before.set_anti_windup(min, max))
        }
        b"set_lp_filter" => {
            let tau = call.all()?;
            sets(pid, before.set_lp_filter(tau))
        }
        b"set_gains" => {
            let (kp, ki, kd) = call.all()?;
            sets(pid, before.set_gains(kp, ki, kd))
        }
        b"reset_integral" => {
            let () = call.all()?;
            sets(pid, before.reset_integral())
        }
        b"reset_integral_to" => {
            let integral = call.all()?;
            sets(pid, before.reset_integral_to(integral))
        }
        b"enable_integral" => {
            let enable = call.all()?;
            sets(pid, before.enable_integral(enable))
        }
        b"enable_reset_integral" => {
            let enable = call.all()?;
            sets(pid, before.enable_reset_integral(enable))
        }
        b"update" => {
            let error = call.all()?;
            leaves(pid, value_and_steps(before.update(error)), results)
        }
        b"update_ts" => {
            let (error, ts) = call.all()?;
            leaves(pid, value_and_steps(before.update_ts(error, ts)), results)
        }
        _ => call.by_hand(pid, results),
    }
}

fn value_and_steps(answer: Answer<PidUpdated>) -> (Answer<(f32, u32)>, Pid) {
    let updated = given(answer);
    let results = (updated.y, updated.steps);
    (answer_of(refusal_of(&answer), results), updated.pid)
}

fn on_rate_pid(call: Call<'_>, pid: &mut RatePid, results: &mut Results) -> Reply {
    let before = *pid;
    match call.name {
        b"new" => {
            let (kp, ki, kd, (tau, dt)) = call.all()?;
            sets(pid, Ok(RatePid::new(kp, ki, kd, tau, dt)))
        }
        b"slew" => {
            let limit = call.all()?;
            sets(pid, before.slew(limit))
        }
        b"set_ts" => {
            let ts = call.all()?;
            sets(pid, before.set_ts(ts))
        }
        b"set_gains" => {
            let (kp, ki, kd) = call.all()?;
            sets(pid, before.set_gains(kp, ki, kd))
        }
        b"enable_integral" => {
            let enable = call.all()?;
            sets(pid, before.enable_integral(enable))
        }
        b"reset_integral" => {
            let () = call.all()?;
            sets(pid, before.reset_integral())
        }
        b"enable_reset_integral" => {
            let enable = call.all()?;
            sets(pid, before.enable_reset_integral(enable))
        }
        b"update" => {
            let (reference, measurement, prediction) = call.all()?;
            leaves(
                pid,
                value(before.update(reference, measurement, prediction)),
                results,
            )
        }
        b"update_in_place" => {
            let (reference, measurement, prediction) = call.all()?;
            leaves(
                pid,
                value(rate_pid_in_place::update(before, reference, measurement, prediction)),
                results,
            )
        }
        b"get_terms" => {
            let () = call.all()?;
            answers(before.get_terms(), results)
        }
        _ => call.by_hand(pid, results),
    }
}

fn value(updated: Updated) -> (Answer<f32>, RatePid) {
    (updated.answer, updated.pid)
}
