// The notch, and three in a row: crate notch.
#![tactic(auto)]

use arrayvec::ArrayVec;
use calls_words::{Call, Operand, Operands, Reply, Results, Shown, sets, steps};
use notch::{NotchFilter, Notches};
use refusal::{answer_of, given, refusal_of};

// One of each, all-zero at the start.
#[derive(Clone, Copy, Default)]
pub struct NotchStates {
    notch: NotchFilter,
    notches: Notches,
}

impl NotchStates {
    // Kept: alike in shape with the other parts, but each names its own states and calls.
    pub fn answer(&mut self, call: Call<'_>, results: &mut Results) -> Reply {
        let (state, call) = call.on_state()?;
        match state {
            b"notch" => on_notch(call, &mut self.notch, results),
            b"notches" => on_notches(call, &mut self.notches, results),
            _ => None,
        }
    }
}

fn on_notch(call: Call<'_>, notch: &mut NotchFilter, results: &mut Results) -> Reply {
    let before = *notch;
    match call.name {
        b"new" => {
            let settings = call.all()?;
            sets(notch, Ok(notch_of(settings)))
        }
        b"set_freq_center" => {
            let (fc, t) = call.all()?;
            sets(notch, Ok(before.set_freq_center(fc, t)))
        }
        b"set_freq_bandwidth" => {
            let fb = call.all()?;
            sets(notch, Ok(before.set_freq_bandwidth(fb)))
        }
        b"update" => {
            let input = call.all()?;
            steps(notch, Ok(before.update(input)), results)
        }
        _ => call.by_hand(notch, results),
    }
}

fn on_notches(call: Call<'_>, notches: &mut Notches, results: &mut Results) -> Reply {
    match call.name {
        b"new" => {
            let (first, second, third) = call.all()?;
            sets(
                notches,
                Ok(Notches {
                    first: notch_of(first),
                    second: notch_of(second),
                    third: notch_of(third),
                }),
            )
        }
        b"run" => run(call, notches, results),
        _ => call.by_hand(notches, results),
    }
}

fn notch_of((fc, fb, dt, t): (f32, f32, f32, f32)) -> NotchFilter {
    NotchFilter::new(fc, fb, dt, t)
}

// The most samples of a run, and the most room of the second run.
const LONGEST: usize = 64;

// The second run: an operand tells its room, and it is full of 42 before the call.
#[derive(Drop)]
struct SecondRun {
    numbers: ArrayVec<f32, LONGEST>,
}

impl Operand for SecondRun {
    fn read(operands: &mut Operands<'_>) -> Option<SecondRun> {
        let room: usize = operands.read()?;
        if room > LONGEST {
            return None;
        }
        let mut numbers = ArrayVec::new();
        for _ in 0..room {
            let _ = numbers.try_push(42.0);
        }
        Some(SecondRun { numbers })
    }
}

// The results are the second run as it stands after the call, refused or not.
fn run(call: Call<'_>, notches: &mut Notches, results: &mut Results) -> Reply {
    let (second, samples): (SecondRun, ArrayVec<f32, LONGEST>) = call.operands.all()?;
    let mut out = second.numbers;
    let answer = notches.run(samples.as_slice(), out.as_mut_slice());
    *notches = given(answer);
    out.as_slice().show(results);
    Some(answer_of(refusal_of(&answer), ()))
}
