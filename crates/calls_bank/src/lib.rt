// The bank: crate bank.
#![tactic(auto)]

use bank::{Bank, Called, Lane};
use calls_words::{Call, Operand, Operands, Reply, Results, gives, leaves};
use refusal::{Answer, answer_of, given, refusal_of};

pub fn answer(call: Call<'_>, bank: &mut Bank, results: &mut Results) -> Reply {
    let (state, call) = call.on_state()?;
    match state {
        b"bank" => on_bank(call, bank, results),
        _ => None,
    }
}

// A number that may be left out at the line's end.
#[derive(Drop)]
struct Wanted(Option<f32>);

impl Operand for Wanted {
    fn read(operands: &mut Operands<'_>) -> Option<Wanted> {
        if operands.is_empty() {
            return Some(Wanted(None));
        }
        Some(Wanted(Some(operands.read()?)))
    }
}

fn on_bank(call: Call<'_>, bank: &mut Bank, results: &mut Results) -> Reply {
    let before = *bank;
    match call.name {
        b"open" => {
            let (lane, (kp, ki, kd), (tau, dt), Wanted(slew)) = call.all()?;
            leaves(
                bank,
                nothing(before.open(lane, kp, ki, kd, tau, dt, slew)),
                results,
            )
        }
        b"close" => {
            let lane = call.all()?;
            leaves(bank, nothing(before.close(lane)), results)
        }
        b"update" => {
            let (lane, reference, measurement, prediction) = call.all()?;
            leaves(
                bank,
                replied(
                    before.update(lane, reference, measurement, prediction),
                    |reply| reply.y,
                ),
                results,
            )
        }
        b"set_ts" => {
            let (lane, ts) = call.all()?;
            leaves(bank, nothing(before.set_ts(lane, ts)), results)
        }
        b"set_gains" => {
            let (lane, kp, ki, kd) = call.all()?;
            leaves(bank, nothing(before.set_gains(lane, kp, ki, kd)), results)
        }
        b"enable_integral" => {
            let (lane, enable) = call.all()?;
            leaves(bank, nothing(before.enable_integral(lane, enable)), results)
        }
        b"reset_integral" => {
            let lane = call.all()?;
            leaves(bank, nothing(before.reset_integral(lane)), results)
        }
        b"terms" => {
            let lane = call.all()?;
            leaves(
                bank,
                replied(before.terms(lane), |reply| reply.terms),
                results,
            )
        }
        b"show" => show(call, bank, results),
        b"state" => set(call, bank),
        _ => None,
    }
}

// The results that a call shows of its reply, and the bank after it.
fn replied<R, F: FnOnce(bank::Reply) -> R>(called: Called<Bank>, results: F) -> (Answer<R>, Bank)
    requires { F.IsAlwaysCallable results }
{
    let reply = given(called.answer);
    (
        answer_of(refusal_of(&called.answer), results(reply)),
        called.state,
    )
}

fn nothing(called: Called<Bank>) -> (Answer<()>, Bank) {
    replied(called, |_reply| ())
}

// A lane's fields: whether it is open, then its controller's.
fn show(call: Call<'_>, bank: &Bank, results: &mut Results) -> Reply {
    let lane: usize = call.operands.all()?;
    let lane = bank.lanes.get(lane)?;
    gives((lane.open, lane.pid), results)
}

fn set(call: Call<'_>, bank: &mut Bank) -> Reply {
    let (lane, (open, pid)): (usize, (bool, _)) = call.operands.all()?;
    let place = bank.lanes.get_mut(lane)?;
    *place = Lane { open, pid };
    Some(Ok(()))
}
