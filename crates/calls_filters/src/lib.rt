// The filters: crate filters.
#![tactic(auto)]

use calls_words::{Call, Operand, Reply, Results, Shown, sets, steps};
use filters::{
    Complementary, Highpass, IntegratingComplementary, IntegratingHighpass, Lowpass, MovingAverage,
    NthOrderLowpass, SlewRate,
};
use step::Stepped;

// One of each, all-zero at the start.
#[derive(Clone, Copy, Default)]
pub struct Filters {
    lowpass: Lowpass,
    lowpass2: NthOrderLowpass,
    highpass: Highpass,
    complementary: Complementary,
    integrating_highpass: IntegratingHighpass,
    integrating_complementary: IntegratingComplementary,
    moving_average: MovingAverage,
    slew_rate: SlewRate,
}

impl Filters {
    // Kept: alike in shape with the other parts, but each names its own states and calls.
    pub fn answer(&mut self, call: Call<'_>, results: &mut Results) -> Reply {
        let (state, call) = call.on_state()?;
        match state {
            b"lowpass" => on_filter(
                call,
                &mut self.lowpass,
                Lowpass::new,
                Lowpass::set_dt,
                (b"set_tau", Lowpass::set_tau),
                Lowpass::update,
                results,
            ),
            b"lowpass2" => on_filter(
                call,
                &mut self.lowpass2,
                NthOrderLowpass::new,
                NthOrderLowpass::set_dt,
                (b"configure", NthOrderLowpass::configure),
                NthOrderLowpass::update,
                results,
            ),
            b"highpass" => on_filter(
                call,
                &mut self.highpass,
                Highpass::new,
                Highpass::set_dt,
                (b"set_tau", Highpass::set_tau),
                Highpass::update,
                results,
            ),
            b"complementary" => on_filter(
                call,
                &mut self.complementary,
                Complementary::new,
                Complementary::set_dt,
                (b"set_tau", Complementary::set_tau),
                |filter, (low, high)| filter.update(low, high),
                results,
            ),
            b"integrating_highpass" => on_filter(
                call,
                &mut self.integrating_highpass,
                IntegratingHighpass::new,
                IntegratingHighpass::set_dt,
                (b"set_tau", IntegratingHighpass::set_tau),
                IntegratingHighpass::update,
                results,
            ),
            b"integrating_complementary" => on_filter(
                call,
                &mut self.integrating_complementary,
                IntegratingComplementary::new,
                IntegratingComplementary::set_dt,
                (b"set_tau", IntegratingComplementary::set_tau),
                |filter, (low, high)| filter.update(low, high),
                results,
            ),
            b"moving_average" => on_moving_average(call, &mut self.moving_average, results),
            b"slew_rate" => on_slew_rate(call, &mut self.slew_rate, results),
            _ => None,
        }
    }
}

// The calls that most filters have alike, but for the operands of `update`, and for the name of the one that sets tau.
fn on_filter<
    F: Operand + Shown,
    X: Operand,
    New: FnOnce(f32, f32) -> F + Drop,
    SetDt: FnOnce(F, f32) -> F + Drop,
    SetTau: FnOnce(F, f32) -> F + Drop,
    Update: FnOnce(F, X) -> Stepped<F> + Drop,
>(
    call: Call<'_>,
    filter: &mut F,
    new: New,
    set_dt: SetDt,
    set_tau: (&'static [u8], SetTau),
    update: Update,
    results: &mut Results,
) -> Reply
    requires news { New.IsAlwaysCallable new }
    requires sets_dt { SetDt.IsAlwaysCallable set_dt }
    requires sets_tau { SetTau.IsAlwaysCallable set_tau.1 }
    requires updates { Update.IsAlwaysCallable update }
{
    let before = *filter;
    let (sets_tau, set_tau) = set_tau;
    if call.name == sets_tau {
        let tau = call.all()?;
        return sets(filter, Ok(set_tau(before, tau)));
    }
    match call.name {
        b"new" => {
            let (tau, dt) = call.all()?;
            sets(filter, Ok(new(tau, dt)))
        }
        b"set_dt" => {
            let dt = call.all()?;
            sets(filter, Ok(set_dt(before, dt)))
        }
        b"update" => {
            let x = call.all()?;
            steps(filter, Ok(update(before, x)), results)
        }
        _ => call.by_hand(filter, results),
    }
}

fn on_moving_average(call: Call<'_>, filter: &mut MovingAverage, results: &mut Results) -> Reply {
    let before = *filter;
    match call.name {
        b"new" => sets(filter, MovingAverage::new(call.all()?)),
        b"new_with_value" => {
            let (length, value) = call.all()?;
            sets(filter, MovingAverage::new_with_value(length, value))
        }
        b"update" => {
            let value = call.all()?;
            steps(filter, before.update(value), results)
        }
        _ => call.by_hand(filter, results),
    }
}

fn on_slew_rate(call: Call<'_>, filter: &mut SlewRate, results: &mut Results) -> Reply {
    let before = *filter;
    match call.name {
        b"new" => {
            let (limit, dt) = call.all()?;
            sets(filter, SlewRate::new(limit, dt))
        }
        b"set_dt" => {
            let dt = call.all()?;
            sets(filter, before.set_dt(dt))
        }
        b"update" => {
            let input = call.all()?;
            steps(filter, before.update(input), results)
        }
        _ => call.by_hand(filter, results),
    }
}
