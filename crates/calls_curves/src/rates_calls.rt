// Curves: crate rates.
use calls_words::{Call, Reply, Results, gives};
use rates::expo_rates::{ExpoRates, RatesType};
use rates::linear::Linear;
use rates::rates as curve;
use rates::rates::{Actual, Rates};

pub(crate) fn answer(call: Call<'_>, results: &mut Results) -> Reply {
    let (curve, call) = call.on_state()?;
    match curve {
        b"rates" => of_rates(call, results),
        b"expo_rates" => of_expo_rates(call, results),
        b"linear" => of_linear(call, results),
        _ => None,
    }
}

fn of_rates(call: Call<'_>, results: &mut Results) -> Reply {
    match call.name {
        b"identity" => {
            let v = call.all()?;
            gives(Rates::Identity.apply(v), results)
        }
        b"actual" => {
            let (rate, expo, cent, v) = call.all()?;
            gives(Rates::Actual { rate, expo, cent }.apply(v), results)
        }
        b"linear" => {
            let (fact, offs, v) = call.all()?;
            gives(Rates::Linear { fact, offs }.apply(v), results)
        }
        b"actual_default" => {
            let () = call.all()?;
            let actual = Actual::default();
            gives((actual.rate, actual.expo, actual.cent), results)
        }
        b"linear_default" => {
            let () = call.all()?;
            gives(line_of(curve::Linear::default()), results)
        }
        b"linear_new" => {
            let (in_min, in_max, out_min, out_max) = call.all()?;
            gives(
                line_of(curve::Linear::new(in_min, in_max, out_min, out_max)),
                results,
            )
        }
        b"linear_set" => {
            let (in_min, in_max, out_min, out_max) = call.all()?;
            gives(
                line_of(curve::Linear::default().set(in_min, in_max, out_min, out_max)),
                results,
            )
        }
        b"linear_set_params" => {
            let (in_min, in_max, out_min, out_max) = call.all()?;
            gives(
                line_of(curve::Linear::default().set_params(in_min, in_max, out_min, out_max)),
                results,
            )
        }
        _ => None,
    }
}

fn line_of(line: curve::Linear) -> (f32, f32) {
    (line.fact, line.offs)
}

fn of_expo_rates(call: Call<'_>, results: &mut Results) -> Reply {
    match call.name {
        b"default" => {
            let () = call.all()?;
            let rates = ExpoRates::default();
            gives((rates.expo, rates.max_rates, rates.center_sens), results)
        }
        b"actual" => {
            let (expo, max_rates, center_sens, v) = call.all()?;
            gives(
                ExpoRates::new(RatesType::Actual, expo, max_rates, center_sens).apply(v),
                results,
            )
        }
        b"kiss" => {
            let (expo, max_rates, center_sens, v) = call.all()?;
            gives(
                ExpoRates::new(RatesType::Kiss, expo, max_rates, center_sens).apply(v),
                results,
            )
        }
        _ => None,
    }
}

fn of_linear(call: Call<'_>, results: &mut Results) -> Reply {
    match call.name {
        b"default" => {
            let () = call.all()?;
            gives(params_of(Linear::default()), results)
        }
        b"new" => {
            let (in_min, in_max, out_min, out_max) = call.all()?;
            gives(
                params_of(Linear::new(in_min, in_max, out_min, out_max)),
                results,
            )
        }
        b"set" => {
            let (in_min, in_max, out_min, out_max) = call.all()?;
            gives(
                params_of(Linear::default().set(in_min, in_max, out_min, out_max)),
                results,
            )
        }
        b"set_params" => {
            let (in_min, in_max, out_min, out_max) = call.all()?;
            gives(
                params_of(Linear::default().set_params(in_min, in_max, out_min, out_max)),
                results,
            )
        }
        b"map" => {
            let (factor, offset, sig) = call.all()?;
            gives(Linear { factor, offset }.map(sig), results)
        }
        _ => None,
    }
}

fn params_of(line: Linear) -> (f32, f32) {
    let params = line.params();
    (params.0, params.1)
}
