// Runs of one notch and of three in a row, for C and Rust to link: the benchmarks call them.
#![tactic(auto, unfolding(crate::specs::OneNotch::notch_from, crate::specs::OneNotch::notches_from, crate::specs::OneNotch::notch_out))]

ghost use Rattle.std.specs.Prelude.{◌≡◌, ◌≤◌};
ghost use Rattle.notch.specs.Notches.{second_run};
ghost use Rattle.bench_notch.specs.OneNotch.{notch_from, notches_from, notch_out};

use notch::{NotchFilter, Notches};

// A new notch of the four settings from a place on, NaN where one is missing.
fn notch_from(s: &[f32], from: usize) -> NotchFilter
    requires { from ≤ 8 }
    ensures { result ≡ notch_from s.now from }
{
    NotchFilter::new(
        bench_updates::setting(s, from),
        bench_updates::setting(s, from + 1),
        bench_updates::setting(s, from + 2),
        bench_updates::setting(s, from + 3),
    )
}

// Three of them, of twelve settings.
fn notches_from(s: &[f32]) -> Notches
    ensures { result ≡ notches_from s.now }
{
    Notches {
        first: notch_from(s, 0),
        second: notch_from(s, 4),
        third: notch_from(s, 8),
    }
}

#[unsafe(no_mangle)]
pub extern "C" fn plumradek_notch(settings: &[f32], samples: &[f32], out: &mut [f32])
    ensures { out.new ≡ notch_out settings.now samples.now out.old }
{
    let _ = notch::run(notch_from(settings, 0), samples, out);
}

#[unsafe(no_mangle)]
pub extern "C" fn plumradek_notches(settings: &[f32], samples: &[f32], out: &mut [f32])
    ensures { out.new ≡ second_run (notches_from settings.now) samples.now out.old }
{
    let _ = notches_from(settings).run(samples, out);
}
