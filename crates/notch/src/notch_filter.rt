// The notch: takes out what swings at about the frequency fc, over the bandwidth fb. t stands where the Rust works a tangent out.
#![tactic(auto, unfolding(crate::specs::NotchFilter::calc_params, crate::specs::NotchFilter::new_notch_filter, crate::specs::NotchFilter::retuned, crate::specs::NotchFilter::set_freq_center_notch_filter, crate::specs::NotchFilter::set_freq_bandwidth_notch_filter, crate::specs::NotchFilter::step_notch_filter))]

ghost use Rattle.std.specs.Prelude.{◌≡◌};
ghost use Rattle.notch.specs.NotchFilter.{calc_params, new_notch_filter, retuned, set_freq_center_notch_filter, set_freq_bandwidth_notch_filter, step_notch_filter};

use crate::biquad::{BiquadFilter, BiquadParams};
use crate::samples::Sampled;
use step::Stepped;

// f32's pi, bits 40490fdb.
const PI: f32 = 3.1415927;

#[derive(Clone, Copy, Default)]
pub struct NotchFilter {
    pub fc: f32,
    pub fb: f32,
    pub dt: f32,
    pub t: f32,
    pub biquad: BiquadFilter,
}

// The one place that makes the coefficients. fc goes into them through its t only.
fn calc_params(fb: f32, dt: f32, t: f32) -> BiquadParams
    ensures { result ≡ calc_params fb dt t }
{
    let wc = 2.0 / dt * t;
    let wb = fb * 2.0 * PI;
    let b_temp = wc * wc * dt * dt;
    let b0 = b_temp + 4.0;
    let b1 = (b_temp - 4.0) * 2.0;
    let b2 = b_temp + 4.0;
    BiquadParams {
        a0: b0 + 2.0 * wb * dt,
        a1: b1,
        a2: b2 - 2.0 * wb * dt,
        b0,
        b1,
        b2,
    }
}

impl NotchFilter {
    pub fn new(fc: f32, fb: f32, dt: f32, t: f32) -> Self
        ensures { result ≡ new_notch_filter fc fb dt t }
    {
        NotchFilter {
            fc,
            fb,
            dt,
            t,
            biquad: BiquadFilter::new(calc_params(fb, dt, t)),
        }
    }

    // Both setters: the coefficients are made anew, the history stays.
    fn retuned(self, fc: f32, fb: f32, t: f32) -> Self
        ensures { result ≡ retuned self fc fb t }
    {
        let biquad = self.biquad.with_params(calc_params(fb, self.dt, t));
        NotchFilter {
            fc,
            fb,
            t,
            biquad,
            ..self
        }
    }

    // A new centre comes with its t.
    pub fn set_freq_center(self, fc: f32, t: f32) -> Self
        ensures { result ≡ set_freq_center_notch_filter self fc t }
    {
        self.retuned(fc, self.fb, t)
    }

    // A new bandwidth uses the stored t.
    pub fn set_freq_bandwidth(self, fb: f32) -> Self
        ensures { result ≡ set_freq_bandwidth_notch_filter self fb }
    {
        self.retuned(self.fc, fb, self.t)
    }

    pub fn update(self, input: f32) -> Stepped<Self>
        ensures { result ≡ step_notch_filter self input }
    {
        let next = self.biquad.update(input);
        Stepped {
            y: next.y,
            state: NotchFilter {
                biquad: next.state,
                ..self
            },
        }
    }
}

impl Sampled for NotchFilter {
    ghost stepped = { step_notch_filter };

    fn step(self, input: f32) -> Stepped<Self> {
        self.update(input)
    }
}
