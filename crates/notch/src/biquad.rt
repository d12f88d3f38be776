// The biquad: a filter over the last three samples in and out. The Rust indexes its arrays by constants only, so its a[0] is a0 here,
// and so on.
#![tactic(auto, unfolding(crate::specs::Biquad::new_biquad, crate::specs::Biquad::with_params, crate::specs::Biquad::step_biquad))]

ghost use Rattle.std.specs.Prelude.{◌≡◌};
ghost use Rattle.notch.specs.Biquad.{new_biquad, with_params, step_biquad};

use step::Stepped;

#[derive(Clone, Copy, Default)]
pub struct BiquadParams {
    pub a0: f32,
    pub a1: f32,
    pub a2: f32,
    pub b0: f32,
    pub b1: f32,
    pub b2: f32,
}

// The history, newest first: samples in are x, samples out y.
#[derive(Clone, Copy, Default)]
pub struct BiquadFilter {
    pub params: BiquadParams,
    pub x0: f32,
    pub x1: f32,
    pub x2: f32,
    pub y0: f32,
    pub y1: f32,
    pub y2: f32,
}

impl BiquadFilter {
    pub(crate) fn new(params: BiquadParams) -> Self
        ensures { result ≡ new_biquad params }
    {
        BiquadFilter {
            params,
            ..BiquadFilter::default()
        }
    }

    // Other coefficients, the same history.
    pub(crate) fn with_params(self, params: BiquadParams) -> Self
        ensures { result ≡ with_params self params }
    {
        BiquadFilter { params, ..self }
    }

    pub(crate) fn update(self, input: f32) -> Stepped<Self>
        ensures { result ≡ step_biquad self input }
    {
        let params = self.params;
        let x0 = input;
        let x1 = self.x0;
        let x2 = self.x1;
        let y1 = self.y0;
        let y2 = self.y1;
        let output = x0 * params.b0 + x1 * params.b1 + x2 * params.b2
            - y1 * params.a1
            - y2 * params.a2;
        let y0 = output / params.a0;
        Stepped {
            y: y0,
            state: BiquadFilter {
                params,
                x0,
                x1,
                x2,
                y0,
                y1,
                y2,
            },
        }
    }
}
