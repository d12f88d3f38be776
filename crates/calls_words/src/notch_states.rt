// The states of the crate notch.
use crate::{Operand, Operands, Results, Shown};
use notch::{BiquadFilter, BiquadParams, NotchFilter, Notches};

impl Operand for BiquadParams {
    fn read(operands: &mut Operands<'_>) -> Option<BiquadParams> {
        let [a0, a1, a2, b0, b1, b2]: [f32; 6] = operands.read()?;
        Some(BiquadParams {
            a0,
            a1,
            a2,
            b0,
            b1,
            b2,
        })
    }
}

impl Shown for BiquadParams {
    fn show(self, results: &mut Results) {
        [self.a0, self.a1, self.a2, self.b0, self.b1, self.b2].show(results);
    }
}

impl Operand for BiquadFilter {
    fn read(operands: &mut Operands<'_>) -> Option<BiquadFilter> {
        let params = operands.read()?;
        let [x0, x1, x2, y0, y1, y2]: [f32; 6] = operands.read()?;
        Some(BiquadFilter {
            params,
            x0,
            x1,
            x2,
            y0,
            y1,
            y2,
        })
    }
}

impl Shown for BiquadFilter {
    fn show(self, results: &mut Results) {
        self.params.show(results);
        [self.x0, self.x1, self.x2, self.y0, self.y1, self.y2].show(results);
    }
}

impl Operand for NotchFilter {
    fn read(operands: &mut Operands<'_>) -> Option<NotchFilter> {
        let (fc, fb, dt, t) = operands.read()?;
        let biquad = operands.read()?;
        Some(NotchFilter {
            fc,
            fb,
            dt,
            t,
            biquad,
        })
    }
}

impl Shown for NotchFilter {
    fn show(self, results: &mut Results) {
        [self.fc, self.fb, self.dt, self.t].show(results);
        self.biquad.show(results);
    }
}

impl Operand for Notches {
    fn read(operands: &mut Operands<'_>) -> Option<Notches> {
        let (first, second, third) = operands.read()?;
        Some(Notches {
            first,
            second,
            third,
        })
    }
}

impl Shown for Notches {
    fn show(self, results: &mut Results) {
        (self.first, self.second, self.third).show(results);
    }
}
