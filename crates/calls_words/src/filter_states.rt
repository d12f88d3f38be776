// The states of the crate filters.
// Kept: each state lists its fields here, and so do those of the other files, since the gate takes no derive of our own.
use crate::{Operand, Operands, Results, Shown};
use filters::{
    Complementary, Highpass, IntegratingComplementary, IntegratingHighpass, Lowpass, MovingAverage,
    NthOrderLowpass, SlewRate,
};

impl Operand for Lowpass {
    fn read(operands: &mut Operands<'_>) -> Option<Lowpass> {
        let [tau, dt, y, alpha0, alpha1]: [f32; 5] = operands.read()?;
        Some(Lowpass {
            tau,
            dt,
            y,
            alpha0,
            alpha1,
        })
    }
}

impl Shown for Lowpass {
    fn show(self, results: &mut Results) {
        [self.tau, self.dt, self.y, self.alpha0, self.alpha1].show(results);
    }
}

impl Operand for NthOrderLowpass {
    fn read(operands: &mut Operands<'_>) -> Option<NthOrderLowpass> {
        let (first, second) = operands.read()?;
        Some(NthOrderLowpass { first, second })
    }
}

impl Shown for NthOrderLowpass {
    fn show(self, results: &mut Results) {
        (self.first, self.second).show(results);
    }
}

impl Operand for Highpass {
    fn read(operands: &mut Operands<'_>) -> Option<Highpass> {
        let [tau, dt, y, x_prev, alpha]: [f32; 5] = operands.read()?;
        Some(Highpass {
            tau,
            dt,
            y,
            x_prev,
            alpha,
        })
    }
}

impl Shown for Highpass {
    fn show(self, results: &mut Results) {
        [self.tau, self.dt, self.y, self.x_prev, self.alpha].show(results);
    }
}

impl Operand for Complementary {
    fn read(operands: &mut Operands<'_>) -> Option<Complementary> {
        let (lp_filter, hp_filter) = operands.read()?;
        Some(Complementary {
            lp_filter,
            hp_filter,
        })
    }
}

impl Shown for Complementary {
    fn show(self, results: &mut Results) {
        (self.lp_filter, self.hp_filter).show(results);
    }
}

impl Operand for IntegratingHighpass {
    fn read(operands: &mut Operands<'_>) -> Option<IntegratingHighpass> {
        let [tau, dt, alpha, y_prev]: [f32; 4] = operands.read()?;
        Some(IntegratingHighpass {
            tau,
            dt,
            alpha,
            y_prev,
        })
    }
}

impl Shown for IntegratingHighpass {
    fn show(self, results: &mut Results) {
        [self.tau, self.dt, self.alpha, self.y_prev].show(results);
    }
}

impl Operand for IntegratingComplementary {
    fn read(operands: &mut Operands<'_>) -> Option<IntegratingComplementary> {
        let [tau, dt, alpha, y_prev]: [f32; 4] = operands.read()?;
        Some(IntegratingComplementary {
            tau,
            dt,
            alpha,
            y_prev,
        })
    }
}

impl Shown for IntegratingComplementary {
    fn show(self, results: &mut Results) {
        [self.tau, self.dt, self.alpha, self.y_prev].show(results);
    }
}

impl Operand for MovingAverage {
    fn read(operands: &mut Operands<'_>) -> Option<MovingAverage> {
        let (length, head, slots) = operands.read()?;
        Some(MovingAverage {
            length,
            head,
            slots,
        })
    }
}

impl Shown for MovingAverage {
    fn show(self, results: &mut Results) {
        (self.length, self.head).show(results);
        let slots = self.slots;
        slots.show(results);
    }
}

impl Operand for SlewRate {
    fn read(operands: &mut Operands<'_>) -> Option<SlewRate> {
        let [rate_limit, signal, dt]: [f32; 3] = operands.read()?;
        Some(SlewRate {
            rate_limit,
            signal,
            dt,
        })
    }
}

impl Shown for SlewRate {
    fn show(self, results: &mut Results) {
        [self.rate_limit, self.signal, self.dt].show(results);
    }
}
