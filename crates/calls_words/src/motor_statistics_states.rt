// The states of the crates motor_lin and statistics.
use crate::{Operand, Operands, Results, Shown};
use motor_lin::{Command, MotorLin, Thrust};
use statistics::{MeanVar, Statistics};

impl Operand for Command {
    fn read(operands: &mut Operands<'_>) -> Option<Command> {
        operands.read().map(Command)
    }
}

impl Shown for Command {
    fn show(self, results: &mut Results) {
        self.0.show(results);
    }
}

impl Operand for Thrust {
    fn read(operands: &mut Operands<'_>) -> Option<Thrust> {
        operands.read().map(Thrust)
    }
}

impl Shown for Thrust {
    fn show(self, results: &mut Results) {
        self.0.show(results);
    }
}

impl Operand for MotorLin {
    fn read(operands: &mut Operands<'_>) -> Option<MotorLin> {
        let (a, b) = operands.read()?;
        let (c_min, c_max) = operands.read()?;
        let (f_min, f_max) = operands.read()?;
        Some(MotorLin {
            a,
            b,
            c_min,
            c_max,
            f_min,
            f_max,
        })
    }
}

impl Shown for MotorLin {
    fn show(self, results: &mut Results) {
        (self.a, self.b).show(results);
        (self.c_min, self.c_max).show(results);
        (self.f_min, self.f_max).show(results);
    }
}

impl Operand for Statistics {
    fn read(operands: &mut Operands<'_>) -> Option<Statistics> {
        let (initialized, alpha, mean, variance) = operands.read()?;
        Some(Statistics {
            initialized,
            alpha,
            mean,
            variance,
        })
    }
}

impl Shown for Statistics {
    fn show(self, results: &mut Results) {
        self.initialized.show(results);
        [self.alpha, self.mean, self.variance].show(results);
    }
}

impl Shown for MeanVar {
    fn show(self, results: &mut Results) {
        (self.mean, self.variance).show(results);
    }
}
