// Numbers, switches and runs of them.
use crate::{Operand, Operands, Results, Shown};
use func::Wrapped;

impl Operand for u32 {
    fn read(operands: &mut Operands<'_>) -> Option<u32> {
        operands.word()
    }
}

impl Shown for u32 {
    fn show(self, results: &mut Results) {
        results.word(self);
    }
}

// By its bits: every NaN is read as the one NaN, and shown as it.
impl Operand for f32 {
    fn read(operands: &mut Operands<'_>) -> Option<f32> {
        operands.word().map(float::from_bits)
    }
}

impl Shown for f32 {
    fn show(self, results: &mut Results) {
        results.word(float::to_bits(self));
    }
}

impl Operand for bool {
    fn read(operands: &mut Operands<'_>) -> Option<bool> {
        match operands.word()? {
            0 => Some(false),
            1 => Some(true),
            _ => None,
        }
    }
}

impl Shown for bool {
    fn show(self, results: &mut Results) {
        results.word(u32::from(self));
    }
}

// Shown modulo 2^32.
impl Operand for usize {
    fn read(operands: &mut Operands<'_>) -> Option<usize> {
        Some(operands.word()? as usize)
    }
}

impl Shown for usize {
    fn show(self, results: &mut Results) {
        results.word((self % 0x1_0000_0000) as u32);
    }
}

// A switch: whether it is on, and what it then has. Where it is off, what would stand there is ignored, and shown as zeros.
impl<T: Operand + Default> Operand for Option<T> {
    fn read(operands: &mut Operands<'_>) -> Option<Option<T>> {
        let (on, value) = operands.read::<(bool, T)>()?;
        Some(if on { Some(value) } else { None })
    }
}

impl<T: Shown + Default> Shown for Option<T> {
    fn show(self, results: &mut Results) {
        (self.is_some(), self.unwrap_or_default()).show(results);
    }
}

impl Operand for () {
    fn read(_operands: &mut Operands<'_>) -> Option<()> {
        Some(())
    }
}

impl Shown for () {
    fn show(self, _results: &mut Results) {}
}

impl<A: Operand, B: Operand> Operand for (A, B) {
    fn read(operands: &mut Operands<'_>) -> Option<(A, B)> {
        Some((operands.read()?, operands.read()?))
    }
}

impl<A: Shown, B: Shown> Shown for (A, B) {
    fn show(self, results: &mut Results) {
        self.0.show(results);
        self.1.show(results);
    }
}

impl<A: Operand, B: Operand, C: Operand> Operand for (A, B, C) {
    fn read(operands: &mut Operands<'_>) -> Option<(A, B, C)> {
        Some((operands.read()?, operands.read()?, operands.read()?))
    }
}

impl<A: Shown, B: Shown, C: Shown> Shown for (A, B, C) {
    fn show(self, results: &mut Results) {
        self.0.show(results);
        self.1.show(results);
        self.2.show(results);
    }
}

impl<A: Operand, B: Operand, C: Operand, D: Operand> Operand for (A, B, C, D) {
    fn read(operands: &mut Operands<'_>) -> Option<(A, B, C, D)> {
        Some((
            operands.read()?,
            operands.read()?,
            operands.read()?,
            operands.read()?,
        ))
    }
}

// What wrapping gives.
impl Shown for Wrapped {
    fn show(self, results: &mut Results) {
        (self.value, self.steps).show(results);
    }
}

// The numbers of a frame, or of a window.
impl<const N: usize> Operand for [f32; N] {
    fn read(operands: &mut Operands<'_>) -> Option<[f32; N]> {
        let mut numbers = [0.0; N];
        for number in &mut numbers {
            *number = operands.read()?;
        }
        Some(numbers)
    }
}

impl<const N: usize> Shown for [f32; N] {
    fn show(self, results: &mut Results) {
        for number in self {
            number.show(results);
        }
    }
}

impl Shown for &[f32] {
    fn show(self, results: &mut Results) {
        for number in self {
            number.show(results);
        }
    }
}
