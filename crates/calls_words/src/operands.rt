// The operands of a line, read one after the other.
use crate::Operand;
use arrayvec::ArrayVec;

// What is left of the line: words, each of them a space and 8 lowercase hexadecimal digits.
#[derive(Clone, Copy)]
pub struct Operands<'a> {
    rest: &'a [u8],
}

impl<'a> Operands<'a> {
    pub(crate) fn new(rest: &'a [u8]) -> Self {
        Operands { rest }
    }

    pub fn is_empty(&self) -> bool {
        self.rest.is_empty()
    }

    // The next word, if there is one and it is of the form.
    pub(crate) fn word(&mut self) -> Option<u32> {
        let (text, rest) = self.rest.split_first_chunk::<9>()?;
        self.rest = rest;
        match text.as_slice() {
            [b' ', digits @ ..] => word_of(digits),
            _ => None,
        }
    }

    // The value that the next ones spell.
    pub fn read<T: Operand>(&mut self) -> Option<T> {
        T::read(self)
    }

    // All of the operands as one value.
    pub fn all<T: Operand>(mut self) -> Option<T> {
        let value = self.read()?;
        if self.is_empty() { Some(value) } else { None }
    }
}

// All operands that are left, as numbers: at most N.
impl<const N: usize> Operand for ArrayVec<f32, N> {
    fn read(operands: &mut Operands<'_>) -> Option<ArrayVec<f32, N>> {
        let mut numbers = ArrayVec::new();
        for _ in 0..N {
            if operands.is_empty() {
                break;
            }
            let _ = numbers.try_push(operands.read()?);
        }
        Some(numbers)
    }
}

fn word_of(digits: &[u8]) -> Option<u32> {
    digits.iter().try_fold(0u32, |word, digit| {
        let value = value_of(*digit)?;
        Some(word << 4 | value)
    })
}

fn value_of(digit: u8) -> Option<u32> {
    match digit {
        b'0'..=b'9' => Some(u32::from(digit - b'0')),
        b'a'..=b'f' => Some(u32::from(digit - b'a') + 10),
        _ => None,
    }
}
