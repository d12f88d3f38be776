// The mean of the last values. The Rust's const length is here a length beside a fixed array of 16 slots: every call, on
// a state built by hand too, refuses a length that is not 1 to 16, or a head above the length.
ghost use Rattle.std.specs.Prelude.{◌≡◌, ◌≤◌};
ghost use Rattle.filters.specs.MovingAverage.{bad_length, bad_window, new_with_value_moving_average, window_store, window_mean, call_new_moving_average, call_new_with_value_moving_average, call_update_moving_average};

use refusal::{Answer, Refusal};
use step::Stepped;

// Kept: the length stands beside the slots, and no ghost field bounds it, since lengths of 0 and 17 are to be refused and not
// ruled out.
#[derive(Clone, Copy, Default)]
pub struct MovingAverage {
    pub length: usize,
    pub head: usize,
    pub slots: [f32; 16],
}

#[tactic(auto, unfolding(crate::specs::MovingAverage::bad_length))]
fn bad_length(length: usize) -> bool
    ensures { result ≡ bad_length length }
{
    length < 1 || 16 < length
}

// A new window. One of length 0 is the all-zero state.
fn filled(length: usize, value: f32) -> MovingAverage
    requires { length ≤ 16 }
    ensures { result ≡ new_with_value_moving_average length value }
{
    let mut slots = [0.0f32; 16];
    slots[..length].fill(value);
    MovingAverage {
        length,
        head: 0,
        slots,
    }
}

impl MovingAverage {
    #[tactic(auto, unfolding(crate::specs::MovingAverage::bad_window))]
    fn bad(self) -> bool
        ensures { result ≡ bad_window self }
    {
        bad_length(self.length) || self.length < self.head
    }

    // The value goes to the head's slot; after the last slot, to slot 0, and there the head stays, so that the next
    // value goes to slot 0 again.
    #[tactic(auto, unfolding(crate::specs::MovingAverage::window_store))]
    fn store(self, value: f32) -> Self
        requires { self.length ≤ 16 }
        ensures { result ≡ window_store self value }
    {
        let mut slots = self.slots;
        if self.head < self.length {
            slots[self.head] = value;
            return MovingAverage {
                head: self.head + 1,
                slots,
                ..self
            };
        }
        slots[0] = value;
        MovingAverage {
            head: 0,
            slots,
            ..self
        }
    }

    #[tactic(auto, unfolding(crate::specs::MovingAverage::window_mean))]
    fn mean(self) -> f32
        requires { self.length ≤ 16 }
        ensures { result ≡ window_mean self }
    {
        let slots = self.slots;
        let sum = slots[..self.length].iter().fold(0.0f32, |sum, x| sum + *x);
        sum / (self.length as f32)
    }

    #[tactic(auto, unfolding(crate::specs::MovingAverage::call_new_moving_average))]
    pub fn new(length: usize) -> Answer<MovingAverage>
        ensures { result ≡ call_new_moving_average length }
    {
        MovingAverage::new_with_value(length, 0.0)
    }

    // Refused, the state is all zero.
    #[tactic(auto, using(crate::specs::MovingAverageLaws::length_fits), unfolding(crate::specs::MovingAverage::call_new_with_value_moving_average))]
    pub fn new_with_value(length: usize, value: f32) -> Answer<MovingAverage>
        ensures { result ≡ call_new_with_value_moving_average length value }
    {
        if bad_length(length) {
            return Refusal::Window.with(filled(0, 0.0));
        }
        Ok(filled(length, value))
    }

    // Refused, y is +0 and the state is as it was.
    #[tactic(auto, using(crate::specs::MovingAverageLaws::window_fits, crate::specs::MovingAverageLaws::store_length), unfolding(crate::specs::MovingAverage::call_update_moving_average))]
    pub fn update(self, value: f32) -> Answer<Stepped<MovingAverage>>
        ensures { result ≡ call_update_moving_average self value }
    {
        if self.bad() {
            return Refusal::Window.with(Stepped {
                y: 0.0,
                state: self,
            });
        }
        let state = self.store(value);
        let y = state.mean();
        Ok(Stepped { y, state })
    }
}
