// A call as a line has it, its reply, and the words by which operands and results spell numbers and states.
#![tactic(auto)]

mod call;
mod controller_states;
mod filter_states;
mod motor_statistics_states;
mod notch_states;
mod numbers;
mod operands;
mod results;

pub use call::{Call, answers, gives, leaves, sets, steps};
pub use operands::Operands;
pub use results::{Reply, Results};

// What operands spell, by one word or more, one after the other. A state's are its fields, in the order in which docs/CALLS.md has them.
pub trait Operand: Drop {
    // The value that the next operands spell, if they spell one.
    fn read(operands: &mut Operands<'_>) -> Option<Self>;
}

// What results show, by words in the same order.
pub trait Shown: Copy {
    // Puts its words after the results that are there.
    fn show(self, results: &mut Results);
}
