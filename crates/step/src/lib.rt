// What one step of a filter or a controller gives. A state is given by value and handed back.
#![tactic(auto)]

// The value of a step, and the state after it.
#[derive(Clone, Copy, Debug, PartialEq)]
pub struct Stepped<S> {
    pub y: f32,
    pub state: S,
}
