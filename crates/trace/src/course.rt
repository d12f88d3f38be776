// What is known of a replay while it runs.
use bank::Bank;
use npy::Kind;
use refusal::Refusal;

// A trace under way: the element kind of its cells, how many lanes a row has, how many rows are still to come, and the lanes.
#[derive(Clone, Copy)]
pub struct Course {
    pub kind: Kind,
    pub lanes: usize,
    pub left: usize,
    pub bank: Bank,
}

// What the start of a file says: where the first row begins. Refused, there are no lanes and no rows, the bank is fresh, and the place is 0.
#[derive(Clone, Copy)]
pub struct Begun {
    pub course: Course,
    pub at: usize,
}

// What a call of `rows` did: what the first refused row was refused with, the trace after the rows that it took (and, where one was refused, after
// the updates of that row before the refused one), how many rows these were, how many bytes of the window they had, and how many bytes of text it
// wrote.
// Kept: a refusal beside the rest, here and twice below, and no Result: what came before a refusal counts too.
#[derive(Clone, Copy)]
pub struct RowsTaken {
    pub refusal: Option<Refusal>,
    pub course: Course,
    pub rows: usize,
    pub taken: usize,
    pub written: usize,
}

// What a trace comes to: what it is refused with, and how many rows come before that.
#[derive(Clone, Copy)]
pub struct Measured {
    pub refusal: Option<Refusal>,
    pub rows: usize,
}

// What a whole file comes to: what it is refused with, how many bytes its text has, and whether the text was written. A refused file has a text
// too.
#[derive(Clone, Copy)]
pub struct Replayed {
    pub refusal: Option<Refusal>,
    pub need: usize,
    // Kept: a flag beside `need`, and no Option of it. How many bytes the text has is told where it was not written too.
    pub whole: bool,
}
