// The call that a line makes.
use crate::{Operand, Operands, Reply, Results, Shown};
use refusal::{Answer, answer_of, given, refusal_of};
use step::Stepped;

// A name, and what follows it.
#[derive(Clone, Copy)]
pub struct Call<'a> {
    pub name: &'a [u8],
    pub operands: Operands<'a>,
}

impl<'a> Call<'a> {
    // The name goes to the first space, or to the line's end.
    pub fn of(line: &'a [u8]) -> Self {
        let end = line
            .iter()
            .position(|byte| *byte == b' ')
            .unwrap_or(line.len());
        Call {
            name: &line[..end],
            operands: Operands::new(&line[end..]),
        }
    }

    // The name of the state before the dot, and the call without it.
    pub fn on_state(self) -> Option<(&'a [u8], Self)> {
        let name = self.name;
        let dot = name.iter().position(|byte| *byte == b'.')?;
        let call = Call {
            name: &name[dot + 1..],
            operands: self.operands,
        };
        Some((&name[..dot], call))
    }

    // All of the operands as one value.
    pub fn all<T: Operand>(self) -> Option<T> {
        self.operands.all()
    }

    // The calls that every state has: to show it, and to set it by hand.
    pub fn by_hand<S: Operand + Shown>(self, state: &mut S, results: &mut Results) -> Reply {
        match self.name {
            b"show" => {
                let () = self.all()?;
                gives(*state, results)
            }
            b"state" => sets(state, Ok(self.all()?)),
            _ => None,
        }
    }
}

// The reply of a call that cannot be refused.
pub fn gives<R: Shown>(value: R, results: &mut Results) -> Reply {
    value.show(results);
    Some(Ok(()))
}

// The reply of a call that can.
pub fn answers<R: Shown>(answer: Answer<R>, results: &mut Results) -> Reply {
    given(answer).show(results);
    Some(answer_of(refusal_of(&answer), ()))
}

// The reply of a call that leaves a state, which is kept.
pub fn leaves<R: Shown, S: Drop>(
    state: &mut S,
    called: (Answer<R>, S),
    results: &mut Results,
) -> Reply {
    let (answer, after) = called;
    *state = after;
    answers(answer, results)
}

// The same of a constructor or a setter, which has no other results.
pub fn sets<S: Copy>(state: &mut S, answer: Answer<S>) -> Reply {
    *state = given(answer);
    Some(answer_of(refusal_of(&answer), ()))
}

// The same of a step.
pub fn steps<S: Copy>(state: &mut S, answer: Answer<Stepped<S>>, results: &mut Results) -> Reply {
    let stepped = given(answer);
    *state = stepped.state;
    stepped.y.show(results);
    Some(answer_of(refusal_of(&answer), ()))
}
