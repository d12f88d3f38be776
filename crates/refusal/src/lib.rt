// The refusals of document 01 and of the change requests, each named once, and what a call gives that can be refused.
#![tactic(auto)]

ghost use Rattle.std.specs.Prelude.{◌≡◌};
ghost use Rattle.refusal.specs.Refusal.{number_of};
ghost use Rattle.refusal.specs.Answers.{refused, given, refusal_of, refusal_number, answer_of};

#[derive(Clone, Copy, Debug, PartialEq, Eq)]
pub enum Refusal {
    // min < max does not hold.
    Range = 1,
    // The low pass's tau > 0 does not hold.
    Tau = 2,
    // The slew limit has a negative sign, or is NaN.
    Slew = 3,
    // Alpha is not above 0 and at most 1.
    Alpha = 4,
    // An odd run of points, or one point.
    Points = 5,
    // More than 64 wrapping steps.
    Steps = 6,
    // min ≤ max fails, or f_min ≤ f_max fails.
    Motor = 7,
    // A lane above 7.
    Lane = 8,
    // The lane is closed.
    Closed = 9,
    // Open on an open lane.
    Open = 10,
    // Under 8 bytes, wrong magic, or a version other than 1.0 and 2.0.
    Magic = 11,
    // Length or text cut off, or not as document 01 spells it.
    Header = 12,
    // An element kind that is not accepted there.
    Kind = 13,
    // A shape that is not accepted there.
    Shape = 14,
    // Data cut off.
    Cut = 15,
    // Bytes after the last array.
    Rest = 16,
    // A row's sum of squares is not finite and above 0.
    RowSum = 17,
    // A window's length is not 1 to 16, or its head is above the length.
    Window = 18,
    // A second run that is shorter than the first.
    ShortRun = 25,
}

impl Refusal {
    // The refusal's number in document 01's table or its change request.
    pub fn number(self) -> u32
        ensures { result ≡ number_of self }
    {
        self as u32
    }

    // The answer of a call that is refused with this: the results are those that are fixed for it.
    pub fn with<A>(self, answer: A) -> Answer<A>
        ensures { result ≡ refused self answer }
    {
        Err(Refused {
            refusal: self,
            answer,
        })
    }
}

// Why a call is refused, and the results that are fixed for it: numbers are +0, a state is as it was, a constructor's is all zero, and
// steps are 0, or 64 where they ran out.
// The answer comes first, so that it lies at the same place as that of `Ok`: else the compiler takes states apart byte by byte to hand them on.
#[derive(Clone, Copy, Debug, PartialEq, Eq)]
pub struct Refused<A> {
    pub answer: A,
    pub refusal: Refusal,
}

// What a call gives that can be refused.
pub type Answer<A> = Result<A, Refused<A>>;

// The results, those of a refused call too.
pub fn given<A>(answer: Answer<A>) -> A
    ensures { result ≡ given answer }
{
    match answer {
        Ok(results) => results,
        Err(refused) => refused.answer,
    }
}

// What a call is refused with, if it is.
pub fn refusal_of<A>(answer: &Answer<A>) -> Option<Refusal>
    ensures { result ≡ refusal_of answer.now }
{
    match answer {
        Ok(_) => None,
        Err(refused) => Some(refused.refusal),
    }
}

// The number of what is refused, 0 where nothing is.
pub fn refusal_number(why: Option<Refusal>) -> u32
    ensures { result ≡ refusal_number why }
{
    why.map_or(0, |refusal| refusal.number())
}

// The answer of a call that is refused with this, if with anything, and has these results either way.
pub fn answer_of<A>(why: Option<Refusal>, answer: A) -> Answer<A>
    ensures { result ≡ answer_of why answer }
{
    match why {
        None => Ok(answer),
        Some(refusal) => refusal.with(answer),
    }
}
