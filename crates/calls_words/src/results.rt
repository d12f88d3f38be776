// The results of a call.
use crate::Shown;
use arrayvec::ArrayVec;
use refusal::Answer;

// The most results that a call has: the longest second run of notches.
const MOST: usize = 64;

// The words of the results. A call is lent them, and puts its own there: handed back in the reply, all of the room would be copied on each step of
// the way.
#[derive(Drop)]
pub struct Results {
    words: ArrayVec<u32, MOST>,
}

// What a call answers: a refusal, if it is refused. Its results are where they were lent. `None` where the line is no call: then there are none.
pub type Reply = Option<Answer<()>>;

impl Results {
    pub fn of<T: Shown>(value: T) -> Results {
        let mut results = Results {
            words: ArrayVec::new(),
        };
        value.show(&mut results);
        results
    }

    // Puts a word after the others. No call has more than there is room for.
    pub(crate) fn word(&mut self, word: u32) {
        let _ = self.words.try_push(word);
    }

    pub fn words(&self) -> &[u32] {
        self.words.as_slice()
    }
}
