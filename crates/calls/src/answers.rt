// The text of the answers that wait to be written.
use arrayvec::ArrayVec;
use calls_words::{Reply, Results};
use refusal::{refusal_number, refusal_of};
use std::io::Write;

// How many bytes may wait.
const MOST: usize = 65536;

// Answers are written out before fewer bytes than this are left for the next, which is more than the longest answer.
const ROOM: usize = 1024;

const DIGITS: [u8; 16] = *b"0123456789abcdef";

#[derive(Drop)]
pub(crate) struct Answers {
    text: ArrayVec<u8, MOST>,
}

impl Answers {
    pub(crate) fn new() -> Answers {
        Answers {
            text: ArrayVec::new(),
        }
    }

    pub(crate) fn text(&self) -> &[u8] {
        self.text.as_slice()
    }

    pub(crate) fn clear(&mut self) {
        self.text.clear();
    }

    // Whether there is room for another answer.
    pub(crate) fn has_room(&self) -> bool {
        ROOM < self.text.remaining_capacity()
    }

    // The refusal's number and the results, or a question mark where the line is no call.
    pub(crate) fn put(&mut self, reply: Reply, results: &Results) {
        match reply {
            None => self.put_byte(b'?'),
            Some(answer) => {
                let number = refusal_number(refusal_of(&answer));
                let _ = write!(self.text, "{number}");
                for word in results.words() {
                    self.put_word(*word);
                }
            }
        }
        self.put_byte(b'\n');
    }

    // A space and the word's 8 digits. By hand, since most of an answer is words, and a format goes through several calls for each.
    fn put_word(&mut self, word: u32) {
        let mut text = *b" 00000000";
        let mut rest = word;
        for digit in text[1..].iter_mut().rev() {
            *digit = DIGITS[(rest % 16) as usize];
            rest /= 16;
        }
        let _ = self.text.try_extend_from_slice(&text);
    }

    fn put_byte(&mut self, byte: u8) {
        let _ = self.text.try_push(byte);
    }
}
