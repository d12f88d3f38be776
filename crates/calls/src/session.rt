// Reads lines and writes their answers.
use crate::answers::Answers;
use crate::states::States;
use arrayvec::ArrayVec;
use calls_words::Results;
use std::fmt;
use std::fmt::{Display, Formatter};
use std::io::{Read, Stdin, Stdout};

// The longest line.
const LONGEST: usize = 2000;

// What ends the program before its input does.
// Kept: `replay` has the same enum. The two programs have no crate of their own in common.
#[derive(Clone, Copy)]
pub(crate) enum Failed {
    Read,
    Write,
}

impl Display for Failed {
    fn fmt<W: fmt::Write>(&self, f: &mut Formatter<W>) -> fmt::Result {
        match self {
            Failed::Read => f.write_str("read failed"),
            Failed::Write => f.write_str("write failed"),
        }
    }
}

// The bytes of a line that have come, and whether it is longer than a line may be.
// Kept: a flag beside the bytes. Their room is there in both cases, and an enum of the two would move it.
#[derive(Drop)]
struct Line {
    bytes: ArrayVec<u8, LONGEST>,
    long: bool,
}

impl Line {
    fn new() -> Line {
        Line {
            bytes: ArrayVec::new(),
            long: false,
        }
    }

    fn push(&mut self, byte: u8) {
        if self.bytes.try_push(byte).is_err() {
            self.long = true;
        }
    }

    fn clear(&mut self) {
        self.bytes.clear();
        self.long = false;
    }
}

// What is kept from read to read.
#[derive(Drop)]
pub(crate) struct Session {
    input: Stdin,
    output: Stdout,
    line: Line,
    states: States,
    answers: Answers,
}

impl Session {
    pub(crate) fn new(input: Stdin, output: Stdout) -> Session {
        Session {
            input,
            output,
            line: Line::new(),
            states: States::default(),
            answers: Answers::new(),
        }
    }

    // Answers are written after each read. At the end of the input a line that was begun counts as ended; a failed read is no end, and such
    // a line is not answered.
    pub(crate) fn run(&mut self) -> Result<(), Failed> {
        let mut bytes = [0; 65536];
        // A proved loop has to end, and nothing says that the input does: so the reads are counted, up to a number that no run reaches.
        for _ in 0..u64::MAX {
            let Ok(count) = self.input.read(&mut bytes) else {
                return Err(Failed::Read);
            };
            if count == 0 {
                return self.end();
            }
            for byte in &bytes[..count] {
                self.take(*byte)?;
            }
            self.flush()?;
        }
        Ok(())
    }

    fn end(&mut self) -> Result<(), Failed> {
        if self.line.bytes.is_empty() {
            return Ok(());
        }
        self.end_line()?;
        self.flush()
    }

    fn take(&mut self, byte: u8) -> Result<(), Failed> {
        if byte == b'\n' {
            return self.end_line();
        }
        self.line.push(byte);
        Ok(())
    }

    // Answers the line that has come, and begins the next.
    fn end_line(&mut self) -> Result<(), Failed> {
        let mut results = Results::of(());
        let reply = if self.line.long {
            None
        } else {
            self.states.answer(self.line.bytes.as_slice(), &mut results)
        };
        self.answers.put(reply, &results);
        self.line.clear();
        if self.answers.has_room() {
            return Ok(());
        }
        self.flush()
    }

    // Writes the answers that wait.
    fn flush(&mut self) -> Result<(), Failed> {
        let written = self.output.write_all(self.answers.text());
        self.answers.clear();
        written.map_err(|_| Failed::Write)
    }
}
