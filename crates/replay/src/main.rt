// A replay from standard input to standard output: settings and trace as two .npy arrays in, a line a row out, in constant memory whatever
// the length. A refusal's line goes to standard error too; a read or a write that fails ends the program, which then says so there.
#![tactic(auto)]

ghost use Rattle.std.specs.Prelude.{◌≤◌, length};

use refusal::Refusal;
use std::fmt::{self, Display, Formatter};
use std::io::{Read, Stderr, Stdin, Stdout};
use trace::Course;

// What the program ends by, where it is not the last line.
#[derive(Clone, Copy, Debug, PartialEq, Eq)]
enum Failed {
    Read,
    Write,
}

impl Display for Failed {
    fn fmt<W: fmt::Write>(&self, f: &mut Formatter<W>) -> fmt::Result {
        f.write_str(match self {
            Failed::Read => "read failed",
            Failed::Write => "write failed",
        })
    }
}

// The bytes that were read and are not yet taken, in a buffer that is lent.
#[derive(Drop)]
struct Window<'a> {
    stdin: Stdin,
    buffer: &'a mut [u8],
    from: usize,
    to: usize,
    ghost within: { (from ≤ to) × (to ≤ length buffer.now) },
}

impl Window<'_> {
    fn bytes(&self) -> &[u8] {
        &self.buffer[self.from..self.to]
    }

    fn is_empty(&self) -> bool {
        self.from == self.to
    }

    // Takes so many bytes, or all.
    fn take(&mut self, n: usize) {
        self.from += n.min(self.to - self.from);
    }

    // One read behind the bytes that are there, which go to the front. Answers whether it gave any: it gives none at the end of the input.
    fn fill(&mut self) -> Result<bool, Failed> {
        self.buffer.copy_within(self.from..self.to, 0);
        self.to -= self.from;
        self.from = 0;
        let n = self
            .stdin
            .read(&mut self.buffer[self.to..])
            .map_err(|_| Failed::Read)?;
        self.to += n;
        Ok(n != 0)
    }
}

// A replay, and the room that it has for cells, values and text.
#[derive(Drop)]
struct Replay<'w, 'a> {
    input: Window<'w>,
    cells: &'a mut [f32],
    values: &'a mut [f32],
    text: &'a mut [u8],
    output: Stdout,
    error: Stderr,
}

impl Replay<'_, '_> {
    // Writes the first bytes of the text, and answers them.
    fn write(&self, n: usize) -> Result<&[u8], Failed> {
        let lines = self.text.get(..n).ok_or(Failed::Write)?;
        self.output.write_all(lines).map_err(|_| Failed::Write)?;
        Ok(lines)
    }

    // Writes the last line, if there is one. It is said on standard error too, where it is the reason.
    fn write_last(&self, n: usize) -> Result<(), Failed> {
        let line = self.write(n)?;
        let _ = self.error.write_all(line);
        Ok(())
    }

    // A refused start or row: its refusal's line.
    fn refuse(&mut self, why: Refusal) -> Result<(), Failed> {
        let n = trace::refused_line(Some(why), self.text);
        self.write_last(n)
    }

    // The end of the input, or bytes too many: the last line is what these say.
    fn close(&mut self, course: Course) -> Result<(), Failed> {
        let n = trace::end(course, self.input.bytes(), self.text);
        self.write_last(n)
    }

    // As many rows as can be taken, or, where no whole row is left, the next read, unless bytes too many are there already. Answers the trace
    // after them, and none where it has ended.
    fn turn(&mut self, course: Course) -> Result<Option<Course>, Failed> {
        let went = trace::rows(
            course,
            self.input.bytes(),
            self.cells,
            self.values,
            self.text,
        );
        if let Some(why) = went.refusal {
            self.write(went.written)?;
            self.refuse(why)?;
            return Ok(None);
        }
        if went.rows != 0 {
            self.write(went.written)?;
            self.input.take(went.taken);
            return Ok(Some(went.course));
        }
        let over = went.course.left == 0 && !self.input.is_empty();
        if over || !self.input.fill()? {
            self.close(went.course)?;
            return Ok(None);
        }
        Ok(Some(went.course))
    }

    // The rows. A proved loop has to end, and nothing says that the input does: so the turns are counted, up to a number that no run uses up.
    fn go(&mut self, mut course: Course) -> Result<(), Failed> {
        for _ in 0..u64::MAX {
            match self.turn(course)? {
                Some(next) => course = next,
                None => break,
            }
        }
        Ok(())
    }

    // The start of the file decides whether there are rows at all. It is there once so many bytes are, or the input ends, and each read gives
    // a byte at least.
    fn run(&mut self) -> Result<(), Failed> {
        let enough = trace::start_bytes();
        for _ in 0..enough {
            if enough <= self.input.bytes().len() || !self.input.fill()? {
                break;
            }
        }
        match trace::start(self.input.bytes()) {
            Ok(begun) => {
                self.input.take(begun.at);
                self.go(begun.course)
            }
            Err(refused) => self.refuse(refused.refusal),
        }
    }
}

fn main(rt: HostRuntime) {
    let mut buffer = [0u8; 65536];
    // 7280 values, 910 rows of eight lanes: `text` holds their words, 9 bytes each, with 16 bytes over. Three cells a value.
    let mut cells = [0.0f32; 21840];
    let mut values = [0.0f32; 7280];
    let mut text = [0u8; 65536];
    let input = Window {
        stdin: rt.stdin(),
        buffer: &mut buffer,
        from: 0,
        to: 0,
    };
    let mut replay = Replay {
        input,
        cells: &mut cells,
        values: &mut values,
        text: &mut text,
        output: rt.stdout(),
        error: rt.stderr(),
    };
    if let Err(failed) = replay.run() {
        let _ = eprintln!(rt; "{failed}");
    }
}
