// Replays files in memory, one after the other: on standard input each file after its length in four bytes, low byte first; on standard
// output the text of each, and a line `--` after it. The gate and the comparison run it on many files at once.
#![tactic(auto)]

use std::io::{self, Read, Stdin, Stdout};

// One file. Answers whether there may be more: there are none after one that there is no room for.
fn turn(mut stdin: Stdin, stdout: Stdout, input: &mut [u8], text: &mut [u8]) -> io::Result<bool> {
    let mut head = [0u8; 4];
    stdin.read_exact(&mut head)?;
    let length = u32::from_le_bytes(head) as usize;
    let Some(file) = input.get_mut(..length) else {
        return Ok(false);
    };
    stdin.read_exact(file)?;
    let replayed = trace::replay(file, text);
    match text.get(..replayed.need) {
        Some(lines) if replayed.whole => {
            stdout.write_all(lines)?;
            stdout.write_all(b"--\n")?;
            Ok(true)
        }
        _ => Ok(false),
    }
}

// A proved loop has to end, and nothing says that the input does: so the files are counted, up to a number that no run uses up.
fn run(stdin: Stdin, stdout: Stdout, input: &mut [u8], text: &mut [u8]) -> io::Result<()> {
    for _ in 0..u64::MAX {
        if !turn(stdin, stdout, input, text)? {
            break;
        }
    }
    Ok(())
}

fn main(rt: HostRuntime) {
    let mut input = [0u8; 65536];
    let mut text = [0u8; 65536];
    // A file that is cut off, or an output that is closed, ends the run.
    let _ = run(rt.stdin(), rt.stdout(), &mut input, &mut text);
}
