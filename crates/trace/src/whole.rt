// A whole file in memory, and its text.
ghost use Rattle.std.specs.Prelude.{◌≡◌, ◌≤◌, ◌<◌, Some, length};
ghost use Rattle.std.proofs.lemmas.List.Edits.{sets};
ghost use Rattle.trace.specs.Trace.{refused_line, reason_text, course_refusal, course_lines, course_text, replay_of};
ghost use Rattle.trace.specs.Slices.{replayed_of, call_replay, wrote};
ghost use Rattle.trace.specs.PrintLaws.{Printable};

use crate::course::{Course, Replayed};
use crate::going::rows;
use crate::measure::measured;
use crate::opening::start;
use crate::refusal_line::{reason_line, refused_line};
use refusal::Refusal;

// How many bytes the line of a refusal has.
fn line_length(why: Refusal) -> usize
    ensures { (result ≡ length (refused_line (Some why))) × (result ≤ 11) }
{
    if why.number() < 10 { 10 } else { 11 }
}

// How many bytes the line that a refusal adds has.
fn reason_length(why: Option<Refusal>) -> usize
    ensures { (result ≡ length (reason_text why)) × (result ≤ 11) }
{
    match why {
        Some(why) => line_length(why),
        None => 0,
    }
}

// The lines of a trace, which `out` has room for. `cells` and `values` are lent for the work only, and have room for a row.
fn print(course: Course, trace: &[u8], cells: &mut [f32], values: &mut [f32], out: &mut [u8])
    requires { Printable course trace.now (length cells.old) (length values.old) (length out.old) }
    ensures { out.new ≡ sets out.old 0 (course_lines course trace.now) }
{
    let mut at = 0;
    let mut o = 0;
    let mut going = course;
    // Kept: it counts no index. Rows are taken, as many as there is room for, until none is left.
    while 0 < going.left {
        let went = rows(going, &trace[at..], cells, values, &mut out[o..]);
        if went.refusal.is_some() {
            return;
        }
        if went.rows == 0 {
            return;
        }
        going = went.course;
        at += went.taken;
        o += went.written;
    }
}

// The same, with the room for the work: 64 rows of eight lanes at once.
fn print_all(course: Course, trace: &[u8], out: &mut [u8])
    requires { length (course_lines course trace.now) ≤ length out.old }
    ensures { out.new ≡ sets out.old 0 (course_lines course trace.now) }
{
    let mut cells = [0.0f32; 1536];
    let mut values = [0.0f32; 512];
    print(course, trace, &mut cells, &mut values, out);
}

// A trace that has rows: its text where `out` has room for the whole of it, else nothing. It is gone through twice, since how long the text is
// must be known first.
fn replay_trace(course: Course, trace: &[u8], out: &mut [u8]) -> Replayed
    requires { (course.lanes ≤ 8) × (course.left < 1000000000) }
    ensures { (result ≡ replayed_of (course_refusal course trace.now) (course_text course trace.now) out.old)
        × (out.new ≡ wrote out.old (course_text course trace.now)) }
{
    let is = measured(course, trace);
    let lines = is.rows * (course.lanes * 9);
    let need = lines + reason_length(is.refusal);
    let whole = need <= out.len();
    if whole {
        print_all(course, trace, out);
        reason_line(is.refusal, &mut out[lines..]);
    }
    Replayed {
        refusal: is.refusal,
        need,
        whole,
    }
}

// A file that is refused from the start.
fn replay_refused(why: Refusal, out: &mut [u8]) -> Replayed
    ensures { (result ≡ replayed_of (Some why) (refused_line (Some why)) out.old) × (out.new ≡ wrote out.old (refused_line (Some why))) }
{
    let need = line_length(why);
    let whole = need <= out.len();
    refused_line(Some(why), out);
    Replayed {
        refusal: Some(why),
        need,
        whole,
    }
}

// A whole file in memory: what it is refused with, how many bytes its text has, and the text at the start of `out`, where it has room for
// the whole of it. Where it has not, nothing is written and `whole` is false.
pub fn replay(bytes: &[u8], out: &mut [u8]) -> Replayed
    ensures { (result ≡ call_replay bytes.now out.old)
        × (out.new ≡ wrote out.old (replay_of bytes.now)) }
{
    match start(bytes) {
        Ok(begun) => replay_trace(begun.course, &bytes[begun.at..], out),
        Err(refused) => replay_refused(refused.refusal, out),
    }
}
