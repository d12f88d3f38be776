// The line for a refusal.
ghost use Rattle.std.specs.Prelude.{◌≡◌};
ghost use Rattle.trace.specs.Trace.{refused_line, reason_text};
ghost use Rattle.trace.specs.Slices.{wrote, wrote_count};

use refusal::{Refusal, refusal_number};

// Writes a text at the start of `out`, and answers how many bytes it has. Where it does not fit, nothing is written and the answer is 0.
fn write(text: &[u8], out: &mut [u8]) -> usize
    ensures { (result ≡ wrote_count out.old text.now) × (out.new ≡ wrote out.old text.now) }
{
    if out.len() < text.len() {
        return 0;
    }
    out[..text.len()].copy_from_slice(text);
    text.len()
}

// Kept: bytes put in their places, and no Display. The contract says which bytes these are, and nothing says what Display writes.
// Writes `refused N`, and `refused 0` where nothing is refused, and a line feed at the start of `out`, and answers how many bytes these are.
// Where they do not fit, nothing is written and the answer is 0.
pub fn refused_line(why: Option<Refusal>, out: &mut [u8]) -> usize
    ensures { (result ≡ wrote_count out.old (refused_line why)) × (out.new ≡ wrote out.old (refused_line why)) }
{
    let n = refusal_number(why);
    if n < 10 {
        let mut line = *b"refused 0\n";
        line[8] = n as u8 + b'0';
        return write(&line, out);
    }
    let mut line = *b"refused 00\n";
    line[8] = (n / 10) as u8 + b'0';
    line[9] = (n % 10) as u8 + b'0';
    write(&line, out)
}

// The line that a refusal adds: none where nothing is refused. Answers how many bytes it wrote, and writes all of them or none.
#[tactic(auto, unfolding(crate::specs::Slices::wrote_count, crate::specs::Slices::wrote))]
pub(crate) fn reason_line(why: Option<Refusal>, out: &mut [u8]) -> usize
    ensures { (result ≡ wrote_count out.old (reason_text why)) × (out.new ≡ wrote out.old (reason_text why)) }
{
    match why {
        Some(_) => refused_line(why, out),
        None => 0,
    }
}
