// Results as words of 8 lowercase hexadecimal digits, a line a row.
ghost use Rattle.std.specs.Prelude.{◌≡◌, ◌+◌, ◌*◌, ◌/◌, ◌%◌, ◌≤◌, ◌<◌, length};
ghost use Rattle.std.proofs.lemmas.List.Edits.{sets};
ghost use Rattle.npy.specs.Header.{low_first};
ghost use Rattle.npy.specs.LineMaking.{words_of, end_lines};
ghost use Rattle.npy.specs.Lines.{lines_of};
ghost use Rattle.npy.specs.PutLines.{line_fits, line_end, put_line, lines_fit, lines_end, put_lines};
ghost use Rattle.npy.specs.PackedDigits.{hex_four, packed_digits, low_bytes, unpacked_words};

// Kept: digits by arithmetic, and no formatting. The contract says which digits these are, and nothing says what a format writes.
// The lower 4 digits of v as the bytes of one number, the first digit lowest: all of them at once. First the two bytes of v stand apart,
// then the four digits. 118 more sets the top bit of a byte where its digit is 10 or more, and of that bit less 1 a mask leaves 39, by
// which 'a' comes after the character behind '9'. A product by 39 would be slow in vectors.
fn four_digits(v: u32) -> u32
    ensures { result ≡ low_first (hex_four v) }
{
    let b = v / 0x100 % 0x100 + v % 0x100 * 0x1_0000;
    let c = (b & 0x00f0_00f0) / 0x10 + (b & 0x000f_000f) * 0x100;
    let letters = (c + 0x7676_7676) & 0x8080_8080;
    c + 0x3030_3030 + ((letters - letters / 0x80) & 0x2727_2727)
}

// The digits of the values, two numbers a value. A compiler can make vectors of this loop, four values at a time (CONTRIBUTING.md, 'Vectors'):
// that is why it is a loop of its own, why it writes no bytes, and why its numbers have 32 bits.
fn find_digits(values: &[f32], digits: &mut [u32])
    requires { 2 * length values.now ≤ length digits.old }
    ensures { digits.new ≡ sets digits.old 0 (packed_digits values.now) }
{
    for i in 0..values.len() {
        let v = float::to_bits(values[i]);
        digits[2 * i] = four_digits(v / 0x1_0000);
        digits[2 * i + 1] = four_digits(v);
    }
}

// The 4 bytes of a number, from o on. In the number's own order they make one store, and two numbers after each other one of 8 bytes.
fn put_four(out: &mut [u8], o: usize, v: u32)
    requires { o + 4 ≤ length out.old }
    ensures { out.new ≡ sets out.old o (low_bytes 4 v) }
{
    out[o..o + 4].copy_from_slice(&v.to_le_bytes());
}

// The words of n values from their digits, each with the same byte after it.
fn join_digits(digits: &[u32], n: usize, after: u8, out: &mut [u8], at: usize)
    requires { (2 * n ≤ length digits.now) × (at + 9 * n ≤ length out.old) }
    ensures { out.new ≡ sets out.old at (unpacked_words after n digits.now) }
{
    for i in 0..n {
        let o = at + 9 * i;
        put_four(out, o, digits[2 * i]);
        put_four(out, o + 4, digits[2 * i + 1]);
        out[o + 8] = after;
    }
}

// The words of as many values as there is room for digits, each with the same byte after it. The room is lent: made here, it would be
// filled with zeros each time.
fn put_block(values: &[f32], digits: &mut [u32], after: u8, out: &mut [u8], at: usize)
    requires { (2 * length values.now ≤ length digits.old) × (at + 9 * length values.now ≤ length out.old) }
    ensures { (digits.new ≡ sets digits.old 0 (packed_digits values.now)) × (out.new ≡ sets out.old at (words_of after values.now)) }
{
    find_digits(values, digits);
    join_digits(digits, values.len(), after, out, at);
}

// Kept: a place in `out` beside it, and no part of it. The calls of document 01 go on from a place, and the contracts say what stands before it.
// The words, each with the same byte after it: 64 at a time, so that their digits stay in the cache, and then the rest.
fn put_words(values: &[f32], after: u8, out: &mut [u8], at: usize)
    requires { at + 9 * length values.now ≤ length out.old }
    ensures { out.new ≡ sets out.old at (words_of after values.now) }
{
    let mut digits = [0u32; 128];
    let mut o = at;
    for part in values.chunks(64) {
        put_block(part, &mut digits, after, out, o);
        o += 9 * part.len();
    }
}

// A line feed after the last word of each of n lines of k words, in place of what stands there.
fn end_lines(out: &mut [u8], at: usize, k: usize, n: usize)
    requires { (0 < k) × (at + n * (9 * k) ≤ length out.old) }
    ensures { out.new ≡ end_lines n (9 * k) at out.old }
{
    let mut o = at;
    for _line in 0..n {
        o += 9 * k;
        out[o - 1] = b'\n';
    }
}

// The lines of rows of k values. The words go with spaces, so that their loop need not count to the end of a line, and the line feeds come
// after them; a word that is a line has its line feed at once.
fn put_rows(values: &[f32], k: usize, out: &mut [u8], at: usize)
    requires { (0 < k) × (length values.now % k ≡ 0) × (at + 9 * length values.now ≤ length out.old) }
    ensures { out.new ≡ sets out.old at (lines_of k (length values.now / k) values.now) }
{
    if k == 1 {
        put_words(values, b'\n', out, at);
    } else {
        put_words(values, b' ', out, at);
        end_lines(out, at, k, values.len() / k);
    }
}

// Whether n words, 9 bytes each, fit from a place on.
#[tactic(auto, unfolding(crate::specs::PutLines::line_fits))]
fn line_fits(at: usize, n: usize, len: usize) -> bool
    ensures { result ≡ line_fits at n len }
{
    // A product is quicker than a quotient.
    at <= len && n.checked_mul(9).is_some_and(|size| size <= len - at)
}

// Whether n words are whole rows of k, and fit from a place on.
#[tactic(auto, unfolding(crate::specs::PutLines::lines_fit))]
fn lines_fit(at: usize, k: usize, n: usize, len: usize) -> bool
    ensures { result ≡ lines_fit at k n len }
{
    k != 0 && n % k == 0 && line_fits(at, n, len)
}

// Writes a row's line at a place, and answers the place after it. Where it does not fit, nothing is written and the
// answer is the same place.
pub fn put_line(out: &mut [u8], at: usize, values: &[f32]) -> usize
    ensures { (result ≡ line_end at (length values.now) (length out.old)) × (out.new ≡ put_line out.old at values.now) }
{
    put_lines(out, at, values.len(), values)
}

// Writes the lines of rows of k values at a place, and answers the place after them. Where the values are no whole rows, or
// their lines do not fit, nothing is written and the answer is the same place.
pub fn put_lines(out: &mut [u8], at: usize, k: usize, values: &[f32]) -> usize
    ensures { (result ≡ lines_end at k (length values.now) (length out.old)) × (out.new ≡ put_lines out.old at k values.now) }
{
    let n = values.len();
    if !lines_fit(at, k, n, out.len()) {
        return at;
    }
    put_rows(values, k, out, at);
    at + 9 * n
}
