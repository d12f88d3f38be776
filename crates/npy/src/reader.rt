// The header of an array: magic, version, the length of the text, the text.
ghost use Rattle.std.specs.Prelude.{◌≡◌, ◌+◌, ◌-◌, ◌≤◌, ◌<◌, ◌^◌, true, false, ◌&&◌, length, take, drop, get_or};
ghost use Rattle.refusal.specs.Answers.{given};
ghost use Rattle.npy.specs.Text.{begins, byte_within, end_of, decimal, is_number, kind_of, places_of, kind_fits, front_spelled, shape_spelled, end_spelled, spelled};
ghost use Rattle.npy.specs.Header.{low_first, cell_width, refused_head, text_head, text_fits, header_of_width, length_width, known_width, call_header, data_of, place_in};

use refusal::{Answer, Refusal};

// The element kinds that some array is accepted with; every other one is `Other`, which none is.
// Kept: `Other`, and no Option. A header of another kind is accepted, and who reads the array refuses it.
#[derive(Clone, Copy, Debug, Default, PartialEq, Eq)]
pub enum Kind {
    F4,
    I2,
    #[default]
    Other,
}

impl Kind {
    // The bytes of a cell. A kind that is not accepted has no cells.
    pub fn width(self) -> usize
        ensures { result ≡ cell_width self }
    {
        match self {
            Kind::F4 => 4,
            Kind::I2 => 2,
            Kind::Other => 0,
        }
    }
}

// What a header says: the element kind, the shape (rows, cols), and the place where the data begin. Refused, the kind is
// `Other` and the numbers are 0, as by default.
#[derive(Clone, Copy, Debug, Default, PartialEq, Eq)]
pub struct Head {
    pub kind: Kind,
    pub rows: usize,
    pub cols: usize,
    pub at: usize,
}

// Where the parts of a text that have no fixed length begin and end. X begins at 11 in every text.
#[derive(Clone, Copy)]
struct Places {
    kind_end: usize,
    rows: usize,
    rows_end: usize,
    cols: usize,
    cols_end: usize,
    feed: usize,
    end: usize,
}

// Whether s has the bytes of w at a place.
// Kept: places in the text, here and below, and no parts of it. Document 01 and the definitions tell where each word stands.
fn holds(s: &[u8], at: usize, w: &[u8]) -> bool
    ensures { result ≡ begins (drop at s.now) w.now }
{
    s[at.min(s.len())..].starts_with(w)
}

// Whether x is a byte from lo to hi, other than `but`.
#[tactic(auto, unfolding(crate::specs::Text::byte_within))]
fn byte_within(lo: u8, hi: u8, but: u8, x: u8) -> bool
    ensures { result ≡ byte_within lo hi but x }
{
    lo <= x && x <= hi && x != but
}

// The first place from `at` on whose byte is not of that class.
fn end_of(s: &[u8], at: usize, lo: u8, hi: u8, but: u8) -> usize
    ensures { result ≡ end_of (byte_within lo hi but) s.now at }
{
    for i in at..s.len() {
        if !byte_within(lo, hi, but, s[i]) {
            return i;
        }
    }
    at.max(s.len())
}

// The value of a digit.
fn digit(x: u8) -> usize
    ensures { (result ≡ x - 0x30) × (result ≤ 207) }
{
    usize::from(x.saturating_sub(b'0'))
}

// The number that the digits from a place up to another stand for.
fn decimal(s: &[u8], at: usize, end: usize) -> usize
    requires { (at ≤ end) × (end ≤ length s.now) × (end - at ≤ 9) }
    ensures { result ≡ decimal 0 (take (end - at) (drop at s.now)) }
{
    let mut v = 0;
    for x in &s[at..end] {
        v = v * 10 + digit(*x);
    }
    v
}

// Whether `count` digits that begin with `first` are a number as document 01 has it.
#[tactic(auto, unfolding(crate::specs::Text::is_number))]
fn is_number(first: u8, count: usize) -> bool
    ensures { result ≡ is_number first count }
{
    match count {
        1 => true,
        2..=9 => first != b'0',
        _ => false,
    }
}

// The byte at a place, and 0 past the end.
fn byte_at(s: &[u8], at: usize) -> u8
    ensures { result ≡ get_or s.now at 0 }
{
    s.get(at).copied().unwrap_or(0)
}

// The kind that n bytes from a place on name.
#[tactic(auto, unfolding(crate::specs::Text::kind_of))]
fn kind_of(s: &[u8], at: usize, n: usize) -> Kind
    ensures { result ≡ kind_of (drop at s.now) n }
{
    if n == 3 && holds(s, at, b"<f4") {
        return Kind::F4;
    }
    if n == 3 && holds(s, at, b"<i2") {
        return Kind::I2;
    }
    Kind::Other
}

// 1 to 16 bytes from 11 on.
#[tactic(auto, unfolding(crate::specs::Text::kind_fits))]
fn kind_fits(end: usize) -> bool
    ensures { result ≡ kind_fits (end - 11) }
{
    matches!(end, 12..=27)
}

fn number_at(t: &[u8], at: usize, end: usize) -> bool
    ensures { result ≡ is_number (get_or t.now at 0) (end - at) }
{
    at <= end && is_number(byte_at(t, at), end - at)
}

impl Places {
    // `{'descr': '` is 11 bytes; from X to the rows there are 37, from there to the columns `, `, and `), }` before the spaces.
    fn of(t: &[u8]) -> Self
        requires { length t.now ≤ 1000 }
        ensures { result ≡ places_of t.now }
    {
        let kind_end = end_of(t, 11, 0x20, 0x7e, b'\'');
        let rows = kind_end + 37;
        let rows_end = end_of(t, rows, b'0', b'9', 0);
        let cols = rows_end + 2;
        let cols_end = end_of(t, cols, b'0', b'9', 0);
        let feed = end_of(t, cols_end + 4, b' ', b' ', 0);
        Places {
            kind_end,
            rows,
            rows_end,
            cols,
            cols_end,
            feed,
            end: feed + 1,
        }
    }

    // The dictionary up to the rows.
    #[tactic(auto, unfolding(crate::specs::Text::front_spelled))]
    fn front_spelled(self, t: &[u8]) -> bool
        ensures { result ≡ front_spelled t.now self }
    {
        holds(t, 0, b"{'descr': '")
            && kind_fits(self.kind_end)
            && holds(t, self.kind_end, b"', 'fortran_order': False, 'shape': (")
    }

    #[tactic(auto, unfolding(crate::specs::Text::shape_spelled))]
    fn shape_spelled(self, t: &[u8]) -> bool
        ensures { result ≡ shape_spelled t.now self }
    {
        number_at(t, self.rows, self.rows_end)
            && holds(t, self.rows_end, b", ")
            && number_at(t, self.cols, self.cols_end)
    }

    // After the spaces there is one line feed, and nothing after it.
    #[tactic(auto, unfolding(crate::specs::Text::end_spelled))]
    fn end_spelled(self, t: &[u8]) -> bool
        ensures { result ≡ end_spelled t.now self }
    {
        holds(t, self.cols_end, b"), }") && holds(t, self.feed, b"\n") && t.len() == self.end
    }

    #[tactic(auto, unfolding(crate::specs::Text::spelled))]
    fn spelled(self, t: &[u8]) -> bool
        ensures { result ≡ spelled t.now self }
    {
        self.front_spelled(t) && self.shape_spelled(t) && self.end_spelled(t)
    }
}

#[tactic(auto, unfolding(crate::specs::Header::refused_head))]
fn refused(refusal: Refusal) -> Answer<Head>
    ensures { result ≡ refused_head refusal }
{
    refusal.with(Head::default())
}

// The header whose text is t, and whose data begin at a place.
fn read_text(t: &[u8], at: usize) -> Answer<Head>
    requires { length t.now ≤ 1000 }
    ensures { result ≡ text_head t.now at }
{
    let p = Places::of(t);
    if !p.spelled(t) {
        return refused(Refusal::Header);
    }
    Ok(Head {
        kind: kind_of(t, 11, p.kind_end - 11),
        rows: decimal(t, p.rows, p.rows_end),
        cols: decimal(t, p.cols, p.cols_end),
        at,
    })
}

// The number that the first w bytes stand for, low byte first. What is past the end counts as 0.
pub(crate) fn low_first(s: &[u8], w: usize) -> usize
    requires { w ≤ 4 }
    ensures { (result ≡ low_first (take w s.now)) × (result < 256 ^ w) }
{
    let mut v = 0;
    for i in (0..w).rev() {
        v = v * 256 + usize::from(byte_at(s, i));
    }
    v
}

// Whether n bytes of text from b on are 1 to 1,000, are there, and end at a multiple of 16.
#[tactic(auto, unfolding(crate::specs::Header::text_fits))]
fn text_fits(n: usize, b: usize, len: usize) -> bool
    requires { (n < 256 ^ 4) × (b ≤ 16) }
    ensures { result ≡ text_fits n b len }
{
    matches!(n, 1..=1000) && b + n <= len && (b + n) % 16 == 0
}

// The header whose text's length has w bytes.
fn header_w(s: &[u8], w: usize) -> Answer<Head>
    requires { w ≤ 4 }
    ensures { result ≡ header_of_width w s.now }
{
    let b = 8 + w;
    if s.len() < b {
        return refused(Refusal::Header);
    }
    let n = low_first(&s[8..], w);
    if !text_fits(n, b, s.len()) {
        return refused(Refusal::Header);
    }
    let e = b + n;
    read_text(&s[b..e], e)
}

// How many bytes the text's length has: 2 in version 1.0, 4 in 2.0. None where the start is of neither.
#[tactic(auto, unfolding(crate::specs::Header::length_width))]
fn length_width(s: &[u8]) -> Option<usize>
    ensures { result ≡ known_width (length_width s.now) }
{
    if s.len() < 8 || !holds(s, 0, b"\x93NUMPY") {
        return None;
    }
    match (s[6], s[7]) {
        (1, 0) => Some(2),
        (2, 0) => Some(4),
        _ => None,
    }
}

// What the header at the start of the bytes says, or 11 or 12.
pub fn header(bytes: &[u8]) -> Answer<Head>
    ensures { result ≡ call_header bytes.now }
{
    match length_width(bytes) {
        Some(w) => header_w(bytes, w),
        None => refused(Refusal::Magic),
    }
}

// The data: everything after the header, as a part of the caller's own bytes: it lies in them from the header's end on.
// Refused, it is their empty start.
pub fn data(bytes: &[u8]) -> &[u8]
    ensures { (result.now ≡ data_of bytes.now) × (result.ref_ptr ≡ place_in bytes.entry.ref_ptr (given (call_header bytes.now)).at) }
{
    match header(bytes) {
        Ok(head) => &bytes[head.at..],
        Err(_) => &bytes[..0],
    }
}
