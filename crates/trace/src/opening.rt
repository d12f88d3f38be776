// The start of a file: both headers and the settings.
ghost use Rattle.std.specs.Prelude.{◌≡◌, ◌≤◌, ◌&&◌, leb, eqb, length, drop};
ghost use Rattle.npy.specs.Header.{has_cells};
ghost use Rattle.trace.specs.StartBytes.{start_bytes};
ghost use Rattle.trace.specs.Trace.{settings_misfit, open_of, opened_bank, trace_misfit, refused_start, trace_start, call_start};

use crate::course::{Begun, Course};
use bank::{Bank, Op};
use npy::{Head, Kind};
use refusal::{Answer, Refusal};

// So many bytes of a file, or all of it where it has fewer, are enough for `start`: it answers as for the whole file.
pub fn start_bytes() -> usize
    ensures { result ≡ start_bytes }
{
    2184
}

pub(crate) fn has_cells(kind: Kind) -> bool
    ensures { result ≡ has_cells kind }
{
    0 < kind.width()
}

// What the first array is refused with, whose header is accepted, of so many bytes in all: the shape is (k, 5), k 1 to 8.
#[tactic(auto, unfolding(crate::specs::Trace::settings_misfit))]
fn settings_misfit(head: Head, len: usize) -> Option<Refusal>
    requires { head.at ≤ len }
    ensures { result ≡ settings_misfit head len }
{
    if head.kind != Kind::F4 {
        return Some(Refusal::Kind);
    }
    if !matches!(head.rows, 1..=8) || head.cols != 5 {
        return Some(Refusal::Shape);
    }
    if len - head.at < head.rows * 20 {
        return Some(Refusal::Cut);
    }
    None
}

// Kept: that k is at most 8 is a `requires`, here and twice below. A struct for one number is no plainer.
// What the second array's header is refused with, which is accepted by itself, beside settings of k lanes.
#[tactic(auto, unfolding(crate::specs::Trace::trace_misfit))]
fn trace_misfit(k: usize, head: Head) -> Option<Refusal>
    requires { k ≤ 8 }
    ensures { result ≡ trace_misfit k head }
{
    if !has_cells(head.kind) {
        return Some(Refusal::Kind);
    }
    if head.cols != k * 3 {
        return Some(Refusal::Shape);
    }
    None
}

// What a lane is opened with, by the settings from a place on.
// Kept: a place, and no part: a setting that is cut off reads as what `npy::cell` says.
fn open_at(settings: &[u8], at: usize) -> Op
    requires { at ≤ 160 }
    ensures { result ≡ open_of (drop at settings.now) }
{
    let kp = npy::cell(Kind::F4, settings, at);
    let ki = npy::cell(Kind::F4, settings, at + 4);
    let kd = npy::cell(Kind::F4, settings, at + 8);
    let tau = npy::cell(Kind::F4, settings, at + 12);
    let dt = npy::cell(Kind::F4, settings, at + 16);
    Op::Open {
        kp,
        ki,
        kd,
        tau,
        dt,
        slew: None,
    }
}

// A fresh bank with lanes 0 to k - 1 opened by the settings.
fn opened(k: usize, settings: &[u8]) -> Bank
    requires { k ≤ 8 }
    ensures { result ≡ opened_bank k settings.now }
{
    let mut bank = Bank::fresh();
    for lane in 0..k {
        bank = bank.step(lane, open_at(settings, lane * 20)).state;
    }
    bank
}

#[tactic(auto, unfolding(crate::specs::Trace::refused_start))]
fn refused_start(refusal: Refusal) -> Answer<Begun>
    ensures { result ≡ refused_start refusal }
{
    refusal.with(Begun {
        course: Course {
            kind: Kind::Other,
            lanes: 0,
            left: 0,
            bank: Bank::fresh(),
        },
        at: 0,
    })
}

// The second header, which begins at a place.
// Kept: a `match`, and no `?`: the results of a refused start are not those of a refused header.
fn trace_start(k: usize, bank: Bank, at: usize, bytes: &[u8]) -> Answer<Begun>
    requires { (k ≤ 8) × (at ≤ length bytes.now) }
    ensures { result ≡ trace_start k bank at bytes.now }
{
    let head = match npy::header(&bytes[at..]) {
        Ok(head) => head,
        Err(refused) => return refused_start(refused.refusal),
    };
    if let Some(why) = trace_misfit(k, head) {
        return refused_start(why);
    }
    Ok(Begun {
        course: Course {
            kind: head.kind,
            lanes: k,
            left: head.rows,
            bank,
        },
        at: at + head.at,
    })
}

// What the start of a file says. Of a longer file its first `start_bytes()` bytes give the same answer.
pub fn start(bytes: &[u8]) -> Answer<Begun>
    ensures { result ≡ call_start bytes.now }
{
    let head = match npy::header(bytes) {
        Ok(head) => head,
        Err(refused) => return refused_start(refused.refusal),
    };
    if let Some(why) = settings_misfit(head, bytes.len()) {
        return refused_start(why);
    }
    let k = head.rows;
    let bank = opened(k, &bytes[head.at..]);
    trace_start(k, bank, head.at + k * 20, bytes)
}
