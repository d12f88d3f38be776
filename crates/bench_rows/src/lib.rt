// Runs of rows of 1, 2, 4 and 8 lanes for the benchmarks. C and Rust link them through `bench_rows_c`, which exports them.
#![tactic(auto)]

ghost use Rattle.std.specs.Prelude.{◌≡◌, ◌≤◌, length};
ghost use Rattle.rows.specs.Rows.{call_update_rows, rows_out};
ghost use Rattle.bench_rows.specs.Eight.{limit_of, opened_by, eight_of};

use bank::Bank;

// A slew limit, and none where it is NaN.
#[tactic(auto, unfolding(crate::specs::Eight::limit_of))]
fn limit_of(limit: f32) -> Option<f32>
    ensures { result ≡ limit_of limit }
{
    if float::is_nan(limit) {
        None
    } else {
        Some(limit)
    }
}

// A lane opened by the five settings from a place on, and the slew limit after them.
#[tactic(auto, unfolding(crate::specs::Eight::open_for, crate::specs::Eight::opened_by))]
fn opened(s: &[f32], b: Bank, lane: usize, from: usize) -> Bank
    requires { from ≤ 42 }
    ensures { result ≡ opened_by s.now b lane from }
{
    b.open(
        lane,
        bench_updates::setting(s, from),
        bench_updates::setting(s, from + 1),
        bench_updates::setting(s, from + 2),
        bench_updates::setting(s, from + 3),
        bench_updates::setting(s, from + 4),
        limit_of(bench_updates::setting(s, from + 5)),
    )
    .state
}

// A fresh bank with its eight lanes opened, each by the settings so many numbers after those of the lane before it.
#[tactic(auto, unfolding(crate::specs::Eight::lanes_opened, crate::specs::Eight::eight_of))]
fn eight_by(s: &[f32], stride: usize) -> Bank
    requires { stride ≤ 6 }
    ensures { result ≡ eight_of s.now stride }
{
    let mut bank = Bank::fresh();
    for lane in 0..8 {
        bank = opened(s, bank, lane, stride * lane);
    }
    bank
}

// Each lane with the same settings.
pub fn eight(s: &[f32]) -> Bank
    ensures { result ≡ eight_of s.now 0 }
{
    eight_by(s, 0)
}

// Lanes 0 to k - 1 of eight of the same settings, updated row by row.
fn rows_of(k: usize, settings: &[f32], cells: &[f32], out: &mut [f32])
    ensures { out.new ≡ rows_out (eight_of settings.now 0) k cells.now out.old }
{
    rows::update_rows(eight(settings), k, cells, out);
}

// Kept: four functions that differ in a number, since C calls each by its name, and hands three slices over.
#[unsafe(no_mangle)]
pub extern "C" fn plumradek_rows_1(settings: &[f32], cells: &[f32], out: &mut [f32])
    ensures { out.new ≡ rows_out (eight_of settings.now 0) 1 cells.now out.old }
{
    rows_of(1, settings, cells, out);
}

#[unsafe(no_mangle)]
pub extern "C" fn plumradek_rows_2(settings: &[f32], cells: &[f32], out: &mut [f32])
    ensures { out.new ≡ rows_out (eight_of settings.now 0) 2 cells.now out.old }
{
    rows_of(2, settings, cells, out);
}

#[unsafe(no_mangle)]
pub extern "C" fn plumradek_rows_4(settings: &[f32], cells: &[f32], out: &mut [f32])
    ensures { out.new ≡ rows_out (eight_of settings.now 0) 4 cells.now out.old }
{
    rows_of(4, settings, cells, out);
}

#[unsafe(no_mangle)]
pub extern "C" fn plumradek_rows_8(settings: &[f32], cells: &[f32], out: &mut [f32])
    ensures { out.new ≡ rows_out (eight_of settings.now 0) 8 cells.now out.old }
{
    rows_of(8, settings, cells, out);
}

// Rows of eight lanes, each with six settings of its own: a NaN for its slew limit is none, and a limit that is refused leaves the lane closed.
// Answers how many updates were made.
#[unsafe(no_mangle)]
pub extern "C" fn plumradek_mixed(settings: &[f32], cells: &[f32], out: &mut [f32]) -> usize
    ensures { (result ≡ (call_update_rows (eight_of settings.now 6) 8 cells.now (length out.old)).updates) × (out.new ≡ rows_out (eight_of settings.now 6) 8 cells.now out.old) }
{
    rows::update_rows(eight_by(settings, 6), 8, cells, out).updates
}
