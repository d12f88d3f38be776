// Runs of updates for the benchmarks. C and Rust link them through `bench_updates_c`, which exports them.
#![tactic(auto)]

ghost use Rattle.std.specs.Prelude.{◌≡◌, length, get_or};
ghost use Rattle.std.specs.Float.{nan};
ghost use Rattle.bench_updates.specs.Updates.{new_of, updates_in, out_after};

use rate_pid::RatePid;

// Kept: `get` with `unwrap_or` was tried, and the search found no proof.
pub fn setting(s: &[f32], i: usize) -> f32
    ensures { result ≡ get_or s.now i nan }
{
    if i < s.len() { s[i] } else { f32::NAN }
}

// A new controller of five settings, NaN where one is missing.
#[tactic(auto, unfolding(crate::specs::Updates::new_of))]
pub fn new(s: &[f32]) -> RatePid
    ensures { result ≡ new_of s.now }
{
    RatePid::new(
        setting(s, 0),
        setting(s, 1),
        setting(s, 2),
        setting(s, 3),
        setting(s, 4),
    )
}

// As many updates as there are whole threes of cells, and places for their answers.
#[tactic(auto, using(std::proofs::lemmas::Bool::Decides::nat_tests), unfolding(crate::specs::Updates::updates_in))]
pub fn updates_in(cells: usize, out: usize) -> usize
    ensures { result ≡ updates_in cells out }
{
    out.min(cells / 3)
}

// The controller is given by value and handed back in each update.
#[unsafe(no_mangle)]
pub extern "C" fn plumradek_updates(settings: &[f32], cells: &[f32], out: &mut [f32])
    ensures { out.new ≡ out_after settings.now cells.now (updates_in (length cells.now) (length out.old)) out.old }
{
    let mut pid = new(settings);
    for i in 0..updates_in(cells.len(), out.len()) {
        let next = pid.update(cells[i * 3], cells[i * 3 + 1], cells[i * 3 + 2]);
        pid = next.pid;
        out[i] = refusal::given(next.answer);
    }
}
