// The same run as `plumradek_updates`, with the controller changed where it lies. It stands in a library of its own because the compiler puts
// the update's code into its caller only where it has one caller, and both are to be timed as a program has them.
#![tactic(auto)]

ghost use Rattle.std.specs.Prelude.{◌≡◌, length};
ghost use Rattle.bench_updates.specs.Updates.{updates_in, out_after};

#[unsafe(no_mangle)]
pub extern "C" fn plumradek_updates_in_place(settings: &[f32], cells: &[f32], out: &mut [f32])
    ensures { out.new ≡ out_after settings.now cells.now (updates_in (length cells.now) (length out.old)) out.old }
{
    // Kept: a loop beside that of `bench_updates`. With one library for both no update is put into its caller, and each takes seven times as
    // long (docs/DECISIONS.md).
    let mut pid = bench_updates::new(settings);
    for i in 0..bench_updates::updates_in(cells.len(), out.len()) {
        let next = rate_pid_in_place::update(pid, cells[i * 3], cells[i * 3 + 1], cells[i * 3 + 2]);
        pid = next.pid;
        out[i] = refusal::given(next.answer);
    }
}
