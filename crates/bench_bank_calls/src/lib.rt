// A run of updates of a bank, one call each with the whole bank given and handed back, for C and Rust to link: the benchmarks time it beside
// the rows.
#![tactic(auto)]

ghost use Rattle.std.specs.Prelude.{◌≡◌, length};
ghost use Rattle.bench_updates.specs.Updates.{updates_in};
ghost use Rattle.bench_bank_calls.specs.Calls.{bank_out_after};

#[unsafe(no_mangle)]
pub extern "C" fn plumradek_calls(settings: &[f32], cells: &[f32], out: &mut [f32])
    ensures { out.new ≡ bank_out_after settings.now cells.now (updates_in (length cells.now) (length out.old)) out.old }
{
    let mut bank = bench_rows::eight(settings);
    for i in 0..bench_updates::updates_in(cells.len(), out.len()) {
        let next = bank.update(i % 8, cells[i * 3], cells[i * 3 + 1], cells[i * 3 + 2]);
        out[i] = refusal::given(next.answer).y;
        bank = next.state;
    }
}
