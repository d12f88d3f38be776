// What `bench_rows` has for C and Rust to link: a crate that others use as a library exports nothing itself, so its functions are called here.
// Kept: a function for each number of lanes, since C calls each by its name.
#![tactic(auto)]

ghost use Rattle.std.specs.Prelude.{◌≡◌, length};
ghost use Rattle.rows.specs.Rows.{call_update_rows, rows_out};
ghost use Rattle.bench_rows.specs.Eight.{eight_of};

#[unsafe(no_mangle)]
pub extern "C" fn plumradek_rows_1(settings: &[f32], cells: &[f32], out: &mut [f32])
    ensures { out.new ≡ rows_out (eight_of settings.now 0) 1 cells.now out.old }
{
    bench_rows::plumradek_rows_1(settings, cells, out);
}

#[unsafe(no_mangle)]
pub extern "C" fn plumradek_rows_2(settings: &[f32], cells: &[f32], out: &mut [f32])
    ensures { out.new ≡ rows_out (eight_of settings.now 0) 2 cells.now out.old }
{
    bench_rows::plumradek_rows_2(settings, cells, out);
}

#[unsafe(no_mangle)]
pub extern "C" fn plumradek_rows_4(settings: &[f32], cells: &[f32], out: &mut [f32])
    ensures { out.new ≡ rows_out (eight_of settings.now 0) 4 cells.now out.old }
{
    bench_rows::plumradek_rows_4(settings, cells, out);
}

#[unsafe(no_mangle)]
pub extern "C" fn plumradek_rows_8(settings: &[f32], cells: &[f32], out: &mut [f32])
    ensures { out.new ≡ rows_out (eight_of settings.now 0) 8 cells.now out.old }
{
    bench_rows::plumradek_rows_8(settings, cells, out);
}

// Answers how many updates were made.
#[unsafe(no_mangle)]
pub extern "C" fn plumradek_mixed(settings: &[f32], cells: &[f32], out: &mut [f32]) -> usize
    ensures { (result ≡ (call_update_rows (eight_of settings.now 6) 8 cells.now (length out.old)).updates) × (out.new ≡ rows_out (eight_of settings.now 6) 8 cells.now out.old) }
{
    bench_rows::plumradek_mixed(settings, cells, out)
}
