// What `bench_updates` has for C and Rust to link: a crate that others use as a library exports nothing itself, so its function is called here.
#![tactic(auto)]

ghost use Rattle.std.specs.Prelude.{◌≡◌, length};
ghost use Rattle.bench_updates.specs.Updates.{updates_in, out_after};

#[unsafe(no_mangle)]
pub extern "C" fn plumradek_updates(settings: &[f32], cells: &[f32], out: &mut [f32])
    ensures { out.new ≡ out_after settings.now cells.now (updates_in (length cells.now) (length out.old)) out.old }
{
    bench_updates::plumradek_updates(settings, cells, out);
}
