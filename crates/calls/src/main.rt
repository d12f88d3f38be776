// Makes the calls of docs/CALLS.md, each by a line of text, one answer a line.
#![tactic(auto)]

mod answers;
mod session;
mod states;

use session::Session;

fn main(rt: HostRuntime) {
    let mut session = Session::new(rt.stdin(), rt.stdout());
    if let Err(failed) = session.run() {
        // The exit status does not tell that a read or a write failed: it is said on standard error.
        let _ = eprintln!(rt; "calls: {failed}");
    }
}
