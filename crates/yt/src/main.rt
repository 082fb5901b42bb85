//! `yt`: a shared workspace in one file. `ws_session` does what the words ask for, and its status is that of the process.
#![tactic(auto)]

use std::fs::File;
use std::process::ExitCode;
use ws_session::run;

fn main(rt: HostRuntime) -> ExitCode {
    // If a standard stream is closed, one of these files gets its number. Else the workspace would get it, and output would go
    // there.
    let _streams = [nothing(&rt), nothing(&rt), nothing(&rt)];
    ExitCode::from(run(&rt).code())
}

// A file with nothing in it, open for reading; None if the system has none.
fn nothing(rt: &HostRuntime) -> Option<File> {
    File::open(rt, "/dev/null").ok()
}
