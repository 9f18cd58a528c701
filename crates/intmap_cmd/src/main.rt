//! Reads commands on a map from standard input, runs them, and prints one line for each answer.
#![tactic(auto)]

use intmap_text::serve;
use std::process::ExitCode;

/// Passes the real streams to `serve`, which returns the exit status.
fn main(rt: HostRuntime) -> ExitCode {
    let status = serve(
        rt.alloc(),
        &mut rt.stdin(),
        &mut rt.stdout(),
        &mut rt.stderr(),
    );
    ExitCode::from(status)
}
