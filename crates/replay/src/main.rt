// Runs a script of commands from standard input, and writes one line for each to standard output.
//
// `host` has what a run holds, and reads the script and parts it into lines; the crate `running` runs one of
// them, `output` writes the answers, and `said` says on standard error why a line is `bad`, which the crate
// `reasons` finds. Nothing grows with the script: the answer stands in `main`, the store, the second slice and the
// host, with the device and every other buffer, in `run`.
#![tactic(auto)]

use holding::gather::ROOMS;
use host::{Host, Store};
use said::Answer;
use std::io;
use std::process::ExitCode;

mod host;
mod output;
mod said;
mod stream;

// Runs the script with a room for answers that is lent: apart from `main`, so that not both are made on one stack.
fn run(rt: &HostRuntime, text: &mut Answer) -> io::Result<()> {
    let mut host = Host::new();
    let mut store: Store = [0; 1048576];
    let mut rooms = [0u8; ROOMS];
    let mut chunk = [0u8; 65536];
    host.run_script(
        &mut rt.stdin(),
        &mut rt.stdout(),
        &mut rt.stderr(),
        &mut chunk,
        &mut store,
        &mut rooms,
        text,
    )
}

fn main(rt: HostRuntime) -> ExitCode {
    let mut text = Answer::new();
    if run(&rt, &mut text).is_ok() {
        ExitCode::SUCCESS
    } else {
        ExitCode::FAILURE
    }
}
