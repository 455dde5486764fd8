// Reads samples from standard input, one a line, and writes what the gauge reads as after each: the
// reading's name and its floats' bits in hex. A line that is no sample is answered `bad`.
//
// `line` reads a line, `text` writes an answer, `run` takes the bytes that were read, and `input` reads
// and writes them. Nothing grows with a line's length or with their number.
#![tactic(auto)]

mod input;
mod line;
mod run;
mod stream;
mod text;

use script::text::Text;
use std::process::ExitCode;

// Room for the answers to a chunk of newlines alone, of 42 bytes each.
const ROOM: usize = 172032;

fn main(rt: HostRuntime) -> ExitCode {
    let mut chunk = [0u8; 4096];
    let mut out: Text<ROOM> = Text::new();
    let ran = input::run_input(
        &mut rt.stdin(),
        &mut rt.stdout(),
        &mut rt.stderr(),
        &mut chunk,
        &mut out,
    );
    if ran.is_ok() {
        ExitCode::SUCCESS
    } else {
        ExitCode::FAILURE
    }
}
