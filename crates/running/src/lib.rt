// A line of a script, run: what it does to the device, to the store and the second slice, and to the
// message under way, with its answer as text. Nothing here reads or writes a file: the program `replay`
// brings the lines and prints the answers.
//
// Read `run::run_line` first, whose contract cites specs/Run.antt. `offer` runs a line on offers, and `line`
// gathers a line's bytes. No public function has a `requires`.
#![tactic(auto)]

pub mod line;
mod offer;
pub mod run;
