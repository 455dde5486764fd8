// What is wrong with a line of a script, found in its bytes and its words: the crate `reasons` says it in
// words. It is only looked for where a line is `bad` already: nothing here decides what is.
//
// Read `fault::Fault` first, then `fault::find_fault`, which finds the first word of a line that is not of
// its kind. `look` finds a byte that no command has. The definitions are in specs/Fault.antt and
// specs/Look.antt.
#![tactic(auto)]

pub mod fault;
pub mod look;
