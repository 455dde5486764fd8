// The parts of a script's line, what is answered to it, and the commands on frames, which have no
// state.
//
// Read `args::Words` first: the words of a line. `answer` puts an answer together;
// `frames` has the commands `fpdu`, `unframe`, `startup` and `unstartup`.
#![tactic(auto)]

pub mod answer;
pub mod args;
pub mod frames;
