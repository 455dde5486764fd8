// The commands `startup2`, `unstartup2` and `agree` of a script, which have no state: startup frames of
// revision 2 written, frames of both revisions read, and a responder's answer to a request's terms.
//
// Read `frame::StartCommand` first: what a line asks of a frame. `said` reads the terms of a line, `frame`
// has the commands on frames, `agree` the third. A line's words are in the crate `command`, the startup in
// `startup2`.
#![tactic(auto)]

ghost use Rattle.std.specs.Prelude.{◌≡◌};
ghost use Rattle.starting.specs.Starting.{is_start};

use command::args::Words;
use script::text::Text;

pub mod agree;
pub mod frame;
pub mod said;

// Whether a line of that first word is one of these commands.
#[tactic(auto, using(script::proofs::Same::equal_same), unfolding(crate::specs::Starting::is_start))]
pub fn is_start(name: &[u8]) -> bool
    ensures { result ≡ is_start name.now }
{
    name == b"startup2".as_slice()
        || name == b"unstartup2".as_slice()
        || name == b"agree".as_slice()
}

// Answers a line.
pub fn run<const N: usize>(words: &Words, bytes: &mut [u8], frame: &mut [u8], text: &mut Text<N>) {
    if words.word(0) == b"agree".as_slice() {
        agree::run(words, text);
    } else {
        frame::run(words, bytes, frame, text);
    }
}
