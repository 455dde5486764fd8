// A reason, put together in a text. What does not fit into it is left out.
use crate::usage::Usage;
use command::args::Words;
use faults::fault::{Fault, Kind, find_fault};
use script::text::Text;
use std::fmt::Write;

// How many bytes of a word are shown.
const SHOWN: usize = 32;

// Appends a word in quotes; of a long one its first bytes.
pub(crate) fn quoted<const N: usize>(w: &[u8], text: &mut Text<N>) {
    let end = w.len().min(SHOWN);
    text.put(b"'");
    text.put(&w[..end]);
    if SHOWN < w.len() {
        text.put(b"..");
    }
    text.put(b"'");
}

// What a word is not.
fn fault_text(fault: Fault) -> &'static str {
    match fault {
        Fault::Number => " is not a number",
        Fault::Large => " is over 18446744073709551615, the largest number",
        Fault::Hex => " is not hex",
        Fault::Odd => ": hex needs an even count of digits",
        Fault::Crc => " is not a CRC, eight hex digits",
        Fault::Switch => " is neither on nor off",
        Fault::Frame => " is neither req nor rep",
        Fault::Bit => " is neither 0 nor 1",
        Fault::Message => " is neither write nor send",
    }
}

// Appends what is wrong with the first word, after the name, that is not of its kind; nothing where each is.
fn first_fault<const N: usize>(words: &Words, kinds: &[Kind], text: &mut Text<N>) {
    if let Some(found) = find_fault(words, kinds) {
        quoted(words.word(found.place), text);
        let _ = write!(text, "{}; ", fault_text(found.fault));
    }
}

// Appends what the count of words or the first bad word shows, if anything.
fn shown<const N: usize>(words: &Words, usage: &Usage, text: &mut Text<N>) {
    let count = words.len();
    if count <= usage.least {
        text.put(b"too few words; ");
    } else if usage.kinds.len() < count - 1 {
        text.put(b"too many words; ");
    } else {
        first_fault(words, usage.kinds, text);
    }
}

// Appends the reason of a line that has the name of a command: what its words show, and then what the command
// takes, which is all that is said where they show nothing.
pub(crate) fn tell<const N: usize>(words: &Words, usage: &Usage, text: &mut Text<N>) {
    shown(words, usage, text);
    text.put(words.word(0));
    let _ = write!(text, " takes {}", usage.takes);
}
