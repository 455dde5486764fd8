// Why a line of a script is answered `bad`, in words for the one who wrote it.
//
// Read `explain` first. The crate `faults` finds a byte that no command has, and what a word is not;
// `usage` has the words that each command takes, and `say` puts a reason together. A reason is only looked
// for where a line is `bad` already: nothing here decides what is.
#![tactic(auto)]

use crate::say::{quoted, tell};
use crate::usage::usage_of;
use command::answer::then_number;
use command::args::split;
use faults::look::{Look, look_at};
use script::text::Text;
use std::fmt::Write;

mod say;
mod usage;

// Appends the reason that a line's words show, by the name of its command: its usage, or that the first word
// is no command's name.
fn by_name<const N: usize>(line: &[u8], text: &mut Text<N>) {
    let words = split(line);
    match usage_of(&words) {
        Some(usage) => tell(&words, usage, text),
        None => {
            quoted(words.word(0), text);
            text.put(b" is not a command: ./replay --help lists them");
        }
    }
}

// Appends what stands at a place of the line, which is counted from 1.
fn place<const N: usize>(what: &str, i: usize, text: &mut Text<N>) {
    let _ = text.write_str(what);
    text.put(b": byte");
    then_number(i.saturating_add(1) as u64, text);
}

// Appends the reason of a line: a byte that no command has, or what its words show.
fn reason<const N: usize>(line: &[u8], text: &mut Text<N>) {
    match look_at(line) {
        Some(Look::Carriage) => {
            text.put(b"the line ends in CR: convert the file to lines that end in LF alone");
        }
        Some(Look::Tab(i)) => place("a tab, where words are parted by spaces alone", i, text),
        Some(Look::Strange(i)) => place("a byte that is no printable ASCII", i, text),
        None => by_name(line, text),
    }
}

// Appends how the reason of the script's line of that number starts.
fn start<const N: usize>(number: u64, text: &mut Text<N>) {
    text.put(b"replay: line");
    then_number(number, text);
    text.put(b": ");
}

// Appends a line that says why the script's line of that number is `bad`.
pub fn explain<const N: usize>(number: u64, line: &[u8], text: &mut Text<N>) {
    start(number, text);
    reason(line, text);
    text.put(b"\n");
}

// The same of a line that is too long to be kept.
pub fn explain_long<const N: usize>(number: u64, text: &mut Text<N>) {
    start(number, text);
    text.put(b"the line is longer than 65,536 bytes\n");
}
