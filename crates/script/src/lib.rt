// The words, decimal numbers and hex of a script's lines: what is read from a line, and what is
// written into one.
//
// `word` finds the words of a line, `number` reads decimal numbers, `hex` reads bytes as hex, and
// `text` is what a line is put together in: words, numbers and hex. Each public function answers
// whatever comes: `None` where a word is not what is looked for, and what does not fit into a text
// is not written at all. Read `text::Text` first, and specs/ for what each answer is.
#![tactic(auto)]

pub mod hex;
pub mod number;
pub mod text;
pub mod word;
