// The words of a line, and what the words of a command can be.
ghost use Rattle.std.specs.Prelude.{◌≡◌, min, length};
ghost use Rattle.script.specs.Number.{number_of};
ghost use Rattle.command.specs.Args.{line_words, words_of, word_of, flag_of, number_at, numbers_of};

use script::number::read_number;
use script::word::next_word;

// One more word than any command has.
const MAX_WORDS: usize = 11;

// As many numbers as the longest command, `open`, has.
const MAX_NUMBERS: usize = 9;

// The first words of a line: the first `count` of `found`. A line with more words than a command has
// is as good as one with 11.
#[derive(Clone, Copy)]
pub struct Words<'a> {
    pub found: [&'a [u8]; 11],
    pub count: usize,
}

impl<'a> Words<'a> {
    // How many words there are.
    #[tactic(auto, unfolding(crate::specs::Args::words_of))]
    pub fn len(&self) -> usize
        ensures { result ≡ length (words_of self.now) }
    {
        self.count.min(MAX_WORDS)
    }

    // Word number i, of no bytes where there is none.
    #[tactic(auto, unfolding(crate::specs::Args::words_of))]
    pub fn word(&self, i: usize) -> &'a [u8]
        ensures { result.now ≡ word_of (words_of self.now) i }
    {
        if i < self.len() { self.found[i] } else { &[] }
    }

    // Word number i as a number.
    pub fn number(&self, i: usize) -> Option<u64>
        ensures { result ≡ number_of (word_of (words_of self.now) i) }
    {
        read_number(self.word(i))
    }

    // Word number i as a number, 0 where there is none.
    fn number_or_zero(&self, i: usize) -> Option<u64>
        ensures { result ≡ number_at (words_of self.now) i }
    {
        if i < self.len() {
            self.number(i)
        } else {
            Some(0)
        }
    }

    // The words after the first, where there are `count` words and these are numbers.
    pub fn numbers(&self, count: usize) -> Option<[u64; 9]>
        ensures { result ≡ numbers_of (words_of self.now) count }
    {
        if self.len() != count {
            return None;
        }
        let mut values = [0; 9];
        for i in 0..MAX_NUMBERS {
            values[i] = self.number_or_zero(i + 1)?;
        }
        Some(values)
    }

    // Which of two words word number i is: `on` stands for true.
    pub fn flag(&self, i: usize, off: &[u8], on: &[u8]) -> Option<bool>
        ensures { result ≡ flag_of (word_of (words_of self.now) i) off.now on.now }
    {
        flag_of(self.word(i), off, on)
    }
}

// The first words of a line.
pub fn split(line: &[u8]) -> Words<'_>
    ensures { words_of result ≡ line_words line.now }
{
    let mut found: [&[u8]; 11] = [&[]; 11];
    let mut at = 0;
    for count in 0..MAX_WORDS {
        let Some(word) = next_word(line, at) else {
            return Words { found, count };
        };
        at = word.end;
        found[count] = &line[word];
    }
    Words {
        found,
        count: MAX_WORDS,
    }
}

// Which of two words a word is: `on` stands for true.
#[tactic(auto, using(script::proofs::Same::equal_same))]
pub fn flag_of(w: &[u8], off: &[u8], on: &[u8]) -> Option<bool>
    ensures { result ≡ flag_of w.now off.now on.now }
{
    if w == on {
        return Some(true);
    }
    if w == off {
        return Some(false);
    }
    None
}

// The room that a command asks for, of which there is no more than `most`.
pub fn room(asked: u64, most: usize) -> usize
    ensures { result ≡ min asked most }
{
    if asked < most as u64 {
        return asked as usize;
    }
    most
}
