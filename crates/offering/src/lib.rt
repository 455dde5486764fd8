// The commands `offer` and `held` of a script: what a line asks of a stream that holds a partial FPDU.
// The device is not here.
//
// Read `Asked` first, then `ask`. A line's words are in the crate `command`.
#![tactic(auto)]

ghost use Rattle.std.specs.Prelude.{◌≡◌, length};
ghost use Rattle.command.specs.Args.{line_words, word_of, words_of};
ghost use Rattle.offering.specs.Offering.{
  is_offering,
  count_at,
  ask_offer,
  ask_held,
  offering_of,
  asked_of,
  Says,
};

use command::args::{Words, split};
use script::hex::decode;

// The number of the last stream.
const LAST_STREAM: u64 = 15;

// What a line asks: that the first `size` of the buffer's bytes are offered to a stream, lent the first
// `lent` bytes of the store and the first `held` of the second slice; or how many bytes a stream holds.
#[derive(Drop)]
pub enum Asked {
    Offer {
        stream: u64,
        size: usize,
        lent: u64,
        held: u64,
    },
    Held(u64),
}

// Whether a line of that first word is one of these commands.
#[tactic(auto, using(script::proofs::Same::equal_same), unfolding(crate::specs::Offering::is_offering))]
fn is_name(name: &[u8]) -> bool
    ensures { result ≡ is_offering name.now }
{
    name == b"offer".as_slice() || name == b"held".as_slice()
}

// Whether a line is one of these commands, good or bad.
pub fn is_offering(line: &[u8]) -> bool
    ensures { result ≡ is_offering (word_of (line_words line.now) 0) }
{
    is_name(split(line).word(0))
}

// The count that word number i is, at most `most`, or the usual one where the line ends before it.
#[tactic(auto, unfolding(crate::specs::Offering::count_at))]
fn count_at(words: &Words, i: usize, usual: u64, most: usize) -> Option<u64>
    ensures { result ≡ count_at usual most i (words_of words.now) }
{
    if words.len() <= i {
        return Some(usual);
    }
    words.number(i).filter(|n| *n <= most as u64)
}

// `offer N HEX`, `offer N HEX LENT` or `offer N HEX LENT HELD`, over a store of some size and a second
// slice of `rooms` bytes. The bytes of HEX are put in the buffer.
#[tactic(auto, unfolding(crate::specs::Offering::ask_offer))]
fn ask_offer(words: &Words, kept: u64, size: usize, rooms: usize, bytes: &mut [u8]) -> Option<Asked>
    ensures { Says (ask_offer kept size rooms (length bytes.old) (words_of words.now)) result bytes.new }
{
    if words.len() < 3 || 5 < words.len() {
        return None;
    }
    let stream = words.number(1)?;
    let lent = count_at(words, 3, kept, size)?;
    let held = count_at(words, 4, rooms as u64, rooms)?;
    let size = decode(words.word(2), bytes)?;
    Some(Asked::Offer {
        stream,
        size,
        lent,
        held,
    })
}

// `held N`, of a stream that there is.
#[tactic(auto, unfolding(crate::specs::Offering::ask_held))]
fn ask_held(words: &Words) -> Option<Asked>
    ensures { result ≡ asked_of (ask_held (words_of words.now)) }
{
    if words.len() != 2 {
        return None;
    }
    let stream = words.number(1)?;
    if stream <= LAST_STREAM {
        return Some(Asked::Held(stream));
    }
    None
}

// What a line asks, if it is one of these commands; `kept` bytes of the store are lent by one that does
// not say, and all of the second slice; `size` and `rooms` are their sizes.
#[tactic(auto, using(script::proofs::Same::equal_same), unfolding(crate::specs::Offering::offering_of, crate::specs::Offering::ask_held))]
pub fn ask(line: &[u8], kept: u64, size: usize, rooms: usize, bytes: &mut [u8]) -> Option<Asked>
    ensures { Says (offering_of kept size rooms (length bytes.old) line.now) result bytes.new }
{
    let words = split(line);
    let name = words.word(0);
    if name == b"offer".as_slice() {
        return ask_offer(&words, kept, size, rooms, bytes);
    }
    if name == b"held".as_slice() {
        return ask_held(&words);
    }
    None
}
