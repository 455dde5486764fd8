// The commands `crc` and `join` of a script, which have no state: the CRC-32C of bytes, by themselves
// or after bytes whose CRC is given, and the CRC of two pieces from theirs.
//
// Read `answer_sum` first: what a line is answered. A line's words are in the crate `command`, the CRC
// in `crc32c`.
#![tactic(auto)]

ghost use Rattle.std.specs.Prelude.{◌≡◌, length};
ghost use Rattle.command.specs.Args.{words_of};
ghost use Rattle.sums.specs.Sums.{is_sum, crc_on, crc_word, whole_sum, carried_sum, joined_sum, crc_answer, join_answer, sum_answer};

use command::answer::{bad, then_hex};
use command::args::Words;
use crc32c::shift::join;
use crc32c::{crc32c, update};
use script::hex::decode;
use script::number::read_number;
use script::text::Text;
use wire::number::get_be32;

// Whether a line of that first word is one of these commands.
#[tactic(auto, using(script::proofs::Same::equal_same), unfolding(crate::specs::Sums::is_sum))]
pub fn is_sum(name: &[u8]) -> bool
    ensures { result ≡ is_sum name.now }
{
    name == b"crc".as_slice() || name == b"join".as_slice()
}

// The CRC of bytes carried on from that of what came before them.
fn crc_on(crc: u32, bytes: &[u8]) -> u32
    ensures { result ≡ crc_on crc bytes.now }
{
    0xFFFF_FFFF - update(0xFFFF_FFFF - crc, bytes)
}

// The CRC that a word of eight hex digits is.
fn read_crc(w: &[u8]) -> Option<u32>
    ensures { result ≡ crc_word w.now }
{
    if w.len() != 8 {
        return None;
    }
    let mut digits = [0; 4];
    decode(w, &mut digits)?;
    Some(get_be32(&digits, 0))
}

// The CRC of the bytes that a word of hex stands for, which are put at the start of bytes.
#[tactic(auto, unfolding(crate::specs::Sums::whole_sum))]
fn whole_sum(w: &[u8], bytes: &mut [u8]) -> Option<u32>
    ensures { result ≡ whole_sum w.now (length bytes.old) }
{
    let size = decode(w, bytes)?;
    Some(crc32c(&bytes[..size]))
}

// The same, carried on from the CRC that a word is.
#[tactic(auto, unfolding(crate::specs::Sums::carried_sum))]
fn carried_sum(before: &[u8], w: &[u8], bytes: &mut [u8]) -> Option<u32>
    ensures { result ≡ carried_sum before.now w.now (length bytes.old) }
{
    let crc = read_crc(before)?;
    let size = decode(w, bytes)?;
    Some(crc_on(crc, &bytes[..size]))
}

// The CRC of two pieces, from the words of their CRCs and of the second's length.
#[tactic(auto, unfolding(crate::specs::Sums::joined_sum))]
fn joined_sum(one: &[u8], other: &[u8], size: &[u8]) -> Option<u32>
    ensures { result ≡ joined_sum one.now other.now size.now }
{
    let a = read_crc(one)?;
    let b = read_crc(other)?;
    let n = read_number(size)?;
    if 0xFFFF_FFFF < n {
        return None;
    }
    Some(join(a, b, n as u32))
}

// `crc HEX` and `crc CRC HEX`.
#[tactic(auto, unfolding(crate::specs::Sums::crc_answer))]
fn answer_crc(words: &Words, bytes: &mut [u8]) -> Option<u32>
    ensures { result ≡ crc_answer (words_of words.now) (length bytes.old) }
{
    match words.len() {
        2 => whole_sum(words.word(1), bytes),
        3 => carried_sum(words.word(1), words.word(2), bytes),
        _ => None,
    }
}

// `join CRC CRC LENGTH`.
#[tactic(auto, unfolding(crate::specs::Sums::join_answer))]
fn answer_join(words: &Words) -> Option<u32>
    ensures { result ≡ join_answer (words_of words.now) }
{
    if words.len() != 4 {
        return None;
    }
    joined_sum(words.word(1), words.word(2), words.word(3))
}

// What a line is answered: the CRC that it asks for, if it is such a command. The bytes that its word
// of hex stands for are put at the start of bytes.
#[tactic(auto, using(script::proofs::Same::equal_same), unfolding(crate::specs::Sums::sum_answer))]
pub fn answer_sum(words: &Words, bytes: &mut [u8]) -> Option<u32>
    ensures { result ≡ sum_answer (words_of words.now) (length bytes.old) }
{
    let name = words.word(0);
    if name == b"crc".as_slice() {
        return answer_crc(words, bytes);
    }
    if name == b"join".as_slice() {
        return answer_join(words);
    }
    None
}

// `crc CRC`.
fn tell_crc<const N: usize>(crc: u32, text: &mut Text<N>) {
    text.put(b"crc");
    then_hex(&u32::to_be_bytes(crc), text);
}

// Puts an answer into text.
pub fn tell_sum<const N: usize>(sum: Option<u32>, text: &mut Text<N>) {
    match sum {
        Some(crc) => tell_crc(crc, text),
        None => bad(text),
    }
}

// Answers a line.
pub fn run<const N: usize>(words: &Words, bytes: &mut [u8], text: &mut Text<N>) {
    tell_sum(answer_sum(words, bytes), text)
}
