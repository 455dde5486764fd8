// What a word of a command is not, by the kind of word that the command has in its place.
ghost use Rattle.std.specs.Prelude.{◌≡◌};
ghost use Rattle.command.specs.Args.{words_of};
ghost use Rattle.faults.specs.Fault.{number_fault, hex_fault, crc_fault, flag_fault, fault_of, found_of};

use crate::look::past_between;
use command::args::{Words, flag_of};
use script::hex::hex_length;
use script::number::read_number;

// What a word of a command is to be: a number; hex; a CRC; `on` or `off`; `req` or `rep`; 0 or 1; `write`
// or `send`; or any word, with which nothing is wrong.
#[derive(Clone, Copy)]
pub enum Kind {
    Number,
    Hex,
    Crc,
    Switch,
    Frame,
    Bit,
    Message,
    Any,
}

// What is wrong with a word: it is no number, or one over 64 bits; no hex, or an odd count of digits; no
// CRC; neither `on` nor `off`, neither `req` nor `rep`, neither 0 nor 1, neither `write` nor `send`.
#[derive(Clone, Copy)]
pub enum Fault {
    Number,
    Large,
    Hex,
    Odd,
    Crc,
    Switch,
    Frame,
    Bit,
    Message,
}

// The first word of a line that is not of its kind: its place, and what is wrong with it.
#[derive(Drop)]
pub struct Found {
    pub place: usize,
    pub fault: Fault,
}

// What is wrong with a word that is to be a number.
#[tactic(auto, unfolding(crate::specs::Fault::number_fault))]
fn number_fault(w: &[u8]) -> Option<Fault>
    ensures { result ≡ number_fault w.now }
{
    if read_number(w).is_some() {
        return None;
    }
    if past_between(w, b'0', b'9') == w.len() {
        return Some(Fault::Large);
    }
    Some(Fault::Number)
}

// What is wrong with a word that is to be hex.
#[tactic(auto, unfolding(crate::specs::Fault::hex_fault))]
fn hex_fault(w: &[u8]) -> Option<Fault>
    ensures { result ≡ hex_fault w.now }
{
    if hex_length(w).is_some() {
        return None;
    }
    if w.len() % 2 == 0 {
        return Some(Fault::Hex);
    }
    Some(Fault::Odd)
}

// What is wrong with a word that is to be a CRC, of eight hex digits.
#[tactic(auto, unfolding(crate::specs::Fault::crc_fault))]
fn crc_fault(w: &[u8]) -> Option<Fault>
    ensures { result ≡ crc_fault w.now }
{
    if w.len() == 8 && hex_length(w).is_some() {
        return None;
    }
    Some(Fault::Crc)
}

// Nothing is wrong with a word that is one of two, and else what is said.
fn flag_fault(flag: Option<bool>, otherwise: Fault) -> Option<Fault>
    ensures { result ≡ flag_fault flag otherwise }
{
    match flag {
        Some(_) => None,
        None => Some(otherwise),
    }
}

// What is wrong with a word that is to be of a kind.
#[tactic(auto, unfolding(crate::specs::Fault::fault_of))]
pub fn word_fault(kind: Kind, w: &[u8]) -> Option<Fault>
    ensures { result ≡ fault_of kind w.now }
{
    match kind {
        Kind::Number => number_fault(w),
        Kind::Hex => hex_fault(w),
        Kind::Crc => crc_fault(w),
        Kind::Switch => flag_fault(flag_of(w, b"off", b"on"), Fault::Switch),
        Kind::Frame => flag_fault(flag_of(w, b"req", b"rep"), Fault::Frame),
        Kind::Bit => flag_fault(flag_of(w, b"0", b"1"), Fault::Bit),
        Kind::Message => flag_fault(flag_of(w, b"write", b"send"), Fault::Message),
        Kind::Any => None,
    }
}

// The first word of a line after its name that is not of its kind. There is a kind for each word; a line
// may have fewer words.
pub fn find_fault(words: &Words, kinds: &[Kind]) -> Option<Found>
    ensures { result ≡ found_of kinds.now (words_of words.now) }
{
    for i in 0..kinds.len() {
        if words.len() <= i + 1 {
            return None;
        }
        if let Some(fault) = word_fault(kinds[i], words.word(i + 1)) {
            return Some(Found {
                place: i + 1,
                fault,
            });
        }
    }
    None
}
