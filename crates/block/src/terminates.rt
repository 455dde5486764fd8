// Queue 2 of a stream: its terminates, in one word.
ghost use Rattle.std.specs.Prelude.{◌≡◌, ◌∷◌, [], length};
ghost use Rattle.block.specs.Layout.{block_words};
ghost use Rattle.block.specs.Queue.{terminates_in, terminates_words};
ghost use Rattle.block.specs.Stream.{loaded_terminates, stored_terminates};

use crate::layout::{TERMINATES, stream_offset};
use crate::pack::lower;
use crate::store::store_word;
use rdmap::terminates::Terminates;

// The terminates in a word.
fn decode(x: u64) -> Terminates
    ensures { result ≡ terminates_in (x ∷ []) }
{
    Terminates { msn: lower(x) }
}

// The word of terminates, which says them.
fn encode(t: Terminates) -> u64
    ensures { (result ≡ t.msn) × (terminates_in (terminates_words t) ≡ t) }
{
    t.msn as u64
}

// Loads the terminates of the stream of a domain's slot.
pub fn load_terminates(words: &[u64; 945], domain: usize, slot: usize) -> Terminates
    ensures { result ≡ loaded_terminates words.now domain slot }
{
    let all = &words[..];
    let at = stream_offset(domain, slot) + TERMINATES;
    decode(all[at])
}

// Stores the terminates of the stream of a domain's slot.
pub fn store_terminates(words: &mut [u64; 945], domain: usize, slot: usize, t: Terminates)
    ensures { (words.new ≡ stored_terminates words.old domain slot t) × (loaded_terminates words.new domain slot ≡ t) × (length words.old ≡ block_words) }
{
    let at = stream_offset(domain, slot) + TERMINATES;
    store_word(words, at, encode(t));
}
