// How the bytes of a stream are read as frames: its framing, in one word.
ghost use Rattle.std.specs.Prelude.{◌≡◌, ◌∷◌, [], length};
ghost use Rattle.block.specs.Layout.{block_words};
ghost use Rattle.block.specs.Stream.{
  framing_in,
  framing_word,
  framing_words,
  loaded_framing,
  stored_framing,
};

use crate::layout::{FRAMING, stream_offset};
use crate::pack::flag;
use crate::store::store_word;
use rdmap::framing::Framing;

// The framing in a word.
fn decode(x: u64) -> Framing
    ensures { result ≡ framing_in (x ∷ []) }
{
    Framing {
        crc: x % 2 == 1,
        held: (x / 2 % 4294967296) as u32,
    }
}

// The word of a framing, which says the framing.
fn encode(f: Framing) -> u64
    ensures { (result ≡ framing_word f) × (framing_in (framing_words f) ≡ f) }
{
    flag(f.crc) + f.held as u64 * 2
}

// Loads the framing of the stream of a domain's slot.
pub fn load_framing(words: &[u64; 945], domain: usize, slot: usize) -> Framing
    ensures { result ≡ loaded_framing words.now domain slot }
{
    let all = &words[..];
    let at = stream_offset(domain, slot) + FRAMING;
    decode(all[at])
}

// Stores the framing of the stream of a domain's slot.
pub fn store_framing(words: &mut [u64; 945], domain: usize, slot: usize, f: Framing)
    ensures { (words.new ≡ stored_framing words.old domain slot f) × (loaded_framing words.new domain slot ≡ f) × (length words.old ≡ block_words) }
{
    let at = stream_offset(domain, slot) + FRAMING;
    store_word(words, at, encode(f));
}
