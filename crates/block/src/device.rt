// What the device has beside its windows and streams: the length of the store, and each domain's part of
// it, in one word each.
ghost use Rattle.std.specs.Prelude.{◌≡◌, ◌∷◌, [], length};
ghost use Rattle.rnic.specs.Rnic.{empty_rnic};
ghost use Rattle.block.specs.Layout.{block_words};
ghost use Rattle.block.specs.Words.{pair_word, part_in, part_words};
ghost use Rattle.block.specs.Exchange.{rnic_of};
ghost use Rattle.block.specs.Device.{loaded_len, stored_len, loaded_part, stored_part, rnic_at};

use crate::layout::domain_offset;
use crate::pack::{lower, pair, upper};
use crate::store::store_word;
use memory::part::Part;

// Clears the block: the device has length 0, no window is live and no stream is open.
pub fn clear_block(words: &mut [u64; 945])
    ensures { rnic_at words.new ≡ empty_rnic }
{
    words.fill(0);
}

// Loads the length of the store.
pub fn load_len(words: &[u64; 945]) -> u32
    ensures { result ≡ loaded_len words.now }
{
    let all = &words[..];
    lower(all[0])
}

// Stores the length of the store.
pub fn store_len(words: &mut [u64; 945], len: u32)
    ensures { (words.new ≡ stored_len words.old len) × (loaded_len words.new ≡ len) × (length words.old ≡ block_words) }
{
    store_word(words, 0, len as u64);
}

// The part in a word.
fn decode(x: u64) -> Part
    ensures { result ≡ part_in (x ∷ []) }
{
    Part {
        start: lower(x),
        end: upper(x),
    }
}

// The word of a part, which says the part.
fn encode(p: Part) -> u64
    ensures { (result ≡ pair_word p.start p.end) × (part_in (part_words p) ≡ p) }
{
    pair(p.start, p.end)
}

// Loads the part of a domain.
pub fn load_part(words: &[u64; 945], domain: usize) -> Part
    ensures { result ≡ loaded_part words.now domain }
{
    let all = &words[..];
    let at = domain_offset(domain);
    decode(all[at])
}

// Stores the part of a domain.
pub fn store_part(words: &mut [u64; 945], domain: usize, p: Part)
    ensures { (words.new ≡ stored_part words.old domain p) × (loaded_part words.new domain ≡ p) × (length words.old ≡ block_words) }
{
    let at = domain_offset(domain);
    store_word(words, at, encode(p));
}

// Stores a device that was just opened: its length and four parts, all windows dead and all streams closed.
pub fn store_opened(words: &mut [u64; 945], len: u32, p0: Part, p1: Part, p2: Part, p3: Part)
    ensures { rnic_at words.new ≡ rnic_of len p0 p1 p2 p3 }
{
    clear_block(words);
    store_len(words, len);
    store_part(words, 0, p0);
    store_part(words, 1, p1);
    store_part(words, 2, p2);
    store_part(words, 3, p3);
}
