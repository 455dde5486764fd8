// Where a stream stands: its phase, in one word.
ghost use Rattle.std.specs.Prelude.{◌≡◌, ◌∷◌, [], length};
ghost use Rattle.block.specs.Layout.{block_words};
ghost use Rattle.block.specs.Stream.{
  phase_in,
  phase_word,
  phase_words,
  loaded_phase,
  stored_phase,
};

use crate::layout::stream_offset;
use crate::store::store_word;
use ddp::refusal::Refusal;
use rdmap::phase::Phase;

// The phase in a word.
fn decode(x: u64) -> Phase
    ensures { result ≡ phase_in (x ∷ []) }
{
    Phase {
        state: (x % 256) as u8,
        refusal: Refusal {
            number: (x / 256 % 256) as u8,
            layer: (x / 65536 % 256) as u8,
            etype: (x / 16777216 % 256) as u8,
            code: (x / 4294967296 % 256) as u8,
        },
    }
}

// The word of a phase, which says the phase.
fn encode(p: Phase) -> u64
    ensures { (result ≡ phase_word p) × (phase_in (phase_words p) ≡ p) }
{
    let f = p.refusal;
    p.state as u64
        + f.number as u64 * 256
        + f.layer as u64 * 65536
        + f.etype as u64 * 16777216
        + f.code as u64 * 4294967296
}

// Loads the phase of the stream of a domain's slot.
pub fn load_phase(words: &[u64; 945], domain: usize, slot: usize) -> Phase
    ensures { result ≡ loaded_phase words.now domain slot }
{
    let all = &words[..];
    let at = stream_offset(domain, slot);
    decode(all[at])
}

// Stores the phase of the stream of a domain's slot.
pub fn store_phase(words: &mut [u64; 945], domain: usize, slot: usize, p: Phase)
    ensures { (words.new ≡ stored_phase words.old domain slot p) × (loaded_phase words.new domain slot ≡ p) × (length words.old ≡ block_words) }
{
    let at = stream_offset(domain, slot);
    store_word(words, at, encode(p));
}
