// A stream of a domain, stored in its 46 words: all of its groups.
ghost use Rattle.std.specs.Prelude.{◌≡◌, length};
ghost use Rattle.block.specs.Layout.{block_words};
ghost use Rattle.block.specs.Stream.{loaded_stream, stored_stream};

use crate::framing::store_framing;
use crate::phase::store_phase;
use crate::reads::store_reads;
use crate::sends::store_sends;
use crate::terminates::store_terminates;
use rdmap::stream::Stream;

// Stores the stream of a domain's slot.
pub fn store_stream(words: &mut [u64; 945], domain: usize, slot: usize, s: Stream)
    ensures { (words.new ≡ stored_stream words.old domain slot s) × (loaded_stream words.new domain slot ≡ s) × (length words.old ≡ block_words) }
{
    store_phase(words, domain, slot, s.phase);
    store_framing(words, domain, slot, s.framing);
    store_terminates(words, domain, slot, s.terminates);
    store_sends(words, domain, slot, s.sends);
    store_reads(words, domain, slot, s.reads);
}
