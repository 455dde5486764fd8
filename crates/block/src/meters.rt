// The meter of a domain, in three words: loaded, ticked, and with more bytes counted.
ghost use Rattle.std.specs.Prelude.{◌≡◌, length};
ghost use Rattle.meter.specs.Gauge.{counted_meter, ticked_meter};
ghost use Rattle.meter.specs.Words.{meter_of};
ghost use Rattle.block.specs.Layout.{block_words};
ghost use Rattle.block.specs.Device.{loaded_meter, stored_meter, stored_count};

use crate::layout::{METER_WORDS, meter_offset};
use crate::store::store_word;
use meter::Meter;
use meter::words::{counted_word, encode};
use wire::copy::copy;

// The meter in its words.
fn decode(g: &[u64]) -> Meter
    requires { length g.now ≡ 3 }
    ensures { result ≡ meter_of g.now }
{
    meter::words::decode(g[0], g[1], g[2])
}

// Loads the meter of a domain.
pub fn load_meter(words: &[u64; 945], domain: usize) -> Meter
    ensures { result ≡ loaded_meter words.now domain }
{
    let all = &words[..];
    let at = meter_offset(domain);
    let end = at + METER_WORDS;
    decode(&all[at..end])
}

// Ticks the meter of a domain.
pub fn tick_meter(words: &mut [u64; 945], domain: usize)
    ensures { (words.new ≡ stored_meter words.old domain (ticked_meter (loaded_meter words.old domain))) × (loaded_meter words.new domain ≡ ticked_meter (loaded_meter words.old domain)) × (length words.old ≡ block_words) }
{
    let m = load_meter(words, domain);
    let group = encode(meter::tick(m));
    copy(words, meter_offset(domain), &group);
}

// Counts bytes that are placed in a domain.
pub fn count_placed(words: &mut [u64; 945], domain: usize, placed: usize)
    ensures { (words.new ≡ stored_count words.old domain placed) × (loaded_meter words.new domain ≡ counted_meter (loaded_meter words.old domain) placed) × (length words.old ≡ block_words) }
{
    let at = meter_offset(domain);
    let word = words[at];
    store_word(words, at, counted_word(word, placed));
}
