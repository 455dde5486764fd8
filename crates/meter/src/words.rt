// A meter as three words: the count with the mark of a first tick above it, and the bits of the level
// and of the peak.
ghost use Rattle.std.specs.Prelude.{◌≡◌};
ghost use Rattle.meter.specs.Words.{level_at, level_bits, meter_at, meter_words, counted_word};

use crate::Meter;
use crate::gauge::Gauge;

// The first pattern of bits that is no finite float of at least 0: infinity's. After it come the NaNs
// and every negative float.
const INFINITY: u64 = 0x7FF0_0000_0000_0000;

// What is added to the count once there was a tick.
const TICKED: u64 = 0x1_0000_0000;

// The float of these bits, and 0 where they are those of an infinity, a NaN or a negative float.
#[tactic(auto, using(crate::proofs::Cases::zero, crate::proofs::Bits::no_nan_bits, crate::proofs::Bits::at_finite, crate::proofs::Bits::at_other))]
pub fn level_at(bits: u64) -> f64
    ensures { result ≡ level_at bits }
{
    if bits < INFINITY {
        return f64::from_bits(bits);
    }
    0.0
}

// The bits of a float, and 0 for an infinity, a NaN or a negative float.
#[tactic(auto, using(crate::proofs::Bits::bits_nan, crate::proofs::Bits::bits_finite, crate::proofs::Bits::bits_other))]
pub fn level_bits(x: f64) -> u64
    ensures { result ≡ level_bits x }
{
    if x.is_nan() {
        return 0;
    }
    let bits = x.to_bits();
    if bits < INFINITY { bits } else { 0 }
}

// The meter of three words.
#[tactic(auto, unfolding(crate::specs::Words::meter_at))]
pub fn decode(count: u64, level: u64, peak: u64) -> Meter
    ensures { result ≡ meter_at count level peak }
{
    Meter {
        count: (count % TICKED) as u32,
        ticked: TICKED <= count,
        gauge: Gauge {
            level: level_at(level),
            peak: level_at(peak),
        },
    }
}

// The three words of a meter.
#[tactic(auto, unfolding(crate::specs::Words::meter_words))]
pub fn encode(m: Meter) -> [u64; 3]
    ensures { result ≡ meter_words m }
{
    let mark = if m.ticked { TICKED } else { 0 };
    let level = level_bits(m.gauge.level);
    let peak = level_bits(m.gauge.peak);
    [m.count as u64 + mark, level, peak]
}

// The first word of a meter once more bytes are placed. It is added to as a whole, so that it is loaded as it
// was stored.
#[tactic(auto, unfolding(crate::specs::Words::counted_word))]
pub fn counted_word(word: u64, placed: usize) -> u64
    ensures { result ≡ counted_word word placed }
{
    let left = TICKED - 1 - word % TICKED;
    word + left.min(placed as u64)
}
