// How much is placed: a count of bytes since the last tick, and a gauge of the counts at the ticks, an
// average in floats that follows them.
//
// Read `Meter` first, then `gauge`. `words` has the meter as the device keeps it.
#![tactic(auto)]

ghost use Rattle.std.specs.Prelude.{◌≡◌};
ghost use Rattle.meter.specs.Gauge.{counted_bytes, counted_meter, new_meter, ticked_meter, reading_of};

use crate::gauge::Gauge;

pub mod gauge;
pub mod words;

// The last count: it stops there.
const LAST: usize = 0xFFFF_FFFF;

// The bytes placed since the last tick, whether there was a tick, and the gauge.
// Kept: `ticked` stands beside the gauge, and not an `Option` of it, since any three words are a meter (`meter_at`), also
// those with no mark and a level that is not 0, which `meter_words` gives back.
#[derive(Clone, Copy, Default)]
pub struct Meter {
    pub count: u32,
    pub ticked: bool,
    pub gauge: Gauge,
}

// A meter before its first tick.
#[tactic(auto, using(crate::proofs::Cases::zero))]
pub fn new_meter() -> Meter
    ensures { result ≡ new_meter }
{
    Meter::default()
}

// The count once more bytes are placed.
pub fn counted(count: u32, placed: usize) -> u32
    ensures { result ≡ counted_bytes count placed }
{
    (count as usize).saturating_add(placed).min(LAST) as u32
}

// The meter once more bytes are placed.
pub fn count(m: Meter, placed: usize) -> Meter
    ensures { result ≡ counted_meter m placed }
{
    Meter {
        count: counted(m.count, placed),
        ..m
    }
}

// The meter after a tick: the count is the sample, and starts anew.
pub fn tick(m: Meter) -> Meter
    ensures { result ≡ ticked_meter m }
{
    Meter {
        count: 0,
        ticked: true,
        gauge: gauge::sampled(m.gauge, m.ticked, m.count),
    }
}

// What a meter's gauge reads as.
pub fn reading(m: Meter) -> gauge::Reading
    ensures { result ≡ reading_of m.gauge m.ticked }
{
    gauge::read(m.gauge, m.ticked)
}
