// The calls on a domain's gauge: a tick, by which the bytes placed since the last one are a sample, and its
// reading.
ghost use Rattle.std.specs.Prelude.{◌≡◌};
ghost use Rattle.rnic.specs.Rnic.{rnic_ticked, rnic_reading};
ghost use Rattle.block.specs.Device.{rnic_at};

use block::meters::{load_meter, tick_meter};
use meter::gauge::Reading;
use wire::refusal::LocalRefusal;

// Ticks a domain.
pub fn tick(words: &mut [u64; 945], number: u64) -> Result<(), LocalRefusal>
    ensures { (result ≡ (rnic_ticked (rnic_at words.old) number).0) × (rnic_at words.new ≡ (rnic_ticked (rnic_at words.old) number).1) }
{
    if number <= 3 {
        tick_meter(words, number as usize);
        return Ok(());
    }
    Err(LocalRefusal::OutOfRange)
}

// What a domain's gauge reads as.
pub fn reading(words: &[u64; 945], number: u64) -> Result<Reading, LocalRefusal>
    ensures { result ≡ rnic_reading (rnic_at words.now) number }
{
    if number <= 3 {
        let m = load_meter(words, number as usize);
        return Ok(meter::reading(m));
    }
    Err(LocalRefusal::OutOfRange)
}
