// The opening: the block holds a new device, or the empty one where the opening is refused.
ghost use Rattle.std.specs.Prelude.{◌≡◌};
ghost use Rattle.rnic.specs.Rnic.{opened_rnic};
ghost use Rattle.block.specs.Device.{rnic_at};

use block::device::{clear_block, store_opened};
use memory::part::Part;
use rnic::{in_order, length_in_range};
use wire::refusal::LocalRefusal;

// Opens a device over a store of a length, with four parts, whatever the words were; the store is not touched.
pub fn open(
    words: &mut [u64; 945],
    len: u64,
    s0: u64,
    e0: u64,
    s1: u64,
    e1: u64,
    s2: u64,
    e2: u64,
    s3: u64,
    e3: u64,
) -> Result<(), LocalRefusal>
    ensures { (result ≡ (opened_rnic len s0 e0 s1 e1 s2 e2 s3 e3).0) × (rnic_at words.new ≡ (opened_rnic len s0 e0 s1 e1 s2 e2 s3 e3).1) }
{
    if length_in_range(len) {
        if in_order(len, s0, e0, s1, e1, s2, e2, s3, e3) {
            store_opened(
                words,
                len as u32,
                Part {
                    start: s0 as u32,
                    end: e0 as u32,
                },
                Part {
                    start: s1 as u32,
                    end: e1 as u32,
                },
                Part {
                    start: s2 as u32,
                    end: e2 as u32,
                },
                Part {
                    start: s3 as u32,
                    end: e3 as u32,
                },
            );
            return Ok(());
        }
        clear_block(words);
        return Err(LocalRefusal::BadPlace);
    }
    clear_block(words);
    Err(LocalRefusal::OutOfRange)
}
