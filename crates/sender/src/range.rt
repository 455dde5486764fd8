// What a message is begun with, and whether it is in range.
ghost use Rattle.std.specs.Prelude.{◌≡◌, not, nat_le};
ghost use Rattle.wire.specs.Wire.{both};
ghost use Rattle.memory.specs.Window.{wraps};
ghost use Rattle.rdmap.specs.Message.{is_send};
ghost use Rattle.sender.specs.Message.{max32, sized, stag_held};

use memory::window::wraps_around;
use rdmap::message::{is_send, takes_stag};

// The largest number of 32 bits.
const MAX32: u64 = u32::MAX as u64;

// The smallest size of a segment: the longer header, and one byte.
const MIN_ULPDU: u64 = 19;

// Whether a segment has room for a byte, and the message's length a field.
fn is_sized(limit: u64, len: u64) -> bool
    ensures { result ≡ sized limit len }
{
    MIN_ULPDU <= limit && len <= MAX32
}

// Whether a Write may be begun.
pub fn write_in_range(limit: u64, stag: u64, to: u64, len: u64) -> bool
    ensures { result ≡ both (sized limit len) (both (nat_le stag max32) (not (wraps to len))) }
{
    is_sized(limit, len) && stag <= MAX32 && !wraps_around(to, len)
}

// The STag in a Send's headers: the one to invalidate, or 0.
pub fn stag_held(opcode: u64, stag: u64) -> u64
    ensures { result ≡ stag_held opcode stag }
{
    if takes_stag(opcode) { stag } else { 0 }
}

// Whether a Send may be begun, whose headers hold this STag.
pub fn send_in_range(limit: u64, opcode: u64, msn: u64, held: u64, len: u64) -> bool
    ensures { result ≡ both (sized limit len) (both (is_send opcode) (both (nat_le msn max32) (nat_le held max32))) }
{
    is_sized(limit, len) && is_send(opcode) && msn <= MAX32 && held <= MAX32
}
