// CRC-32C (Castagnoli), as RFC 5044 section 4.4 uses it: polynomial 0x1EDC6F41 reflected, start all
// ones, result inverted. The definition, bit by bit, is the crate `crc_bits`; here it is done by tables, those of half
// bytes from the crate `crc_halves` for a short slice and eight of whole bytes for a long one.
//
// Read `update` first; `shift`, passed on from `crc_bits`, joins the CRCs of two pieces.
#![tactic(auto)]

mod long;
mod short;

ghost use Rattle.std.specs.Prelude.{◌≡◌};
ghost use Rattle.crc_bits.specs.Crc.{crc_run, crc_of};

pub use crc_bits::shift;

// The running value before the first byte.
pub const ALL_ONES: u32 = 0xFFFF_FFFF;

// From this length on three numbers of eight bytes at a time are worth it.
const LONG: usize = 48;

// The running value carried on over the bytes of a slice.
pub fn update(running: u32, bytes: &[u8]) -> u32
    ensures { result ≡ crc_run running bytes.now }
{
    if bytes.len() < LONG {
        return short::carry(running, bytes);
    }
    long::carry(running, bytes)
}

// The CRC-32C of a slice.
pub fn crc32c(s: &[u8]) -> u32
    ensures { result ≡ crc_of s.now }
{
    ALL_ONES - update(ALL_ONES, s)
}
