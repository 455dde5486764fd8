// Numbers at a place of a slice, in two, four or eight bytes.
ghost use Rattle.std.specs.Prelude.{◌≡◌, ◌+◌, ◌≤◌, ◌<◌, length};
ghost use Rattle.wire.specs.Wire.{put, be16, be16_at, be32, be32_at, be64, be64_at, le32, le32_at};

use crate::copy::copy;

// The big-endian number in the two bytes from at.
pub fn get_be16(s: &[u8], at: usize) -> usize
    requires { at + 2 ≤ length s.now }
    ensures { (result ≡ be16_at s.now at) × (result < 65536) }
{
    u16::from_be_bytes([s[at], s[at + 1]]) as usize
}

// The big-endian number in the four bytes from at.
pub fn get_be32(s: &[u8], at: usize) -> u32
    requires { at + 4 ≤ length s.now }
    ensures { result ≡ be32_at s.now at }
{
    u32::from_be_bytes([s[at], s[at + 1], s[at + 2], s[at + 3]])
}

// The big-endian number in the eight bytes from at.
pub fn get_be64(s: &[u8], at: usize) -> u64
    requires { at + 8 ≤ length s.now }
    ensures { result ≡ be64_at s.now at }
{
    u64::from_be_bytes([
        s[at],
        s[at + 1],
        s[at + 2],
        s[at + 3],
        s[at + 4],
        s[at + 5],
        s[at + 6],
        s[at + 7],
    ])
}

// The number in the four bytes from at, the least significant byte first.
pub fn get_le32(s: &[u8], at: usize) -> u32
    requires { at + 4 ≤ length s.now }
    ensures { result ≡ le32_at s.now at }
{
    u32::from_le_bytes([s[at], s[at + 1], s[at + 2], s[at + 3]])
}

// Writes v big-endian into the two bytes from at.
pub fn put_be16(out: &mut [u8], at: usize, v: usize)
    requires { (v < 65536) × (at + 2 ≤ length out.old) }
    ensures { out.new ≡ put out.old at (be16 v) }
{
    copy(out, at, &u16::to_be_bytes(v as u16));
}

// Writes v big-endian into the four bytes from at.
pub fn put_be32(out: &mut [u8], at: usize, v: u32)
    requires { at + 4 ≤ length out.old }
    ensures { out.new ≡ put out.old at (be32 v) }
{
    copy(out, at, &u32::to_be_bytes(v));
}

// Writes v big-endian into the eight bytes from at.
pub fn put_be64(out: &mut [u8], at: usize, v: u64)
    requires { at + 8 ≤ length out.old }
    ensures { out.new ≡ put out.old at (be64 v) }
{
    copy(out, at, &u64::to_be_bytes(v));
}

// Writes v into the four bytes from at, the least significant byte first.
pub fn put_le32(out: &mut [u8], at: usize, v: u32)
    requires { at + 4 ≤ length out.old }
    ensures { out.new ≡ put out.old at (le32 v) }
{
    copy(out, at, &u32::to_le_bytes(v));
}
