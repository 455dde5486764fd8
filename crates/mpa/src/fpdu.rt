// FPDUs (RFC 5044, section 4): ULPDU length, ULPDU, pad, CRC.
ghost use Rattle.std.specs.Prelude.{◌≡◌, ◌+◌, ◌^◌, ◌≤◌, ◌<◌, length};
ghost use Rattle.crc32c.specs.Crc.{crc_of};
ghost use Rattle.wire.specs.Wire.{put};
ghost use Rattle.mpa.specs.Fpdu.{max_ulpdu, pad_of, covered_of, total_of, needed_for, covered, fpdu_of, fpdu_written, fpdu_out, crc_right, fpdu_read_of, fpdu_read};

use crate::{FpduFault, FpduRead};
use crc32c::{ALL_ONES, crc32c, update};
use wire::copy::{clear, copy};
use wire::number::{get_be16, get_le32, put_be16, put_le32};
use wire::refusal::LocalRefusal;

// The longest ULPDU. Every other length that follows from it is worked out from here.
pub const MAX_ULPDU: usize = 8192;

// The longest FPDU: that of the longest ULPDU, with its length, pad and CRC.
pub const MAX_FPDU: usize = 2 + MAX_ULPDU + (4 - (2 + MAX_ULPDU) % 4) % 4 + 4;

// How many pad bytes follow a ULPDU of n bytes.
fn pad_length(n: usize) -> usize
    requires { n < 2 ^ 63 }
    ensures { (result ≡ pad_of n) × (result < 4) }
{
    (4 - (2 + n) % 4) % 4
}

// How many bytes the CRC is over: length, ULPDU and pad.
fn covered_length(n: usize) -> usize
    requires { n < 2 ^ 63 }
    ensures { (result ≡ covered_of n) × (result < n + 6) }
{
    2 + n + pad_length(n)
}

// How long the FPDU of a ULPDU of n bytes is.
fn total_length(n: usize) -> usize
    requires { n < 2 ^ 63 }
    ensures { result ≡ total_of n }
{
    covered_length(n) + 4
}

// How many bytes of an FPDU that begins with this length say what it is: all of it, or the two of the
// length where that is over the limit.
pub fn needed(len: usize) -> usize
    ensures { (result ≡ needed_for len) × (result ≤ total_of max_ulpdu) × (2 ≤ result) }
{
    if MAX_ULPDU < len {
        return 2;
    }
    total_length(len)
}

// Writes length, ULPDU and pad to the start of out.
fn write_covered(ulpdu: &[u8], out: &mut [u8])
    requires { (length ulpdu.now < 65536) × (covered_of (length ulpdu.now) ≤ length out.old) }
    ensures { out.new ≡ put out.old 0 (covered ulpdu.now) }
{
    let n = ulpdu.len();
    let pad = pad_length(n);
    put_be16(out, 0, n);
    copy(out, 2, ulpdu);
    clear(out, 2 + n, pad);
}

// The CRC of length, n bytes of ULPDU and pad, carried on from each to the next.
fn crc_of(bytes: &[u8], n: usize) -> u32
    requires { 2 + n ≤ length bytes.now }
    ensures { result ≡ crc_of bytes.now }
{
    let head = update(ALL_ONES, &bytes[..2]);
    let ulpdu = update(head, &bytes[2..2 + n]);
    ALL_ONES - update(ulpdu, &bytes[2 + n..])
}

// Writes the FPDU of a ULPDU to the start of out.
fn write_whole(ulpdu: &[u8], out: &mut [u8])
    requires { (length ulpdu.now < 65536) × (total_of (length ulpdu.now) ≤ length out.old) }
    ensures { out.new ≡ put out.old 0 (fpdu_of ulpdu.now) }
{
    let n = ulpdu.len();
    let c = covered_length(n);
    write_covered(ulpdu, out);
    let crc = crc_of(&out[..c], n);
    put_le32(out, c, crc);
}

// Writes the FPDU of a ULPDU, with its CRC, to the start of out.
#[tactic(auto, unfolding(crate::specs::Fpdu::fpdu_written, crate::specs::Fpdu::fpdu_out))]
pub fn write_fpdu(ulpdu: &[u8], out: &mut [u8]) -> Result<usize, LocalRefusal>
    ensures { (result ≡ fpdu_written (length ulpdu.now) (length out.old)) × (out.new ≡ fpdu_out ulpdu.now out.old) }
{
    let size = ulpdu.len();
    let total = total_length(size);
    if MAX_ULPDU < size {
        return Err(LocalRefusal::OverLimit);
    }
    if out.len() < total {
        return Err(LocalRefusal::NoRoom);
    }
    write_whole(ulpdu, out);
    Ok(total)
}

// Whether the four bytes after length, ULPDU and pad are the CRC of those.
fn crc_right(bytes: &[u8], n: usize) -> bool
    requires { (n < 65536) × (total_of n ≤ length bytes.now) }
    ensures { result ≡ crc_right bytes.now n }
{
    let c = covered_length(n);
    get_le32(bytes, c) == crc32c(&bytes[..c])
}

// What the first FPDU of bytes is, whose length field is n.
#[tactic(auto, unfolding(crate::specs::Fpdu::fpdu_read_of))]
fn read_of(crc: bool, bytes: &[u8], n: usize) -> Result<FpduRead, FpduFault>
    requires { n < 65536 }
    ensures { result ≡ fpdu_read_of crc bytes.now n }
{
    let total = total_length(n);
    if MAX_ULPDU < n {
        return Err(FpduFault::UlpduTooLong);
    }
    if bytes.len() < total {
        return Ok(FpduRead::Wait(total));
    }
    if crc && !crc_right(bytes, n) {
        return Err(FpduFault::CrcError);
    }
    Ok(FpduRead::Taken {
        total,
        start: 2,
        len: n,
    })
}

// What the first FPDU of bytes is, with the CRC on or off.
#[tactic(auto, unfolding(crate::specs::Fpdu::fpdu_read))]
pub fn read_fpdu(crc: bool, bytes: &[u8]) -> Result<FpduRead, FpduFault>
    ensures { result ≡ fpdu_read crc bytes.now }
{
    if bytes.len() < 2 {
        return Ok(FpduRead::Wait(2));
    }
    read_of(crc, bytes, get_be16(bytes, 0))
}
