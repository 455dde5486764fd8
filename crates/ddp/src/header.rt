// Segment headers (RFC 5041, section 4): 14 bytes of a tagged one, 18 of an untagged one.
ghost use Rattle.std.specs.Prelude.{◌≡◌, ◌≤◌, length};
ghost use Rattle.wire.specs.Wire.{put};
ghost use Rattle.ddp.specs.Header.{
  tagged_bit,
  last_bit,
  control_of,
  start_bytes,
  tagged_read,
  untagged_read,
  header_read,
  tagged_bytes,
  untagged_bytes,
  header_written,
  written_out,
};

use crate::refusal::{Refusal, SEGMENT_TOO_SHORT, TAGGED_VERSION, UNTAGGED_VERSION};
use wire::number::{get_be32, get_be64, put_be32, put_be64};
use wire::refusal::LocalRefusal;

// The header of a tagged segment. control is the byte that RDMAP keeps there, and is only passed on.
#[derive(Drop)]
pub struct TaggedHeader {
    pub last: bool,
    pub control: u8,
    pub stag: u32,
    pub to: u64,
}

// The header of an untagged segment; stag is the one to invalidate.
#[derive(Clone, Copy)]
pub struct UntaggedHeader {
    pub last: bool,
    pub control: u8,
    pub stag: u32,
    pub qn: u32,
    pub msn: u32,
    pub mo: u32,
}

// A header of either kind.
#[derive(Drop)]
pub enum Header {
    Tagged(TaggedHeader),
    Untagged(UntaggedHeader),
}

// Whether T is set in the first byte.
pub fn is_tagged(b: u8) -> bool
    ensures { result ≡ tagged_bit b }
{
    128 <= b
}

// Whether L is set in the first byte.
pub fn is_last(b: u8) -> bool
    ensures { result ≡ last_bit b }
{
    b / 64 % 2 == 1
}

// Reads the header of a ULPDU whose T is set.
#[tactic(auto, unfolding(crate::specs::Header::tagged_read, crate::specs::Header::tagged_fields))]
fn read_tagged(ulpdu: &[u8]) -> Result<Header, Refusal>
    requires { 14 ≤ length ulpdu.now }
    ensures { result ≡ tagged_read ulpdu.now }
{
    let b = ulpdu[0];
    if b % 4 != 1 {
        return Err(TAGGED_VERSION);
    }
    Ok(Header::Tagged(TaggedHeader {
        last: is_last(b),
        control: ulpdu[1],
        stag: get_be32(ulpdu, 2),
        to: get_be64(ulpdu, 6),
    }))
}

// Reads the header of a ULPDU whose T is clear.
#[tactic(auto, unfolding(crate::specs::Header::untagged_read, crate::specs::Header::untagged_fields))]
fn read_untagged(ulpdu: &[u8]) -> Result<Header, Refusal>
    requires { 14 ≤ length ulpdu.now }
    ensures { result ≡ untagged_read ulpdu.now }
{
    if ulpdu.len() < 18 {
        return Err(SEGMENT_TOO_SHORT);
    }
    let b = ulpdu[0];
    if b % 4 != 1 {
        return Err(UNTAGGED_VERSION);
    }
    Ok(Header::Untagged(UntaggedHeader {
        last: is_last(b),
        control: ulpdu[1],
        stag: get_be32(ulpdu, 2),
        qn: get_be32(ulpdu, 6),
        msn: get_be32(ulpdu, 10),
        mo: get_be32(ulpdu, 14),
    }))
}

// Reads the header at the start of a ULPDU.
#[tactic(auto, unfolding(crate::specs::Header::header_read))]
pub fn read_header(ulpdu: &[u8]) -> Result<Header, Refusal>
    ensures { result ≡ header_read ulpdu.now }
{
    if ulpdu.len() < 14 {
        return Err(SEGMENT_TOO_SHORT);
    }
    if is_tagged(ulpdu[0]) {
        return read_tagged(ulpdu);
    }
    read_untagged(ulpdu)
}

// The first byte: T, L and version 1.
#[tactic(auto, unfolding(crate::specs::Header::control_of))]
fn control_byte(tagged: bool, last: bool) -> u8
    ensures { result ≡ control_of tagged last }
{
    (if tagged { 0x80 } else { 0 }) + (if last { 0x40 } else { 0 }) + 1
}

// Writes what both headers begin with: the first byte, RDMAP's byte and the STag.
#[tactic(auto, unfolding(crate::specs::Header::start_bytes))]
fn write_start(tagged: bool, last: bool, control: u8, stag: u32, out: &mut [u8])
    requires { 6 ≤ length out.old }
    ensures { out.new ≡ put out.old 0 (start_bytes tagged last control stag) }
{
    out[0] = control_byte(tagged, last);
    out[1] = control;
    put_be32(out, 2, stag);
}

// Writes a tagged header at the start of out.
#[tactic(auto, using(crate::proofs::Round::tagged_length, crate::proofs::Round::tagged_put), unfolding(crate::specs::Header::header_written, crate::specs::Header::written_out))]
pub fn write_tagged(h: TaggedHeader, out: &mut [u8]) -> Result<usize, LocalRefusal>
    ensures { (result ≡ header_written 14 (length out.old)) × (out.new ≡ written_out (tagged_bytes h) out.old) }
{
    if out.len() < 14 {
        return Err(LocalRefusal::NoRoom);
    }
    write_start(true, h.last, h.control, h.stag, out);
    put_be64(out, 6, h.to);
    Ok(14)
}

// Writes an untagged header at the start of out.
#[tactic(auto, using(crate::proofs::Round::untagged_length, crate::proofs::Round::untagged_put), unfolding(crate::specs::Header::header_written, crate::specs::Header::written_out))]
pub fn write_untagged(h: UntaggedHeader, out: &mut [u8]) -> Result<usize, LocalRefusal>
    ensures { (result ≡ header_written 18 (length out.old)) × (out.new ≡ written_out (untagged_bytes h) out.old) }
{
    if out.len() < 18 {
        return Err(LocalRefusal::NoRoom);
    }
    write_start(false, h.last, h.control, h.stag, out);
    put_be32(out, 6, h.qn);
    put_be32(out, 10, h.msn);
    put_be32(out, 14, h.mo);
    Ok(18)
}
