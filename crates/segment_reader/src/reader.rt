// The reader that keeps the lent bytes and its place in them. Each of its functions takes it apart and
// calls the one of `field` or `header` that does the work.
ghost use Rattle.std.specs.Prelude.{◌≡◌};
ghost use Rattle.ddp.specs.Header.{header_read};
ghost use Rattle.segment_reader.specs.Field.{byte_field, be32_field, be64_field, left_from, rest_from, place_after};
ghost use Rattle.segment_reader.specs.Header.{payload_of};

use ddp::header::Header;
use ddp::refusal::Refusal;

// The bytes of a ULPDU, and the place of the next one to read.
// Kept: the lent slice with a place beside it, by value; every function here is thin over one of `field` or `header`.
#[derive(Clone, Copy)]
pub struct SegmentReader<'a> {
    pub bytes: &'a [u8],
    pub at: usize,
}

// A reader at the start of a ULPDU.
pub fn new<'a>(ulpdu: &'a [u8]) -> SegmentReader<'a>
    ensures { (result.bytes ≡ ulpdu.entry) × (result.at ≡ 0) }
{
    SegmentReader {
        bytes: ulpdu,
        at: 0,
    }
}

// The reader n bytes on, or at the end where fewer are left.
pub fn skipped<'a>(r: SegmentReader<'a>, n: usize) -> SegmentReader<'a>
    ensures { (result.bytes ≡ r.entry.bytes) × (result.at ≡ place_after r.entry.bytes.now r.entry.at n) }
{
    SegmentReader {
        bytes: r.bytes,
        at: crate::field::place_after(r.bytes, r.at, n),
    }
}

// How many bytes are left.
pub fn left<'a>(r: SegmentReader<'a>) -> usize
    ensures { result ≡ left_from r.entry.bytes.now r.entry.at }
{
    crate::field::left_at(r.bytes, r.at)
}

// The bytes that are left.
pub fn rest<'a>(r: SegmentReader<'a>) -> &'a [u8]
    ensures { result.now ≡ rest_from r.entry.bytes.now r.entry.at }
{
    crate::field::rest_at(r.bytes, r.at)
}

// The next byte.
pub fn byte<'a>(r: SegmentReader<'a>) -> Option<u8>
    ensures { result ≡ byte_field r.entry.bytes.now r.entry.at }
{
    crate::field::byte_at(r.bytes, r.at)
}

// The big-endian number in the next four bytes.
pub fn be32<'a>(r: SegmentReader<'a>) -> Option<u32>
    ensures { result ≡ be32_field r.entry.bytes.now r.entry.at }
{
    crate::field::be32_at(r.bytes, r.at)
}

// The big-endian number in the next eight bytes.
pub fn be64<'a>(r: SegmentReader<'a>) -> Option<u64>
    ensures { result ≡ be64_field r.entry.bytes.now r.entry.at }
{
    crate::field::be64_at(r.bytes, r.at)
}

// The header that the bytes left begin with.
pub fn header<'a>(r: SegmentReader<'a>) -> Result<Header, Refusal>
    ensures { result ≡ header_read (rest_from r.entry.bytes.now r.entry.at) }
{
    crate::header::header_at(r.bytes, r.at)
}

// The payload after that header: none where it is refused.
pub fn payload<'a>(r: SegmentReader<'a>) -> &'a [u8]
    ensures { result.now ≡ payload_of (rest_from r.entry.bytes.now r.entry.at) }
{
    crate::header::payload_at(r.bytes, r.at)
}
