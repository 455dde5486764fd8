// Segments: the first FPDU of some bytes, as a DDP segment (rules 20 to 23), read by the contract of
// the framing layer `mpa`. Read `SegmentRead` first.
ghost use Rattle.std.specs.Prelude.{◌≡◌, ◌+◌, ◌≤◌, length};
ghost use Rattle.wire.specs.Wire.{part};
ghost use Rattle.ddp.specs.Header.{header_read};
ghost use Rattle.ddp.specs.Segment.{segment_of, segment_read};

use crate::header::{Header, TaggedHeader, UntaggedHeader, read_header};
use crate::refusal::Refusal;
use mpa::FpduRead;
use mpa::fpdu::read_fpdu;

// The first segment: more bytes are wanted, or it is whole. Then total is the length of its FPDU, and its
// payload is the len bytes from start.
#[derive(Drop)]
pub enum SegmentRead {
    Wait(usize),
    Tagged {
        total: usize,
        header: TaggedHeader,
        start: usize,
        len: usize,
    },
    Untagged {
        total: usize,
        header: UntaggedHeader,
        start: usize,
        len: usize,
    },
}

// The segment of an FPDU whose ULPDU is the len bytes from start.
fn segment_of(bytes: &[u8], total: usize, start: usize, len: usize) -> Result<SegmentRead, Refusal>
    requires { start + len ≤ length bytes.now }
    ensures { result ≡ segment_of total start len (header_read (part bytes.now start len)) }
{
    match read_header(&bytes[start..start + len])? {
        Header::Tagged(header) => Ok(SegmentRead::Tagged {
            total,
            header,
            start: start + 14,
            len: len - 14,
        }),
        Header::Untagged(header) => Ok(SegmentRead::Untagged {
            total,
            header,
            start: start + 18,
            len: len - 18,
        }),
    }
}

// Reads the first segment of bytes, with the CRC on or off.
#[tactic(auto, unfolding(crate::specs::Segment::segment_read))]
pub fn read_segment(crc: bool, bytes: &[u8]) -> Result<SegmentRead, Refusal>
    ensures { result ≡ segment_read crc bytes.now }
{
    match read_fpdu(crc, bytes)? {
        FpduRead::Wait(n) => Ok(SegmentRead::Wait(n)),
        FpduRead::Taken { total, start, len } => segment_of(bytes, total, start, len),
    }
}
