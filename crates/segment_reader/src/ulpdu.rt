// A segment read field by field, each through the reader, and the two functions for a caller that
// keeps no reader.
ghost use Rattle.std.specs.Prelude.{◌≡◌};
ghost use Rattle.ddp.specs.Header.{header_read};
ghost use Rattle.segment_reader.specs.Header.{start_at, queue_at, payload_of};

use crate::header::{Queue, Start};
use crate::reader::{SegmentReader, be32, be64, byte, new, payload, skipped};
use ddp::header::Header;
use ddp::refusal::Refusal;

// What both headers begin with, its fields read in turn.
pub fn start<'a>(r: SegmentReader<'a>) -> Option<Start>
    ensures { result ≡ start_at r.entry.bytes.now r.entry.at }
{
    let first = byte(r);
    let r1 = skipped(r, 1);
    let control = byte(r1);
    let r2 = skipped(r1, 1);
    let stag = be32(r2);
    crate::header::start_of(first, control, stag)
}

// What an untagged header goes on with, its fields read in turn.
pub fn queue<'a>(r: SegmentReader<'a>) -> Option<Queue>
    ensures { result ≡ queue_at r.entry.bytes.now r.entry.at }
{
    let qn = be32(r);
    let r1 = skipped(r, 4);
    let msn = be32(r1);
    let r2 = skipped(r1, 4);
    let mo = be32(r2);
    crate::header::queue_of(qn, msn, mo)
}

// The header of a ULPDU, its fields read in turn.
pub fn read_by_fields(ulpdu: &[u8]) -> Result<Header, Refusal>
    ensures { result ≡ header_read ulpdu.now }
{
    let r = new(ulpdu);
    let begin = start(r);
    let r1 = skipped(r, 6);
    let to = be64(r1);
    let more = queue(r1);
    crate::header::header_of(begin, to, more)
}

// The payload of a ULPDU: none where its header is refused.
pub fn payload_of(ulpdu: &[u8]) -> &[u8]
    ensures { result.now ≡ payload_of ulpdu.now }
{
    payload(new(ulpdu))
}
