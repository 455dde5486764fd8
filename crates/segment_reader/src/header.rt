// Headers: read whole at a place of a slice, with the payload after it, and put together from fields
// that were read one by one.
ghost use Rattle.std.specs.Prelude.{◌≡◌};
ghost use Rattle.ddp.specs.Header.{header_read};
ghost use Rattle.segment_reader.specs.Field.{rest_from};
ghost use Rattle.segment_reader.specs.Header.{
  payload_of,
  start_of,
  queue_of,
  tagged_header_of,
  untagged_header_of,
  header_of,
};

use crate::field::rest_at;
use ddp::header::{Header, TaggedHeader, UntaggedHeader, is_last, is_tagged, read_header};
use ddp::refusal::{Refusal, SEGMENT_TOO_SHORT, TAGGED_VERSION, UNTAGGED_VERSION};

// What both headers begin with.
#[derive(Drop)]
pub struct Start {
    pub first: u8,
    pub control: u8,
    pub stag: u32,
}

// What an untagged header goes on with.
#[derive(Drop)]
pub struct Queue {
    pub qn: u32,
    pub msn: u32,
    pub mo: u32,
}

// The header of the ULPDU that is left from a place on.
pub fn header_at(s: &[u8], at: usize) -> Result<Header, Refusal>
    ensures { result ≡ header_read (rest_from s.now at) }
{
    read_header(rest_at(s, at))
}

// The payload of the ULPDU that is left from a place on: none where its header is refused.
pub fn payload_at(s: &[u8], at: usize) -> &[u8]
    ensures { result.now ≡ payload_of (rest_from s.now at) }
{
    let ulpdu = rest_at(s, at);
    match read_header(ulpdu) {
        Ok(Header::Tagged(_)) => rest_at(ulpdu, 14),
        Ok(Header::Untagged(_)) => rest_at(ulpdu, 18),
        Err(_) => rest_at(ulpdu, ulpdu.len()),
    }
}

// What both headers begin with, of its fields, none where one is missing.
pub fn start_of(first: Option<u8>, control: Option<u8>, stag: Option<u32>) -> Option<Start>
    ensures { result ≡ start_of first control stag }
{
    Some(Start {
        first: first?,
        control: control?,
        stag: stag?,
    })
}

// What an untagged header goes on with, of its fields, none where one is missing.
pub fn queue_of(qn: Option<u32>, msn: Option<u32>, mo: Option<u32>) -> Option<Queue>
    ensures { result ≡ queue_of qn msn mo }
{
    Some(Queue {
        qn: qn?,
        msn: msn?,
        mo: mo?,
    })
}

// The tagged header of its fields.
fn tagged_of(first: u8, control: u8, stag: u32, to: u64) -> Result<Header, Refusal>
    ensures { result ≡ tagged_header_of first control stag to }
{
    if first % 4 != 1 {
        return Err(TAGGED_VERSION);
    }
    Ok(Header::Tagged(TaggedHeader {
        last: is_last(first),
        control,
        stag,
        to,
    }))
}

// The untagged header of its fields.
fn untagged_of(first: u8, control: u8, stag: u32, queue: Option<Queue>) -> Result<Header, Refusal>
    ensures { result ≡ untagged_header_of first control stag queue }
{
    let Queue { qn, msn, mo } = queue.ok_or(SEGMENT_TOO_SHORT)?;
    if first % 4 != 1 {
        return Err(UNTAGGED_VERSION);
    }
    Ok(Header::Untagged(UntaggedHeader {
        last: is_last(first),
        control,
        stag,
        qn,
        msn,
        mo,
    }))
}

// The header of its fields: T of the first byte says whether to or queue is what comes after the start.
pub fn header_of(
    start: Option<Start>,
    to: Option<u64>,
    queue: Option<Queue>,
) -> Result<Header, Refusal>
    ensures { result ≡ header_of start to queue }
{
    let Start {
        first,
        control,
        stag,
    } = start.ok_or(SEGMENT_TOO_SHORT)?;
    let to = to.ok_or(SEGMENT_TOO_SHORT)?;
    if is_tagged(first) {
        return tagged_of(first, control, stag, to);
    }
    untagged_of(first, control, stag, queue)
}
