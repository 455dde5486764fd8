// A writer for messages: Write and the four Sends. It is a small record by value, begun with what the
// message is, and asked for one segment after the other; a segment is the ULPDU, which `mpa` frames. The
// message's bytes and the output slice are lent at each call.
//
// Read `Message` first, then `next`. The definitions are in specs/Message.antt, and how a message is cut in
// specs/Cut.antt. No public function has a `requires`.
#![tactic(auto)]

ghost use Rattle.std.specs.Prelude.{◌≡◌, ◌+◌, ◌%◌, ◌≤◌, length};
ghost use Rattle.wire.specs.Wire.{put, pick};
ghost use Rattle.sender.specs.Message.{
  write_begun,
  send_begun,
  header_size,
  room_of,
  payload_size,
  is_last,
  header_bytes,
  segment_bytes,
  advanced,
  next_of,
  next_out,
};

use crate::cut::{ends_in, piece_of};
use crate::range::{send_in_range, stag_held, write_in_range};
use ddp::header::{TaggedHeader, UntaggedHeader, write_tagged, write_untagged};
use mpa::fpdu::MAX_ULPDU;
use wire::copy::copy;
use wire::refusal::LocalRefusal;

pub mod cut;
pub mod range;
pub mod words;

// A message under way: what its headers say, the largest ULPDU, how long it is, how many of its bytes are
// written, and whether its last segment is.
#[repr(C)]
#[derive(Clone, Copy)]
pub struct Message {
    pub tagged: bool,
    pub opcode: u8,
    pub stag: u32,
    pub to: u64,
    pub msn: u32,
    pub limit: u32,
    pub len: u32,
    pub at: u32,
    pub done: bool,
}

// Begins a Write of len bytes to the tagged offset to of a window, in segments of at most limit bytes.
#[tactic(auto, using(crate::proofs::Writes::write_true), unfolding(crate::specs::Message::write_begun))]
pub fn begin_write(limit: u64, stag: u64, to: u64, len: u64) -> Result<Message, LocalRefusal>
    ensures { result ≡ write_begun limit stag to len }
{
    if write_in_range(limit, stag, to, len) {
        if (MAX_ULPDU as u64) < limit {
            return Err(LocalRefusal::OverLimit);
        }
        return Ok(Message {
            tagged: true,
            opcode: 0,
            stag: stag as u32,
            to,
            msn: 0,
            limit: limit as u32,
            len: len as u32,
            at: 0,
            done: false,
        });
    }
    Err(LocalRefusal::OutOfRange)
}

// Begins a Send of len bytes with its opcode and number, in segments of at most limit bytes. The STag is the
// one to invalidate, and is looked at for an opcode with Invalidate alone.
#[tactic(auto, using(crate::proofs::Writes::send_true), unfolding(crate::specs::Message::send_begun))]
pub fn begin_send(
    limit: u64,
    opcode: u64,
    msn: u64,
    stag: u64,
    len: u64,
) -> Result<Message, LocalRefusal>
    ensures { result ≡ send_begun limit opcode msn stag len }
{
    let held = stag_held(opcode, stag);
    if send_in_range(limit, opcode, msn, held, len) {
        if (MAX_ULPDU as u64) < limit {
            return Err(LocalRefusal::OverLimit);
        }
        return Ok(Message {
            tagged: false,
            opcode: opcode as u8,
            stag: held as u32,
            to: 0,
            msn: msn as u32,
            limit: limit as u32,
            len: len as u32,
            at: 0,
            done: false,
        });
    }
    Err(LocalRefusal::OutOfRange)
}

// The size of the header before each payload.
fn header_size(tagged: bool) -> u32
    ensures { (result ≡ pick tagged 14 18) × (result ≤ 18) }
{
    if tagged { 14 } else { 18 }
}

// The room for a payload.
fn room_of(m: Message) -> u32
    ensures { result ≡ room_of m }
{
    m.limit.saturating_sub(header_size(m.tagged))
}

// The length of the next segment's payload.
#[tactic(auto, using(crate::proofs::Cuts::piece_left))]
fn payload_size(m: Message) -> u32
    requires { m.at ≤ m.len }
    ensures { (result ≡ payload_size m) × (m.at + result ≤ m.len) }
{
    piece_of(room_of(m), m.len - m.at)
}

// Whether the next segment is the last.
fn is_last(m: Message) -> bool
    requires { m.at ≤ m.len }
    ensures { result ≡ is_last m }
{
    ends_in(room_of(m), m.len - m.at)
}

// RDMAP's byte: version 1, and the opcode.
fn control_byte(opcode: u8) -> u8
    ensures { result ≡ (64 + opcode) % 256 }
{
    64u8.wrapping_add(opcode)
}

// Writes the next segment's header to the start of out.
#[tactic(auto, using(crate::proofs::Writes::tagged_header, crate::proofs::Writes::untagged_header))]
fn write_header(m: Message, last: bool, out: &mut [u8])
    requires { (last ≡ is_last m) × (header_size m ≤ length out.old) }
    ensures { out.new ≡ put out.old 0 (header_bytes m) }
{
    let control = control_byte(m.opcode);
    if m.tagged {
        let offset = m.to.wrapping_add(m.at as u64);
        let h = TaggedHeader {
            last,
            control,
            stag: m.stag,
            to: offset,
        };
        let _ = write_tagged(h, out);
    } else {
        let h = UntaggedHeader {
            last,
            control,
            stag: m.stag,
            qn: 0,
            msn: m.msn,
            mo: m.at,
        };
        let _ = write_untagged(h, out);
    }
}

// Writes the next segment to the start of out: its header of so many bytes, and a payload of so many.
#[tactic(auto, using(crate::proofs::Writes::segment_put))]
fn write_segment(
    m: Message,
    last: bool,
    header: usize,
    payload: usize,
    message: &[u8],
    out: &mut [u8],
)
    requires { (last ≡ is_last m) × (header ≡ header_size m) × (payload ≡ payload_size m) × (m.at + payload ≤ length message.now) × (header + payload ≤ length out.old) }
    ensures { out.new ≡ put out.old 0 (segment_bytes m message.now) }
{
    let at = m.at as usize;
    write_header(m, last, out);
    copy(out, header, &message[at..at + payload]);
}

// The message after a segment with a payload of so many bytes.
#[tactic(auto, unfolding(crate::specs::Message::advanced))]
fn advance(m: Message, last: bool, payload: u32) -> Message
    requires { (last ≡ is_last m) × (payload ≡ payload_size m) × (m.at + payload ≤ m.len) }
    ensures { result ≡ advanced m }
{
    Message {
        at: m.at + payload,
        done: last,
        ..m
    }
}

impl Message {
    // Writes the next segment of the message lent to the start of out, or says that there is none. Where it
    // is refused, out keeps its bytes, and the segment stays next.
    #[tactic(auto, unfolding(crate::specs::Message::next_answer, crate::specs::Message::next_of, crate::specs::Message::next_out))]
    pub fn next(
        self,
        message: &[u8],
        out: &mut [u8],
    ) -> (Result<Option<usize>, LocalRefusal>, Message)
        ensures { (result ≡ next_of self (length message.now) (length out.old)) × (out.new ≡ next_out self message.now out.old) }
    {
        if message.len() != self.len as usize || self.len < self.at {
            return (Err(LocalRefusal::OutOfRange), self);
        }
        if self.done {
            return (Ok(None), self);
        }
        let header = header_size(self.tagged) as usize;
        let payload = payload_size(self);
        let last = is_last(self);
        let size = header + payload as usize;
        if out.len() < size {
            return (Err(LocalRefusal::NoRoom), self);
        }
        write_segment(self, last, header, payload as usize, message, out);
        (Ok(Some(size)), advance(self, last, payload))
    }
}
