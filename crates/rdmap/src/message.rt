// Messages: what a segment that DDP let pass is judged to be (rules 33 to 38). Nothing is changed
// here.
ghost use Rattle.std.specs.Prelude.{◌≡◌, length, Ok, Err};
ghost use Rattle.ddp.specs.Tagged.{tagged_of};
ghost use Rattle.rdmap.specs.Message.{
  controlled,
  may_write,
  write_verdict,
  fits_queue,
  takes_stag,
  send_verdict,
  source_in,
  source_of,
  read_verdict,
  terminate_verdict,
  message_verdict,
  untagged_verdict,
  is_send,
  goes_on,
  invalidated,
  stag_named,
};
ghost use Rattle.rdmap.specs.Refusal.{no_write_right};
ghost use Rattle.ddp.specs.Untagged.{untagged_of};
ghost use Rattle.wire.specs.Wire.{pick, both};

use crate::read::{ReadRequest, request_of};
use crate::refusal::{
    INVALIDATE_FOREIGN, INVALIDATE_MISSING, MALFORMED, NO_READ_RIGHT, NO_WRITE_RIGHT,
    RDMAP_VERSION, SOURCE_BOUNDS, SOURCE_FOREIGN, SOURCE_MISSING, SOURCE_WRAP, UNEXPECTED_OPCODE,
};
use ddp::header::{TaggedHeader, UntaggedHeader};
use ddp::refusal::Refusal;
use ddp::tagged::judge_tagged;
use ddp::untagged::{Queue, judge_untagged};
use memory::buffer::Buffer;
use memory::window::{SpanFault, StagFault, Window, find_in, span_of};
use wire::number::get_be32;

// The STag that a Send invalidates, if it does, behind the slot of its window.
pub type Invalidate = Option<(usize, u32)>;

// What a segment that is not refused is judged to be: an empty Write; a Write to a place of the store; a part
// of a Send to a place, with its opcode and how many bytes are then taken; the last part, with the
// buffer's start and the message's length; a Read Request; a Terminate.
#[derive(Clone, Copy)]
pub enum Verdict {
    Nothing,
    Write(u64),
    SendMore {
        at: u64,
        opcode: u8,
        taken: u32,
    },
    SendLast {
        at: u64,
        opcode: u8,
        start: u32,
        len: u32,
        invalidate: Invalidate,
    },
    Read(ReadRequest),
    Terminate {
        layer: u8,
        etype: u8,
        code: u8,
    },
}

// Judges the control byte, whose opcode fits or not.
fn judge_control(control: u8, fits: bool) -> Result<(), Refusal>
    ensures { result ≡ controlled control fits }
{
    if control / 64 != 1 {
        return Err(RDMAP_VERSION);
    }
    if !fits {
        return Err(UNEXPECTED_OPCODE);
    }
    Ok(())
}

// Judges the right to write to a window.
fn judge_right(w: Window, place: u64) -> Result<Verdict, Refusal>
    ensures { result ≡ pick (may_write w) (Ok (Verdict.Write place)) (Err no_write_right) }
{
    if w.rights % 2 == 1 {
        Ok(Verdict::Write(place))
    } else {
        Err(NO_WRITE_RIGHT)
    }
}

// Judges a tagged segment with a payload of len bytes by w, the window in the slot that its STag names.
pub fn judge_tagged_segment(
    w: Window,
    domain: u64,
    h: TaggedHeader,
    len: u64,
) -> Result<Verdict, Refusal>
    ensures { result ≡ write_verdict w h.control (tagged_of w domain h.stag h.to len) }
{
    let place = judge_tagged(w, domain, h.stag, h.to, len)?;
    judge_control(h.control, h.control % 16 == 0)?;
    match place {
        Some(at) => judge_right(w, at),
        None => Ok(Verdict::Nothing),
    }
}

// The STag that an untagged segment names: a Read Request's source STag, else the header's.
pub fn stag_named(h: UntaggedHeader, payload: &[u8]) -> u32
    ensures { result ≡ stag_named h payload.now }
{
    if h.qn == 1 && payload.len() == 28 {
        get_be32(payload, 16)
    } else {
        h.stag
    }
}

// Whether an opcode fits a queue, where a Send with the opcode under is under way (0: none).
fn fits_queue(qn: u32, under: u8, opcode: u8) -> bool
    ensures { result ≡ fits_queue qn under opcode }
{
    match qn {
        0 => fits_send(under, opcode),
        1 => opcode == 1,
        _ => opcode == 7,
    }
}

// Whether an opcode is a Send's, and that of the Send under way.
fn fits_send(under: u8, opcode: u8) -> bool
    ensures { result ≡ both (is_send opcode) (goes_on under opcode) }
{
    is_send(u64::from(opcode)) && (under == 0 || under == opcode)
}

// Whether an opcode is a Send's. Any number may be asked, so that a caller's is judged before it is put in a field.
pub fn is_send(opcode: u64) -> bool
    ensures { result ≡ is_send opcode }
{
    3 <= opcode && opcode <= 6
}

// Whether a Send with this opcode invalidates an STag.
pub fn takes_stag(opcode: u64) -> bool
    ensures { result ≡ takes_stag opcode }
{
    opcode == 4 || opcode == 6
}

// Judges a Send's segment into the buffer b, whose payload is the message's bytes from start up to end.
#[tactic(auto, unfolding(crate::specs::Message::send_verdict))]
fn judge_send(
    w: Window,
    domain: u64,
    b: Buffer,
    h: UntaggedHeader,
    start: u32,
    end: u32,
) -> Result<Verdict, Refusal>
    ensures { result ≡ send_verdict w domain b h start end }
{
    let opcode = h.control % 16;
    let at = u64::from(b.start) + u64::from(start);
    if !h.last {
        return Ok(Verdict::SendMore {
            at,
            opcode,
            taken: end,
        });
    }
    if takes_stag(u64::from(opcode)) {
        return judge_invalidate(find_in(w, domain, h.stag), b, opcode, start, end, h.stag);
    }
    Ok(Verdict::SendLast {
        at,
        opcode,
        start: b.start,
        len: end,
        invalidate: None,
    })
}

// Judges the STag that the last segment of a Send invalidates.
fn judge_invalidate(
    found: Result<usize, StagFault>,
    b: Buffer,
    opcode: u8,
    start: u32,
    end: u32,
    stag: u32,
) -> Result<Verdict, Refusal>
    ensures { result ≡ invalidated b opcode start end stag found }
{
    match found {
        Err(StagFault::Foreign) => Err(INVALIDATE_FOREIGN),
        Err(StagFault::Missing) => Err(INVALIDATE_MISSING),
        Ok(slot) => Ok(Verdict::SendLast {
            at: u64::from(b.start) + u64::from(start),
            opcode,
            start: b.start,
            len: end,
            invalidate: Some((slot, stag)),
        }),
    }
}

// Judges the source of a read in its window.
fn judge_source_in(
    w: Window,
    read: ReadRequest,
    span: Result<u64, SpanFault>,
) -> Result<Verdict, Refusal>
    ensures { result ≡ source_in w read span }
{
    match span {
        Err(SpanFault::Wrap) => Err(SOURCE_WRAP),
        Err(SpanFault::Outside) => Err(SOURCE_BOUNDS),
        Ok(_) => {
            if 2 <= w.rights {
                Ok(Verdict::Read(read))
            } else {
                Err(NO_READ_RIGHT)
            }
        }
    }
}

// Judges the source of a read.
fn judge_source(
    w: Window,
    read: ReadRequest,
    found: Result<usize, StagFault>,
) -> Result<Verdict, Refusal>
    ensures { result ≡ source_of w read found }
{
    match found {
        Err(StagFault::Foreign) => Err(SOURCE_FOREIGN),
        Err(StagFault::Missing) => Err(SOURCE_MISSING),
        Ok(_) => judge_source_in(w, read, span_of(w, read.source_to, u64::from(read.size))),
    }
}

// Judges a Read Request; the source of an empty one is not looked at.
#[tactic(auto, unfolding(crate::specs::Message::read_verdict))]
fn judge_read(w: Window, domain: u64, last: bool, payload: &[u8]) -> Result<Verdict, Refusal>
    ensures { result ≡ read_verdict w domain last payload.now }
{
    if !last || payload.len() != 28 {
        return Err(MALFORMED);
    }
    let read = request_of(payload);
    if read.size == 0 {
        return Ok(Verdict::Read(read));
    }
    judge_source(w, read, find_in(w, domain, read.source_stag))
}

// Judges a Terminate.
#[tactic(auto, unfolding(crate::specs::Message::terminate_verdict))]
fn judge_terminate(last: bool, payload: &[u8]) -> Result<Verdict, Refusal>
    ensures { result ≡ terminate_verdict last payload.now }
{
    if !last || payload.len() < 4 {
        return Err(MALFORMED);
    }
    let b = payload[0];
    Ok(Verdict::Terminate {
        layer: b / 16,
        etype: b % 16,
        code: payload[1],
    })
}

// Judges an untagged segment by its queue; b is the buffer that is filled.
#[tactic(auto, unfolding(crate::specs::Message::message_verdict))]
fn judge_message(
    w: Window,
    domain: u64,
    b: Buffer,
    h: UntaggedHeader,
    start: u32,
    end: u32,
    payload: &[u8],
) -> Result<Verdict, Refusal>
    ensures { result ≡ message_verdict w domain b h start end payload.now }
{
    match h.qn {
        0 => judge_send(w, domain, b, h, start, end),
        1 => judge_read(w, domain, h.last, payload),
        _ => judge_terminate(h.last, payload),
    }
}

// Judges an untagged segment with its payload by w, the window in the slot that its STag names, and by
// q, what its queue expects. A Send with the opcode under is under way (0: none), and b is filled.
pub fn judge_untagged_segment(
    w: Window,
    domain: u64,
    q: Queue,
    under: u8,
    b: Buffer,
    h: UntaggedHeader,
    payload: &[u8],
) -> Result<Verdict, Refusal>
    ensures { result ≡ untagged_verdict w domain under b h payload.now (untagged_of q h.qn h.msn h.mo (length payload.now)) }
{
    // Kept: no `?` here. It takes the answer to pieces by way of the stack, which made a Send a third slower to receive.
    match judge_untagged(q, h.qn, h.msn, h.mo, payload.len() as u64) {
        Err(refusal) => Err(refusal),
        Ok((start, end)) => match judge_control(
            h.control,
            fits_queue(h.qn, under, h.control % 16),
        ) {
            Err(refusal) => Err(refusal),
            Ok(()) => judge_message(w, domain, b, h, start, end, payload),
        },
    }
}
