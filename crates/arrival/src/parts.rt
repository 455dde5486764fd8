// Receive over what it needs of a domain: its part of the store, its windows and the one stream, by
// value. It answers that stream after it, and the window that a Send invalidated, so that a caller
// who holds a domain in place copies neither its other streams nor the whole of it.
//
// Read `PartsReceived` first, then `receive_parts`. The definitions are in specs/Parts.antt; a domain's
// receive is defined by them.
ghost use Rattle.std.specs.Prelude.{◌≡◌, length};
ghost use Rattle.arrival.specs.Parts.{
  sent_event,
  parts_taken,
  parts_applied,
  parts_judged,
  parts_placed,
  parts_unchanged,
  parts_received,
  parts_received_bytes,
  killed,
};
ghost use Rattle.memory.specs.Window.{window_at, slot_named};
ghost use Rattle.ddp.specs.Segment.{segment_read};
ghost use Rattle.ddp.specs.Untagged.{untagged_of};
ghost use Rattle.rdmap.specs.Message.{stag_named, queue_of, untagged_verdict};
ghost use Rattle.rdmap.specs.Sends.{current_buffer};

use crate::placing::place_by;
use crate::{Answer, Event};
use ddp::header::UntaggedHeader;
use ddp::refusal::Refusal;
use ddp::segment::{SegmentRead, read_segment};
use memory::part::Part;
use memory::window::{Window, slot_named};
use rdmap::message::{
    Invalidate, Verdict, judge_tagged_segment, judge_untagged_segment, stag_named,
};
use rdmap::stream::Stream;
use wire::refusal::LocalRefusal;

// What receive answers, the stream after it, and the window that is then dead.
#[derive(Drop)]
pub struct PartsReceived {
    pub answer: Result<Answer, LocalRefusal>,
    pub stream: Stream,
    pub invalidate: Invalidate,
}

// What the first FPDU is judged to be: how many bytes to wait for, or its total and the verdict.
#[derive(Drop)]
pub enum Judged {
    Wait(usize),
    Fpdu(usize, Result<Verdict, Refusal>),
}

// The event of a Send that is complete.
pub fn sent_event(start: u32, len: u32, opcode: u8, which: Invalidate) -> Option<Event>
    ensures { result ≡ sent_event start len opcode which }
{
    match which {
        None => Some(Event::Sent { start, len, opcode }),
        Some((_, stag)) => Some(Event::SentInvalidating {
            start,
            len,
            opcode,
            stag,
        }),
    }
}

// An FPDU is taken, with an event.
fn taken(s: Stream, total: usize, event: Option<Event>, which: Invalidate) -> PartsReceived
    ensures { result ≡ parts_taken s total event which }
{
    PartsReceived {
        answer: Ok(Answer::Taken { total, event }),
        stream: s,
        invalidate: which,
    }
}

// What a verdict makes of the stream, and the answer.
#[tactic(auto, unfolding(crate::specs::Parts::parts_applied))]
fn apply(s: Stream, total: usize, verdict: Result<Verdict, Refusal>) -> PartsReceived
    ensures { result ≡ parts_applied s total verdict }
{
    match verdict {
        Err(refusal) => PartsReceived {
            answer: Ok(Answer::Ended(refusal)),
            stream: s.end(refusal),
            invalidate: None,
        },
        Ok(Verdict::Nothing | Verdict::Write(_)) => taken(s, total, None, None),
        Ok(
            Verdict::SendMore {
                opcode,
                taken: n,
                ..
            },
        ) => taken(s.sending(opcode, n), total, None, None),
        Ok(
            Verdict::SendLast {
                opcode,
                start,
                len,
                invalidate: which,
                ..
            },
        ) => {
            let event = sent_event(start, len, opcode, which);
            taken(s.sent(), total, event, which)
        }
        Ok(Verdict::Read(read)) => taken(s.queued(read), total, None, None),
        Ok(Verdict::Terminate { layer, etype, code }) => {
            let event = Event::Terminated { layer, etype, code };
            taken(s.terminated(), total, Some(event), None)
        }
    }
}

// Judges an untagged segment with its payload by the window in the slot that its STag names.
fn judge_untagged(
    windows: [Window; 16],
    number: u64,
    s: Stream,
    h: UntaggedHeader,
    payload: &[u8],
) -> Result<Verdict, Refusal>
    ensures { result ≡ untagged_verdict (window_at windows (slot_named (stag_named h payload.now))) number s.sends.opcode (current_buffer s.sends) h payload.now (untagged_of (queue_of s h.qn) h.qn h.msn h.mo (length payload.now)) }
{
    let w = windows[slot_named(stag_named(h, payload))];
    let sends = s.sends;
    let q = s.queue_of(h.qn);
    let b = sends.current();
    judge_untagged_segment(w, number, q, sends.opcode, b, h, payload)
}

// Judges the first FPDU of bytes for an open stream of the domain of this number, and places its
// payload in the domain's bytes, which are lent.
#[tactic(auto, using(crate::proofs::Inside::lent))]
fn judge_first(
    part: Part,
    windows: [Window; 16],
    s: Stream,
    number: u64,
    store: &mut [u8],
    bytes: &[u8],
) -> Judged
    ensures { (result ≡ parts_judged windows number s bytes.now (segment_read s.framing.crc bytes.now)) × (store.new ≡ parts_placed part windows number s bytes.now store.old (segment_read s.framing.crc bytes.now)) }
{
    let framing = s.framing;
    match read_segment(framing.crc, bytes) {
        Ok(SegmentRead::Wait(n)) => Judged::Wait(n),
        Err(refusal) => Judged::Fpdu(0, Err(refusal)),
        Ok(
            SegmentRead::Tagged {
                total,
                header,
                start,
                len,
            },
        ) => {
            let payload = &bytes[start..start + len];
            let w = windows[slot_named(header.stag)];
            let verdict = judge_tagged_segment(w, number, header, len as u64);
            place_by(store, part.start, verdict, payload);
            Judged::Fpdu(total, verdict)
        }
        Ok(
            SegmentRead::Untagged {
                total,
                header,
                start,
                len,
            },
        ) => {
            let payload = &bytes[start..start + len];
            let verdict = judge_untagged(windows, number, s, header, payload);
            place_by(store, part.start, verdict, payload);
            Judged::Fpdu(total, verdict)
        }
    }
}

// The stream as it was, with an answer.
fn unchanged(s: Stream, answer: Result<Answer, LocalRefusal>) -> PartsReceived
    ensures { result ≡ parts_unchanged s answer }
{
    PartsReceived {
        answer,
        stream: s,
        invalidate: None,
    }
}

// Takes the first FPDU of bytes for a stream of the domain of this number, of which these are the
// part, the windows and the stream; the domain's bytes are lent.
#[tactic(auto, unfolding(crate::specs::Parts::parts_received, crate::specs::Parts::parts_received_bytes))]
pub fn receive_parts(
    part: Part,
    windows: [Window; 16],
    s: Stream,
    number: u64,
    store: &mut [u8],
    bytes: &[u8],
) -> PartsReceived
    ensures { (result ≡ parts_received windows number s bytes.now) × (store.new ≡ parts_received_bytes part windows number s bytes.now store.old) }
{
    let phase = s.phase;
    match phase.ready() {
        Ok(()) => match judge_first(part, windows, s, number, store, bytes) {
            Judged::Wait(n) => unchanged(s, Ok(Answer::Wait(n))),
            Judged::Fpdu(total, verdict) => apply(s, total, verdict),
        },
        Err(refusal) => unchanged(s, Err(refusal)),
    }
}

// The windows with the one dead whose STag a Send invalidated.
pub fn kill(windows: [Window; 16], which: Invalidate) -> [Window; 16]
    ensures { result ≡ killed which windows }
{
    match which {
        None => windows,
        Some((slot, _)) => {
            let (_, after) = memory::window::drop_window(windows, slot as u64);
            after
        }
    }
}
