// Receive: the first FPDU of bytes for a stream. The phase and the framing are asked first; a segment is
// then judged, its payload is placed, and the groups that it changed are stored.
ghost use Rattle.std.specs.Prelude.{◌≡◌, ◌<◌, ◌/◌, ◌%◌, length, eqb};
ghost use Rattle.wire.specs.Wire.{pick};
ghost use Rattle.ddp.specs.Segment.{segment_read};
ghost use Rattle.arrival.specs.Parts.{parts_judged, parts_placed, parts_answered};
ghost use Rattle.domain.specs.Domain.{with_meter, meter_by};
ghost use Rattle.rnic.specs.Rnic.{domain_at, with_domain, received_owned, received_owned_store, rnic_received, rnic_received_store};
ghost use Rattle.block.specs.Device.{rnic_at};
ghost use Rattle.block.specs.Exchange.{stream_of};
ghost use Rattle.calls.specs.Words.{answer_words};
ghost use Rattle.device.specs.Lifted.{counted_of, receives_rnic_of, parts_receives, parts_receives_bytes};

use crate::apply::{apply, apply_tagged, end};
use crate::judge::judge_untagged;
use arrival::Answer;
use block::device::{load_len, load_part};
use block::framing::load_framing;
use block::meters::count_placed;
use block::phase::load_phase;
use block::window::load_window;
use calls::words::{answer_words, refused_words};
use ddp::segment::{SegmentRead, read_segment};
use memory::part::{Part, fits_in};
use memory::window::slot_named;
use rdmap::message::judge_tagged_segment;
use slots::place::StreamPlace;
use wire::refusal::LocalRefusal;

// How many payload bytes of an untagged segment are placed where it is taken: those of a Send.
fn placed_of(qn: u32, len: usize) -> usize
    ensures { result ≡ pick (eqb qn 0) len 0 }
{
    if qn == 0 { len } else { 0 }
}

// Counts payload bytes in a domain's meter, where their segment was taken.
fn count_taken(
    words: &mut [u64; 945],
    domain: usize,
    answer: Result<Answer, LocalRefusal>,
    placed: usize,
)
    requires { domain < 4 }
    ensures { rnic_at words.new ≡ with_domain (rnic_at words.old) domain (with_meter (domain_at (rnic_at words.old) domain) (meter_by answer placed (domain_at (rnic_at words.old) domain).meter)) }
{
    if let Ok(Answer::Taken { .. }) = answer {
        count_placed(words, domain, placed);
    }
}

// Takes the first FPDU of bytes for the open stream of a domain's slot, with the CRC on or off; the
// domain's bytes are lent, which start at the start of its part.
fn receive_first(
    words: &mut [u64; 945],
    at: StreamPlace,
    part: Part,
    crc: bool,
    store: &mut [u8],
    bytes: &[u8],
) -> Result<Answer, LocalRefusal>
    ensures { (result ≡ (parts_answered (stream_of (rnic_at words.old) at.domain at.slot) (parts_judged (domain_at (rnic_at words.old) at.domain).windows at.domain (stream_of (rnic_at words.old) at.domain at.slot) bytes.now (segment_read crc bytes.now))).answer) × (rnic_at words.new ≡ counted_of (rnic_at words.old) at.domain at.slot (segment_read crc bytes.now) (parts_answered (stream_of (rnic_at words.old) at.domain at.slot) (parts_judged (domain_at (rnic_at words.old) at.domain).windows at.domain (stream_of (rnic_at words.old) at.domain at.slot) bytes.now (segment_read crc bytes.now)))) × (store.new ≡ parts_placed part (domain_at (rnic_at words.old) at.domain).windows at.domain (stream_of (rnic_at words.old) at.domain at.slot) bytes.now store.old (segment_read crc bytes.now)) }
{
    match read_segment(crc, bytes) {
        Ok(SegmentRead::Wait(n)) => Ok(Answer::Wait(n)),
        Err(refusal) => end(words, at, refusal),
        Ok(
            SegmentRead::Tagged {
                total,
                header,
                start,
                len,
            },
        ) => {
            let end = start + len;
            let w = load_window(words, at.domain, slot_named(header.stag));
            let verdict = judge_tagged_segment(w, at.domain as u64, header, len as u64);
            let payload = &bytes[start..end];
            let done = apply_tagged(words, at, total, part.start, store, verdict, payload);
            count_taken(words, at.domain, done, len);
            done
        }
        Ok(
            SegmentRead::Untagged {
                total,
                header,
                start,
                len,
            },
        ) => {
            let end = start + len;
            let payload = &bytes[start..end];
            let verdict = judge_untagged(words, at, header, payload);
            let done = apply(words, at, total, part.start, store, verdict, payload);
            count_taken(words, at.domain, done, placed_of(header.qn, len));
            done
        }
    }
}

// The same, with the words of the answer. Receive and offers share it, so that it is a function of its
// own in the program: an answer that it wrote as words is not taken apart again.
pub(crate) fn first_words(
    words: &mut [u64; 945],
    at: StreamPlace,
    part: Part,
    crc: bool,
    store: &mut [u8],
    bytes: &[u8],
    answer: &mut [u64; 8],
)
    ensures { (answer.new ≡ answer_words (parts_answered (stream_of (rnic_at words.old) at.domain at.slot) (parts_judged (domain_at (rnic_at words.old) at.domain).windows at.domain (stream_of (rnic_at words.old) at.domain at.slot) bytes.now (segment_read crc bytes.now))).answer) × (rnic_at words.new ≡ counted_of (rnic_at words.old) at.domain at.slot (segment_read crc bytes.now) (parts_answered (stream_of (rnic_at words.old) at.domain at.slot) (parts_judged (domain_at (rnic_at words.old) at.domain).windows at.domain (stream_of (rnic_at words.old) at.domain at.slot) bytes.now (segment_read crc bytes.now)))) × (store.new ≡ parts_placed part (domain_at (rnic_at words.old) at.domain).windows at.domain (stream_of (rnic_at words.old) at.domain at.slot) bytes.now store.old (segment_read crc bytes.now)) }
{
    let done = receive_first(words, at, part, crc, store, bytes);
    *answer = answer_words(done);
}

// Takes the first FPDU of bytes for the stream of a domain's slot; the domain's bytes are lent. 16 while the
// stream holds bytes.
fn receive_slot(
    words: &mut [u64; 945],
    at: StreamPlace,
    part: Part,
    store: &mut [u8],
    bytes: &[u8],
    answer: &mut [u64; 8],
)
    ensures { (answer.new ≡ answer_words (parts_receives (domain_at (rnic_at words.old) at.domain).windows at.domain (stream_of (rnic_at words.old) at.domain at.slot) bytes.now).answer) × (rnic_at words.new ≡ receives_rnic_of (rnic_at words.old) at.domain at.slot bytes.now) × (store.new ≡ parts_receives_bytes part (domain_at (rnic_at words.old) at.domain).windows at.domain (stream_of (rnic_at words.old) at.domain at.slot) bytes.now store.old) }
{
    let phase = load_phase(words, at.domain, at.slot);
    if let Err(refusal) = phase.ready() {
        *answer = refused_words(refusal);
        return;
    }
    let framing = load_framing(words, at.domain, at.slot);
    if 0 < framing.held {
        *answer = refused_words(LocalRefusal::HoldsBytes);
        return;
    }
    first_words(words, at, part, framing.crc, store, &bytes[..], answer);
}

// Takes the first FPDU of bytes for a stream in range, with a store of the right length: the owner is
// lent its own part.
fn receive_owned(
    words: &mut [u64; 945],
    store: &mut [u8],
    stream: u64,
    at: StreamPlace,
    bytes: &[u8],
    answer: &mut [u64; 8],
)
    requires { (at.domain ≡ stream / 4) × (at.slot ≡ stream % 4) }
    ensures { (answer.new ≡ answer_words (received_owned (rnic_at words.old) (length store.old) stream bytes.now).0) × (rnic_at words.new ≡ (received_owned (rnic_at words.old) (length store.old) stream bytes.now).1) × (store.new ≡ received_owned_store (rnic_at words.old) stream bytes.now store.old) }
{
    let part = load_part(words, at.domain);
    if fits_in(part, store.len()) {
        let start = part.start as usize;
        let end = part.end as usize;
        receive_slot(words, at, part, &mut store[start..end], bytes, answer);
        return;
    }
    *answer = refused_words(LocalRefusal::BadPlace);
}

// Takes the first FPDU of bytes for a stream; the store is lent.
pub fn receive(
    words: &mut [u64; 945],
    store: &mut [u8],
    stream: u64,
    bytes: &[u8],
    answer: &mut [u64; 8],
)
    ensures { (answer.new ≡ answer_words (rnic_received (rnic_at words.old) (length store.old) stream bytes.now).0) × (rnic_at words.new ≡ (rnic_received (rnic_at words.old) (length store.old) stream bytes.now).1) × (store.new ≡ rnic_received_store (rnic_at words.old) stream bytes.now store.old) }
{
    let Some(at) = StreamPlace::of(stream) else {
        *answer = refused_words(LocalRefusal::OutOfRange);
        return;
    };
    let len = load_len(words);
    if store.len() == len as usize {
        receive_owned(words, store, stream, at, bytes, answer);
        return;
    }
    *answer = refused_words(LocalRefusal::OtherLength);
}
