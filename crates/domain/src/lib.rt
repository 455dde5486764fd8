// A protection domain (the paper's branch): its part of the store, its sixteen windows and its four
// streams, by value, and what each call does with them: it answers a pair, what it says and the domain
// after it. A function here has no other domain's records in hand, and is lent no other domain's bytes.
//
// Read `Domain` first, then `receive`, which takes the first FPDU of some bytes for a stream: the crate
// `arrival` does it over what it needs of the domain, and the crate `overlap` says whether two writers
// would share a byte. The definitions, in specs/Domain.antt, are the paper's "A's book".
#![tactic(auto)]

ghost use Rattle.std.specs.Prelude.{◌≡◌, ◌<◌};
ghost use Rattle.domain.specs.Sharing.{domain_shares, lastly};
ghost use Rattle.domain.specs.Domain.{
  with_stream,
  new_domain,
  domain_opened,
  domain_closed,
  domain_posted,
  domain_taken,
  domain_state,
  domain_registered,
  domain_dropped,
  domain_received,
  domain_received_bytes,
  segment_count,
  meter_by,
  domain_ticked,
  domain_reading,
};
ghost use Rattle.ddp.specs.Segment.{segment_read};

use arrival::Answer;
use arrival::parts::{kill, receive_parts};
use ddp::segment::{SegmentRead, read_segment};
use memory::part::Part;
use memory::window::Window;
use meter::gauge::Reading;
use meter::{Meter, new_meter};
use overlap::{has_write, streams_share, windows_share};
use rdmap::read::ReadRequest;
use rdmap::stream::{Left, State, Stream, closed_stream};
use wire::refusal::LocalRefusal;

// What a domain holds.
#[repr(C)]
#[derive(Clone, Copy)]
pub struct Domain {
    pub part: Part,
    pub windows: [Window; 16],
    pub streams: [Stream; 4],
    pub meter: Meter,
}

// The domain with the stream of a slot exchanged.
fn with_stream(mut d: Domain, slot: usize, stream: Stream) -> Domain
    requires { slot < 4 }
    ensures { result ≡ with_stream d slot stream }
{
    d.streams[slot] = stream;
    d
}

// Whether some of the len bytes from place are a write window's or a waiting buffer's of the domain.
#[tactic(auto, unfolding(crate::specs::Sharing::domain_shares))]
pub fn domain_shares(d: Domain, place: u64, len: u64) -> bool
    ensures { result ≡ domain_shares d place len }
{
    windows_share(d.windows, place, len) || streams_share(d.streams, place, len)
}

// What a call answers that is refused with 19, asked last, where bytes are shared; d is the domain before it.
#[tactic(auto, unfolding(crate::specs::Sharing::lastly))]
fn unless_shared(
    shared: bool,
    d: Domain,
    done: (Result<(), LocalRefusal>, Domain),
) -> (Result<(), LocalRefusal>, Domain)
    ensures { result ≡ lastly shared d done }
{
    if shared && done.0.is_ok() {
        return (Err(LocalRefusal::SharedByte), d);
    }
    done
}

// Opens a stream with the CRC on or off.
#[tactic(auto, unfolding(crate::specs::Domain::domain_opened))]
pub fn open_stream(d: Domain, slot: u64, crc: bool) -> (Result<(), LocalRefusal>, Domain)
    ensures { result ≡ domain_opened d slot crc }
{
    if slot <= 3 {
        let at = slot as usize;
        let (outcome, stream) = d.streams[at].open(crc);
        return (outcome, with_stream(d, at, stream));
    }
    (Err(LocalRefusal::OutOfRange), d)
}

// Closes a stream.
#[tactic(auto, unfolding(crate::specs::Domain::domain_closed))]
pub fn close_stream(d: Domain, slot: u64) -> (Result<Left, LocalRefusal>, Domain)
    ensures { result ≡ domain_closed d slot }
{
    if slot <= 3 {
        let at = slot as usize;
        let (answer, stream) = d.streams[at].close();
        return (answer, with_stream(d, at, stream));
    }
    (Err(LocalRefusal::OutOfRange), d)
}

// Posts a buffer on a stream.
#[tactic(auto, unfolding(crate::specs::Domain::domain_posted))]
pub fn post(d: Domain, slot: u64, start: u64, len: u64) -> (Result<(), LocalRefusal>, Domain)
    ensures { result ≡ domain_posted d slot start len }
{
    if slot <= 3 {
        let at = slot as usize;
        let (outcome, stream) = d.streams[at].post(d.part, start, len);
        let next = (outcome, with_stream(d, at, stream));
        return unless_shared(domain_shares(d, start, len), d, next);
    }
    (Err(LocalRefusal::OutOfRange), d)
}

// Takes the oldest read that waits on a stream.
#[tactic(auto, unfolding(crate::specs::Domain::domain_taken))]
pub fn take(d: Domain, slot: u64) -> (Result<ReadRequest, LocalRefusal>, Domain)
    ensures { result ≡ domain_taken d slot }
{
    if slot <= 3 {
        let at = slot as usize;
        let (answer, stream) = d.streams[at].take();
        return (answer, with_stream(d, at, stream));
    }
    (Err(LocalRefusal::OutOfRange), d)
}

// The state of a stream, with what waits on it.
#[tactic(auto, unfolding(crate::specs::Domain::domain_state))]
pub fn stream_state(d: Domain, slot: u64) -> Result<State, LocalRefusal>
    ensures { result ≡ domain_state d slot }
{
    if slot <= 3 {
        return Ok(d.streams[slot as usize].state());
    }
    Err(LocalRefusal::OutOfRange)
}

// Registers a window.
#[tactic(auto, unfolding(crate::specs::Domain::domain_registered))]
pub fn register(
    d: Domain,
    slot: u64,
    key: u64,
    base: u64,
    len: u64,
    place: u64,
    rights: u64,
) -> (Result<(), LocalRefusal>, Domain)
    ensures { result ≡ domain_registered d slot key base len place rights }
{
    let (outcome, windows) = memory::window::register(
        d.windows, d.part, slot, key, base, len, place, rights,
    );
    let next = (outcome, Domain { windows, ..d });
    unless_shared(has_write(rights) && domain_shares(d, place, len), d, next)
}

// Drops a window.
#[tactic(auto, unfolding(crate::specs::Domain::domain_dropped))]
pub fn drop_window(d: Domain, slot: u64) -> (Result<(), LocalRefusal>, Domain)
    ensures { result ≡ domain_dropped d slot }
{
    let (outcome, windows) = memory::window::drop_window(d.windows, slot);
    (outcome, Domain { windows, ..d })
}

// How many payload bytes the first FPDU of bytes has, if it is a Write or a Send.
fn segment_count(crc: bool, bytes: &[u8]) -> usize
    ensures { result ≡ segment_count (segment_read crc bytes.now) }
{
    match read_segment(crc, bytes) {
        Ok(SegmentRead::Tagged { len, .. }) => len,
        Ok(SegmentRead::Untagged { header, len, .. }) => { if header.qn == 0 { len } else { 0 } }
        Ok(SegmentRead::Wait(_)) | Err(_) => 0,
    }
}

// The meter after an answer to a segment with so many of them: those of a taken one are counted.
fn meter_after(m: Meter, answer: Result<Answer, LocalRefusal>, placed: usize) -> Meter
    ensures { result ≡ meter_by answer placed m }
{
    match answer {
        Ok(Answer::Taken { .. }) => meter::count(m, placed),
        Ok(Answer::Wait(_) | Answer::Ended(_)) | Err(_) => m,
    }
}

// The domain after a tick: what was placed since the last one is a sample.
pub fn tick(d: Domain) -> Domain
    ensures { result ≡ domain_ticked d }
{
    Domain {
        meter: meter::tick(d.meter),
        ..d
    }
}

// What the domain's gauge reads as.
pub fn reading(d: Domain) -> Reading
    ensures { result ≡ domain_reading d }
{
    meter::reading(d.meter)
}

// Takes the first FPDU of bytes for a stream of the domain of this number, whose bytes are lent. What it
// places is counted.
#[tactic(auto, unfolding(crate::specs::Domain::domain_received, crate::specs::Domain::domain_received_bytes))]
pub fn receive(
    d: Domain,
    number: u64,
    store: &mut [u8],
    slot: u64,
    bytes: &[u8],
) -> (Result<Answer, LocalRefusal>, Domain)
    ensures { (result ≡ domain_received d number slot bytes.now) × (store.new ≡ domain_received_bytes d number slot bytes.now store.old) }
{
    if slot <= 3 {
        let at = slot as usize;
        let s = d.streams[at];
        let done = receive_parts(d.part, d.windows, s, number, store, bytes);
        let windows = kill(d.windows, done.invalidate);
        let count = segment_count(s.framing.crc, bytes);
        return (
            done.answer,
            Domain {
                windows,
                meter: meter_after(d.meter, done.answer, count),
                ..with_stream(d, at, done.stream)
            },
        );
    }
    (Err(LocalRefusal::OutOfRange), d)
}

// A domain at first: its part, no window live, no stream open.
pub fn new_domain(start: u32, end: u32) -> Domain
    ensures { result ≡ new_domain start end }
{
    let window = Window {
        live: false,
        key: 0,
        rights: 0,
        place: 0,
        len: 0,
        base: 0,
    };
    Domain {
        part: Part { start, end },
        windows: [window; 16],
        streams: [closed_stream(); 4],
        meter: new_meter(),
    }
}
