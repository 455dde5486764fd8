// Calls on a stream: opened, closed, a buffer posted, a read taken; and the question for its state.
ghost use Rattle.std.specs.Prelude.{◌≡◌};
ghost use Rattle.rdmap.specs.Stream.{opened, closed, taken_from, state_in};
ghost use Rattle.domain.specs.Domain.{domain_posted};
ghost use Rattle.rnic.specs.Rnic.{rnic_opened, rnic_closed, rnic_posted, rnic_taken, rnic_state, domain_at, with_domain};
ghost use Rattle.block.specs.Device.{rnic_at};
ghost use Rattle.block.specs.Exchange.{stream_of, with_stream_of};

use crate::place::StreamPlace;
use crate::sharing::domain_shares;
use block::device::load_part;
use block::phase::load_phase;
use block::reads::{load_reads, load_tally, store_reads};
use block::sends::{load_head, load_sends, store_sends};
use block::stream::store_stream;
use rdmap::read::ReadRequest;
use rdmap::stream::{Left, State, closed_stream, opened_stream, state_of};
use wire::refusal::LocalRefusal;

// Opens the stream of a domain's slot, if it is closed.
fn open_slot(words: &mut [u64; 945], at: StreamPlace, crc: bool) -> Result<(), LocalRefusal>
    ensures { (result ≡ (opened (stream_of (rnic_at words.old) at.domain at.slot) crc).0) × (rnic_at words.new ≡ with_stream_of (rnic_at words.old) at.domain at.slot (opened (stream_of (rnic_at words.old) at.domain at.slot) crc).1) }
{
    let phase = load_phase(words, at.domain, at.slot);
    if phase.is_closed() {
        store_stream(words, at.domain, at.slot, opened_stream(crc));
        return Ok(());
    }
    Err(LocalRefusal::AlreadyOpen)
}

// Opens a stream with the CRC on or off.
#[tactic(auto, unfolding(rnic::specs::Rnic::rnic_opened, domain::specs::Domain::domain_opened))]
pub fn open_stream(words: &mut [u64; 945], stream: u64, crc: bool) -> Result<(), LocalRefusal>
    ensures { (result ≡ (rnic_opened (rnic_at words.old) stream crc).0) × (rnic_at words.new ≡ (rnic_opened (rnic_at words.old) stream crc).1) }
{
    let at = StreamPlace::of(stream).ok_or(LocalRefusal::OutOfRange)?;
    open_slot(words, at, crc)
}

// Closes the stream of a domain's slot, if it is not closed, and counts what it leaves.
fn close_slot(words: &mut [u64; 945], at: StreamPlace) -> Result<Left, LocalRefusal>
    ensures { (result ≡ (closed (stream_of (rnic_at words.old) at.domain at.slot)).0) × (rnic_at words.new ≡ with_stream_of (rnic_at words.old) at.domain at.slot (closed (stream_of (rnic_at words.old) at.domain at.slot)).1) }
{
    let phase = load_phase(words, at.domain, at.slot);
    if phase.is_closed() {
        return Err(LocalRefusal::NotOpen);
    }
    let sends = load_head(words, at.domain, at.slot);
    let reads = load_tally(words, at.domain, at.slot);
    store_stream(words, at.domain, at.slot, closed_stream());
    Ok(Left {
        buffers: sends.count,
        reads: reads.count,
    })
}

// Closes a stream.
#[tactic(auto, unfolding(rnic::specs::Rnic::rnic_closed, domain::specs::Domain::domain_closed))]
pub fn close_stream(words: &mut [u64; 945], stream: u64) -> Result<Left, LocalRefusal>
    ensures { (result ≡ (rnic_closed (rnic_at words.old) stream).0) × (rnic_at words.new ≡ (rnic_closed (rnic_at words.old) stream).1) }
{
    let at = StreamPlace::of(stream).ok_or(LocalRefusal::OutOfRange)?;
    close_slot(words, at)
}

// Posts a buffer on the stream of a domain's slot. Whether it shares a byte with another is asked last.
fn post_slot(
    words: &mut [u64; 945],
    at: StreamPlace,
    start: u64,
    len: u64,
) -> Result<(), LocalRefusal>
    ensures { (result ≡ (domain_posted (domain_at (rnic_at words.old) at.domain) at.slot start len).0) × (rnic_at words.new ≡ with_domain (rnic_at words.old) at.domain (domain_posted (domain_at (rnic_at words.old) at.domain) at.slot start len).1) }
{
    let phase = load_phase(words, at.domain, at.slot);
    phase.ready()?;
    let part = load_part(words, at.domain);
    let sends = load_sends(words, at.domain, at.slot);
    let (outcome, sends) = sends.post(part, start, len);
    outcome?;
    if domain_shares(words, at.domain, start, len) {
        return Err(LocalRefusal::SharedByte);
    }
    store_sends(words, at.domain, at.slot, sends);
    Ok(())
}

// Posts a buffer on a stream.
#[tactic(auto, unfolding(rnic::specs::Rnic::rnic_posted))]
pub fn post(words: &mut [u64; 945], stream: u64, start: u64, len: u64) -> Result<(), LocalRefusal>
    ensures { (result ≡ (rnic_posted (rnic_at words.old) stream start len).0) × (rnic_at words.new ≡ (rnic_posted (rnic_at words.old) stream start len).1) }
{
    let at = StreamPlace::of(stream).ok_or(LocalRefusal::OutOfRange)?;
    post_slot(words, at, start, len)
}

// Takes the read that came first of those that wait on the stream of a domain's slot.
fn take_slot(words: &mut [u64; 945], at: StreamPlace) -> Result<ReadRequest, LocalRefusal>
    ensures { (result ≡ (taken_from (stream_of (rnic_at words.old) at.domain at.slot)).0) × (rnic_at words.new ≡ with_stream_of (rnic_at words.old) at.domain at.slot (taken_from (stream_of (rnic_at words.old) at.domain at.slot)).1) }
{
    let phase = load_phase(words, at.domain, at.slot);
    phase.ready()?;
    let tally = load_tally(words, at.domain, at.slot);
    if tally.count == 0 {
        return Err(LocalRefusal::NoReadWaits);
    }
    let reads = load_reads(words, at.domain, at.slot);
    let first = reads.first();
    store_reads(words, at.domain, at.slot, reads.popped());
    Ok(first)
}

// Takes the oldest read that waits on a stream.
#[tactic(auto, unfolding(rnic::specs::Rnic::rnic_taken, domain::specs::Domain::domain_taken))]
pub fn take(words: &mut [u64; 945], stream: u64) -> Result<ReadRequest, LocalRefusal>
    ensures { (result ≡ (rnic_taken (rnic_at words.old) stream).0) × (rnic_at words.new ≡ (rnic_taken (rnic_at words.old) stream).1) }
{
    let at = StreamPlace::of(stream).ok_or(LocalRefusal::OutOfRange)?;
    take_slot(words, at)
}

// The state of the stream of a domain's slot, with what waits on it.
fn slot_state(words: &[u64; 945], at: StreamPlace) -> State
    ensures { result ≡ state_in (stream_of (rnic_at words.now) at.domain at.slot) }
{
    let phase = load_phase(words, at.domain, at.slot);
    let sends = load_head(words, at.domain, at.slot);
    let reads = load_tally(words, at.domain, at.slot);
    state_of(phase, sends.count, reads.count)
}

// The state of a stream, with what waits on it.
#[tactic(auto, unfolding(rnic::specs::Rnic::rnic_state, domain::specs::Domain::domain_state))]
pub fn stream_state(words: &[u64; 945], stream: u64) -> Result<State, LocalRefusal>
    ensures { result ≡ rnic_state (rnic_at words.now) stream }
{
    let at = StreamPlace::of(stream).ok_or(LocalRefusal::OutOfRange)?;
    Ok(slot_state(words, at))
}
