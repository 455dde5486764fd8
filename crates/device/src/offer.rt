// Offers: a receive of bytes that TCP may have cut anywhere. A stream that holds nothing receives an FPDU
// where it lies; what completes none is kept in the stream's room, and what comes next is put behind it.
ghost use Rattle.std.specs.Prelude.{◌≡◌, ◌<◌, ◌/◌, ◌%◌, length, take, Ok};
ghost use Rattle.holding.specs.Pending.{room_bytes, gathered, held_now, room_after};
ghost use Rattle.rdmap.specs.Framing.{framing_holding};
ghost use Rattle.rdmap.specs.Stream.{with_framing};
ghost use Rattle.rdmap.specs.Phase.{readiness};
ghost use Rattle.rnic.specs.Offer.{rooms_bytes, offered_owned, offered_owned_store, offered_owned_rooms, rnic_offered, rnic_offer_answer, rnic_offered_store, rnic_offered_rooms, held_bytes, held_count};
ghost use Rattle.holding.specs.Offer.{offer_answer};
ghost use Rattle.block.specs.Device.{rnic_at};
ghost use Rattle.block.specs.Exchange.{stream_of, with_stream_of};
ghost use Rattle.calls.specs.Words.{offer_words};
ghost use Rattle.device.specs.Lifted.{offered_rnic_of, offered_bytes_of, offered_room_of, offer_answer_of};

use crate::receive::first_words;
use block::device::{load_len, load_part};
use block::framing::{load_framing, store_framing};
use block::phase::load_phase;
use calls::words::{kept_words, offered, refused_words};
use holding::gather::{Gathered, ROOM, ROOMS, gather, held_in, held_now};
use memory::part::{Part, fits_in};
use rdmap::framing::Framing;
use slots::place::StreamPlace;
use wire::refusal::LocalRefusal;

// Puts the bytes of an offer behind those that the stream of a domain's slot holds, and stores how many it
// holds then: none where they are enough.
fn hold(
    words: &mut [u64; 945],
    at: StreamPlace,
    framing: Framing,
    room: &mut [u8],
    bytes: &[u8],
) -> Gathered
    ensures { (result ≡ gathered (take framing.held room.old) bytes.now) × (rnic_at words.new ≡ with_stream_of (rnic_at words.old) at.domain at.slot (with_framing (stream_of (rnic_at words.old) at.domain at.slot) (framing_holding framing (held_now result)))) × (room.new ≡ room_after (take framing.held room.old) bytes.now room.old) }
{
    let g = gather(room, framing.held, bytes);
    let next = Framing {
        crc: framing.crc,
        held: held_now(g),
    };
    store_framing(words, at.domain, at.slot, next);
    g
}

// An offer to the open stream of a domain's slot that holds nothing: an FPDU is received where it lies, and
// bytes that complete none are kept.
fn offer_fresh(
    words: &mut [u64; 945],
    at: StreamPlace,
    part: Part,
    framing: Framing,
    store: &mut [u8],
    room: &mut [u8],
    bytes: &[u8],
    answer: &mut [u64; 8],
)
    requires { (readiness (stream_of (rnic_at words.old) at.domain at.slot).phase ≡ Ok tt) × (framing ≡ (stream_of (rnic_at words.old) at.domain at.slot).framing) × (framing.held ≡ 0) }
    ensures { (answer.new ≡ offer_words (offer_answer_of (rnic_at words.old) at.domain at.slot room.old bytes.now)) × (rnic_at words.new ≡ offered_rnic_of (rnic_at words.old) at.domain at.slot room.old bytes.now) × (store.new ≡ offered_bytes_of (rnic_at words.old) at.domain at.slot part room.old bytes.now store.old) × (room.new ≡ offered_room_of (rnic_at words.old) at.domain at.slot room.old bytes.now) }
{
    first_words(words, at, part, framing.crc, store, bytes, answer);
    let kind = answer[0];
    offered(answer, 0, bytes.len() as u64);
    if kind == 5 {
        hold(words, at, framing, room, bytes);
        return;
    }
}

// An offer to the open stream of a domain's slot that holds bytes: the FPDU is received from the room once
// enough of it is there.
fn offer_held(
    words: &mut [u64; 945],
    at: StreamPlace,
    part: Part,
    framing: Framing,
    store: &mut [u8],
    room: &mut [u8],
    bytes: &[u8],
    answer: &mut [u64; 8],
)
    requires { (readiness (stream_of (rnic_at words.old) at.domain at.slot).phase ≡ Ok tt) × (framing ≡ (stream_of (rnic_at words.old) at.domain at.slot).framing) × (0 < framing.held) × (length room.old ≡ room_bytes) }
    ensures { (answer.new ≡ offer_words (offer_answer_of (rnic_at words.old) at.domain at.slot room.old bytes.now)) × (rnic_at words.new ≡ offered_rnic_of (rnic_at words.old) at.domain at.slot room.old bytes.now) × (store.new ≡ offered_bytes_of (rnic_at words.old) at.domain at.slot part room.old bytes.now store.old) × (room.new ≡ offered_room_of (rnic_at words.old) at.domain at.slot room.old bytes.now) }
{
    let count = held_in(room, framing.held);
    match hold(words, at, framing, room, bytes) {
        Gathered::Short(_) => {
            *answer = kept_words(bytes.len() as u64);
        }
        Gathered::Enough(n) => {
            let pending = &room[..n];
            first_words(words, at, part, framing.crc, store, pending, answer);
            offered(answer, count as u64, bytes.len() as u64);
        }
    }
}

// An offer to the stream of a domain's slot; the domain's bytes and the stream's room are lent.
fn offer_slot(
    words: &mut [u64; 945],
    at: StreamPlace,
    part: Part,
    store: &mut [u8],
    room: &mut [u8],
    bytes: &[u8],
    answer: &mut [u64; 8],
)
    requires { length room.old ≡ room_bytes }
    ensures { (answer.new ≡ offer_words (offer_answer_of (rnic_at words.old) at.domain at.slot room.old bytes.now)) × (rnic_at words.new ≡ offered_rnic_of (rnic_at words.old) at.domain at.slot room.old bytes.now) × (store.new ≡ offered_bytes_of (rnic_at words.old) at.domain at.slot part room.old bytes.now store.old) × (room.new ≡ offered_room_of (rnic_at words.old) at.domain at.slot room.old bytes.now) }
{
    let phase = load_phase(words, at.domain, at.slot);
    if let Err(refusal) = phase.ready() {
        *answer = refused_words(refusal);
        return;
    }
    let framing = load_framing(words, at.domain, at.slot);
    if framing.held == 0 {
        offer_fresh(words, at, part, framing, store, room, bytes, answer);
        return;
    }
    offer_held(words, at, part, framing, store, room, bytes, answer);
}

// An offer to a stream in range, with slices of the right length: the owner is lent its own part, and the
// stream its own room.
fn offer_owned(
    words: &mut [u64; 945],
    store: &mut [u8],
    rooms: &mut [u8],
    stream: u64,
    at: StreamPlace,
    bytes: &[u8],
    answer: &mut [u64; 8],
)
    requires { (at.domain ≡ stream / 4) × (at.slot ≡ stream % 4) × (length rooms.old ≡ rooms_bytes) }
    ensures { (answer.new ≡ offer_words (offer_answer (length (held_bytes (rnic_at words.old) stream rooms.old)) (length bytes.now) (offered_owned (rnic_at words.old) (length store.old) stream rooms.old bytes.now).0)) × (rnic_at words.new ≡ (offered_owned (rnic_at words.old) (length store.old) stream rooms.old bytes.now).1) × (store.new ≡ offered_owned_store (rnic_at words.old) stream rooms.old bytes.now store.old) × (rooms.new ≡ offered_owned_rooms (rnic_at words.old) (length store.old) stream rooms.old bytes.now) }
{
    let part = load_part(words, at.domain);
    if fits_in(part, store.len()) {
        let start = part.start as usize;
        let end = part.end as usize;
        let from = stream as usize * ROOM;
        let upto = from + ROOM;
        offer_slot(
            words,
            at,
            part,
            &mut store[start..end],
            &mut rooms[from..upto],
            bytes,
            answer,
        );
        return;
    }
    *answer = refused_words(LocalRefusal::BadPlace);
}

// Offers bytes to a stream; the store and the rooms of all streams are lent.
pub fn offer(
    words: &mut [u64; 945],
    store: &mut [u8],
    rooms: &mut [u8],
    stream: u64,
    bytes: &[u8],
    answer: &mut [u64; 8],
)
    ensures { (answer.new ≡ offer_words (rnic_offer_answer (rnic_at words.old) (length store.old) stream rooms.old bytes.now)) × (rnic_at words.new ≡ (rnic_offered (rnic_at words.old) (length store.old) stream rooms.old bytes.now).1) × (store.new ≡ rnic_offered_store (rnic_at words.old) stream rooms.old bytes.now store.old) × (rooms.new ≡ rnic_offered_rooms (rnic_at words.old) (length store.old) stream rooms.old bytes.now) }
{
    let Some(at) = StreamPlace::of(stream) else {
        *answer = refused_words(LocalRefusal::OutOfRange);
        return;
    };
    let len = load_len(words);
    if store.len() == len as usize {
        if rooms.len() == ROOMS {
            offer_owned(words, store, rooms, stream, at, bytes, answer);
            return;
        }
        *answer = refused_words(LocalRefusal::OtherLength);
        return;
    }
    *answer = refused_words(LocalRefusal::OtherLength);
}

// How many bytes the stream of a domain's slot holds.
fn held_at(words: &[u64; 945], at: StreamPlace) -> u32
    ensures { result ≡ (stream_of (rnic_at words.now) at.domain at.slot).framing.held }
{
    let framing = load_framing(words, at.domain, at.slot);
    framing.held
}

// How many bytes a stream holds; 0 of a number that is no stream's.
pub fn held_count(words: &[u64; 945], stream: u64) -> u32
    ensures { result ≡ held_count (rnic_at words.now) stream }
{
    let Some(at) = StreamPlace::of(stream) else {
        return 0;
    };
    held_at(words, at)
}
