// The device for a C program, or one in Rust: it holds a device of its own as a block of 945 words and a
// store of any size up to 16 MiB, and calls the device by a call's number with nine numbers, or its
// receive by itself. A call reads what it needs of the block and writes back what changed (`slots`, `device`).
//
// Read `rnic_c_call` first. The crate `calls` has the numbers of the calls and the words of the answers;
// include/rnic.h has both for C. `message` has the writer for messages, `framing` the reader of FPDUs, and
// `startup` the frames that open a connection and what the two sides agree by them.
#![tactic(auto)]

ghost use Rattle.std.specs.Prelude.{◌≡◌, length};
ghost use Rattle.calls.specs.Call.{called, called_store, called_receive, called_offer};
ghost use Rattle.rnic.specs.Offer.{rnic_offered_store, rnic_offered_rooms, held_count};
ghost use Rattle.rnic.specs.Rnic.{rnic_received_store};
ghost use Rattle.block.specs.Device.{rnic_at};
ghost use Rattle.crc32c.specs.Crc.{crc_run, crc_of};
ghost use Rattle.crc32c.specs.Shift.{joined};

use calls::words::{
    close_words, count_words, outcome_words, reading_words, state_words, take_words, words,
};
use device::offer::{held_count, offer};
use device::opening::open;
use device::receive::receive;
use device::window::drop_window;
use slots::gauge::{reading, tick};
use slots::stream::{close_stream, open_stream, post, stream_state, take};
use slots::window::{live_count, lowest_free, register};

pub mod framing;
pub mod message;
pub mod startup;

// A call by its number on a device that the caller holds, with the call's nine numbers, its bytes and the
// store; the answer's words.
#[tactic(auto, unfolding(calls::specs::Call::called, calls::specs::Call::called_store, wire::specs::Refusal::refusal_number))]
#[unsafe(no_mangle)]
pub extern "C" fn rnic_c_call(
    device: &mut [u64; 945],
    store: &mut [u8],
    number: u64,
    a: &[u64; 9],
    bytes: &[u8],
    answer: &mut [u64; 8],
)
    ensures { (rnic_at device.new ≡ (called (rnic_at device.old) (length store.old) number a.now bytes.now).rnic) × (answer.new ≡ (called (rnic_at device.old) (length store.old) number a.now bytes.now).words) × (store.new ≡ called_store (rnic_at device.old) number a.now bytes.now store.old) }
{
    match number {
        0 => {
            *answer = outcome_words(open(
                device, a[0], a[1], a[2], a[3], a[4], a[5], a[6], a[7], a[8],
            ));
        }
        1 => {
            *answer = outcome_words(open_stream(device, a[0], a[1] != 0));
        }
        2 => {
            *answer = close_words(close_stream(device, a[0]));
        }
        3 => {
            *answer = outcome_words(register(device, a[0], a[1], a[2], a[3], a[4], a[5]));
        }
        4 => {
            *answer = outcome_words(drop_window(device, a[0]));
        }
        5 => {
            *answer = outcome_words(post(device, a[0], a[1], a[2]));
        }
        6 => {
            *answer = take_words(take(device, a[0]));
        }
        7 => {
            *answer = count_words(live_count(device, a[0]));
        }
        8 => {
            *answer = count_words(lowest_free(device, a[0]));
        }
        9 => rnic_c_receive(device, store, a[0], bytes, answer),
        10 => {
            *answer = outcome_words(tick(device, a[0]));
        }
        11 => {
            *answer = reading_words(reading(device, a[0]));
        }
        12 => {
            *answer = state_words(stream_state(device, a[0]));
        }
        _ => {
            *answer = words(0, 1, 0, 0, 0, 0);
        }
    }
}

// The device's receive by itself: what `rnic_c_call` does with the number 9.
#[unsafe(no_mangle)]
pub extern "C" fn rnic_c_receive(
    device: &mut [u64; 945],
    store: &mut [u8],
    stream: u64,
    bytes: &[u8],
    answer: &mut [u64; 8],
)
    ensures { (rnic_at device.new ≡ (called_receive (rnic_at device.old) (length store.old) stream bytes.now).rnic) × (answer.new ≡ (called_receive (rnic_at device.old) (length store.old) stream bytes.now).words) × (store.new ≡ rnic_received_store (rnic_at device.old) stream bytes.now store.old) }
{
    receive(device, store, stream, bytes, answer);
}

// An offer: a receive of bytes that may be cut anywhere. Of an FPDU that is not complete the stream keeps the
// bytes in its room, one of sixteen that the caller lends with the store.
#[unsafe(no_mangle)]
pub extern "C" fn rnic_c_offer(
    device: &mut [u64; 945],
    store: &mut [u8],
    rooms: &mut [u8],
    stream: u64,
    bytes: &[u8],
    answer: &mut [u64; 8],
)
    ensures { (rnic_at device.new ≡ (called_offer (rnic_at device.old) (length store.old) stream rooms.old bytes.now).rnic) × (answer.new ≡ (called_offer (rnic_at device.old) (length store.old) stream rooms.old bytes.now).words) × (store.new ≡ rnic_offered_store (rnic_at device.old) stream rooms.old bytes.now store.old) × (rooms.new ≡ rnic_offered_rooms (rnic_at device.old) (length store.old) stream rooms.old bytes.now) }
{
    offer(device, store, rooms, stream, bytes, answer);
}

// How many bytes of an FPDU that is not complete a stream holds; 0 of a number that is no stream's.
#[unsafe(no_mangle)]
pub extern "C" fn rnic_c_held(device: &[u64; 945], stream: u64) -> u32
    ensures { result ≡ held_count (rnic_at device.now) stream }
{
    held_count(device, stream)
}

// The CRC-32C of bytes, by which a program can write frames of its own.
#[unsafe(no_mangle)]
pub extern "C" fn rnic_c_crc32c(bytes: &[u8]) -> u32
    ensures { result ≡ crc_of bytes.now }
{
    crc32c::crc32c(bytes)
}

// The same in pieces: a running value carried on over a piece more. It starts at all ones, and the CRC
// is its inverse.
#[unsafe(no_mangle)]
pub extern "C" fn rnic_c_crc32c_update(running: u32, bytes: &[u8]) -> u32
    ensures { result ≡ crc_run running bytes.now }
{
    crc32c::update(running, bytes)
}

// The CRC-32C of two pieces together, from the CRC of each and the second's length.
#[unsafe(no_mangle)]
pub extern "C" fn rnic_c_crc32c_join(first: u32, second: u32, len: u32) -> u32
    ensures { result ≡ joined first second len }
{
    crc32c::shift::join(first, second, len)
}
