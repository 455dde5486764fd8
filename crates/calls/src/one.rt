// One function for each call of the device, of the call's nine numbers: the call by value, and its
// answer written as words. A call takes the first of the numbers that it needs, and looks at no other.
ghost use Rattle.std.specs.Prelude.{◌≡◌, length};
ghost use Rattle.calls.specs.Words.{count_words, reading_words, state_words};
ghost use Rattle.calls.specs.Call.{
  arg,
  called_open,
  called_open_stream,
  called_close_stream,
  called_register,
  called_drop_window,
  called_post,
  called_take,
  called_receive,
  called_tick,
};
ghost use Rattle.rnic.specs.Rnic.{rnic_live, rnic_free, rnic_reading, rnic_state, rnic_received_store};

use crate::words::{
    answer_words, close_words, count_words, outcome_words, reading_words, state_words, take_words,
};
use rnic::Rnic;

// Opens a device; the one before is gone.
pub(crate) fn call_open(a: &[u64; 9], answer: &mut [u64; 8]) -> Rnic
    ensures { (result ≡ (called_open a.now).rnic) × (answer.new ≡ (called_open a.now).words) }
{
    let (outcome, rnic) = rnic::open(a[0], a[1], a[2], a[3], a[4], a[5], a[6], a[7], a[8]);
    *answer = outcome_words(outcome);
    rnic
}

// Opens a stream; the CRC is off where the second number is 0.
pub(crate) fn call_open_stream(b: Rnic, a: &[u64; 9], answer: &mut [u64; 8]) -> Rnic
    ensures { (result ≡ (called_open_stream b a.now).rnic) × (answer.new ≡ (called_open_stream b a.now).words) }
{
    let (outcome, rnic) = rnic::open_stream(b, a[0], a[1] != 0);
    *answer = outcome_words(outcome);
    rnic
}

// Closes a stream.
pub(crate) fn call_close_stream(b: Rnic, a: &[u64; 9], answer: &mut [u64; 8]) -> Rnic
    ensures { (result ≡ (called_close_stream b a.now).rnic) × (answer.new ≡ (called_close_stream b a.now).words) }
{
    let (told, rnic) = rnic::close_stream(b, a[0]);
    *answer = close_words(told);
    rnic
}

// Registers a window.
pub(crate) fn call_register(b: Rnic, a: &[u64; 9], answer: &mut [u64; 8]) -> Rnic
    ensures { (result ≡ (called_register b a.now).rnic) × (answer.new ≡ (called_register b a.now).words) }
{
    let (outcome, rnic) = rnic::register(b, a[0], a[1], a[2], a[3], a[4], a[5]);
    *answer = outcome_words(outcome);
    rnic
}

// Drops a window.
pub(crate) fn call_drop_window(b: Rnic, a: &[u64; 9], answer: &mut [u64; 8]) -> Rnic
    ensures { (result ≡ (called_drop_window b a.now).rnic) × (answer.new ≡ (called_drop_window b a.now).words) }
{
    let (outcome, rnic) = rnic::drop_window(b, a[0]);
    *answer = outcome_words(outcome);
    rnic
}

// Posts a buffer on a stream.
pub(crate) fn call_post(b: Rnic, a: &[u64; 9], answer: &mut [u64; 8]) -> Rnic
    ensures { (result ≡ (called_post b a.now).rnic) × (answer.new ≡ (called_post b a.now).words) }
{
    let (outcome, rnic) = rnic::post(b, a[0], a[1], a[2]);
    *answer = outcome_words(outcome);
    rnic
}

// Takes the oldest read that waits on a stream.
pub(crate) fn call_take(b: Rnic, a: &[u64; 9], answer: &mut [u64; 8]) -> Rnic
    ensures { (result ≡ (called_take b a.now).rnic) × (answer.new ≡ (called_take b a.now).words) }
{
    let (told, rnic) = rnic::take(b, a[0]);
    *answer = take_words(told);
    rnic
}

// How many windows of a domain are live.
pub(crate) fn call_live_count(b: Rnic, a: &[u64; 9], answer: &mut [u64; 8])
    ensures { answer.new ≡ count_words (rnic_live b (arg a.now 0)) }
{
    *answer = count_words(rnic::live_count(b, a[0]));
}

// Which of a domain's slots is the lowest free.
pub(crate) fn call_lowest_free(b: Rnic, a: &[u64; 9], answer: &mut [u64; 8])
    ensures { answer.new ≡ count_words (rnic_free b (arg a.now 0)) }
{
    *answer = count_words(rnic::lowest_free(b, a[0]));
}

// Takes the first FPDU of bytes for a stream; the store is lent.
pub(crate) fn call_receive(
    b: Rnic,
    store: &mut [u8],
    stream: u64,
    bytes: &[u8],
    answer: &mut [u64; 8],
) -> Rnic
    ensures { (result ≡ (called_receive b (length store.old) stream bytes.now).rnic) × (answer.new ≡ (called_receive b (length store.old) stream bytes.now).words) × (store.new ≡ rnic_received_store b stream bytes.now store.old) }
{
    let (told, rnic) = rnic::receive(b, store, stream, bytes);
    *answer = answer_words(told);
    rnic
}

// Ticks a domain.
pub(crate) fn call_tick(b: Rnic, a: &[u64; 9], answer: &mut [u64; 8]) -> Rnic
    ensures { (result ≡ (called_tick b a.now).rnic) × (answer.new ≡ (called_tick b a.now).words) }
{
    let (outcome, rnic) = rnic::tick(b, a[0]);
    *answer = outcome_words(outcome);
    rnic
}

// What a domain's gauge reads as.
pub(crate) fn call_reading(b: Rnic, a: &[u64; 9], answer: &mut [u64; 8])
    ensures { answer.new ≡ reading_words (rnic_reading b (arg a.now 0)) }
{
    *answer = reading_words(rnic::reading(b, a[0]));
}

// The state of a stream.
pub(crate) fn call_stream_state(b: Rnic, a: &[u64; 9], answer: &mut [u64; 8])
    ensures { answer.new ≡ state_words (rnic_state b (arg a.now 0)) }
{
    *answer = state_words(rnic::stream_state(b, a[0]));
}
