// The device's calls by number: a call's number, its nine numbers and its bytes go in, and eight words
// of an answer come out, so that a caller needs to know no type but the device's.
//
// Read `call` first, which does a call by value; `one` has a function for each call, and `words` the
// words of the answers. The numbers of the calls stand in specs/Call.antt, the words in
// specs/Words.antt.
#![tactic(auto)]

ghost use Rattle.std.specs.Prelude.{◌≡◌, length};
ghost use Rattle.calls.specs.Call.{called, called_store};

use crate::one::{
    call_close_stream, call_drop_window, call_live_count, call_lowest_free, call_open,
    call_open_stream, call_post, call_reading, call_receive, call_register, call_stream_state,
    call_take, call_tick,
};
use crate::words::words;
use rnic::Rnic;

mod one;
pub mod words;

// The call of a number, with its nine numbers, its bytes and the store; the answer's words.
#[tactic(auto, unfolding(crate::specs::Call::called, crate::specs::Call::called_store, wire::specs::Refusal::refusal_number))]
pub fn call(
    b: Rnic,
    store: &mut [u8],
    number: u64,
    a: &[u64; 9],
    bytes: &[u8],
    answer: &mut [u64; 8],
) -> Rnic
    ensures { (result ≡ (called b (length store.old) number a.now bytes.now).rnic) × (answer.new ≡ (called b (length store.old) number a.now bytes.now).words) × (store.new ≡ called_store b number a.now bytes.now store.old) }
{
    match number {
        0 => call_open(a, answer),
        1 => call_open_stream(b, a, answer),
        2 => call_close_stream(b, a, answer),
        3 => call_register(b, a, answer),
        4 => call_drop_window(b, a, answer),
        5 => call_post(b, a, answer),
        6 => call_take(b, a, answer),
        7 => {
            call_live_count(b, a, answer);
            b
        }
        8 => {
            call_lowest_free(b, a, answer);
            b
        }
        9 => call_receive(b, store, a[0], bytes, answer),
        10 => call_tick(b, a, answer),
        11 => {
            call_reading(b, a, answer);
            b
        }
        12 => {
            call_stream_state(b, a, answer);
            b
        }
        _ => {
            *answer = words(0, 1, 0, 0, 0, 0);
            b
        }
    }
}
