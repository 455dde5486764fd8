// What a line of a script asks: it is answered at once, as the commands on frames, on CRCs, on the
// startup of RFC 6581 and on the store's bytes are, or it is a call of the device, by its number. The
// device is not here.
//
// Read `DeviceCall` first, then `ask`. `call` makes a call of a line's words, `shape` says which call a
// name stands for, `store` shows and sets the store's bytes. A line's words, and the commands on
// frames, are in the crate `command`, those on CRCs in `sums`, those on the startup in `starting`.
#![tactic(auto)]

ghost use Rattle.std.specs.Prelude.{true, ◌≡◌, length, get_or, eqb, IfSome};
ghost use Rattle.command.specs.Args.{words_of};
ghost use Rattle.request.specs.Request.{ask_device, request_of, is_silent, Says};

use crate::call::ask_call;
use command::answer::bad;
use command::args::{Words, split};
use command::frames::{is_frame, run};
use script::text::Text;
use starting::is_start;
use sums::is_sum;

mod call;
mod shape;
mod store;

// A call of the device: the one of that number of the crate `calls` with these numbers, the first `size`
// of the buffer's bytes and the first `lent` of the store's; `kept` is what is lent from then on by a line
// that does not say.
#[derive(Clone, Copy)]
pub struct DeviceCall {
    pub number: u64,
    pub numbers: [u64; 9],
    pub size: usize,
    pub lent: u64,
    pub kept: u64,
}

// Whether a line starts with `#`.
fn is_comment(line: &[u8]) -> bool
    ensures { result ≡ eqb (get_or line.now 0 0) 35 }
{
    line.len() > 0 && line[0] == b'#'
}

// A command on the store's bytes, which is answered, or a call; a line that is neither is `bad`.
#[tactic(auto, using(script::proofs::Same::equal_same, crate::proofs::Asking::says_call), unfolding(crate::specs::Request::ask_device))]
fn ask_device<const N: usize>(
    words: &Words,
    kept: u64,
    bytes: &mut [u8],
    store: &mut [u8],
    text: &mut Text<N>,
) -> Option<DeviceCall>
    ensures asks { Says (ask_device kept (length bytes.old) (length store.old) (words_of words.now)) result bytes.new store.old store.new }
    ensures call { IfSome result (λ c. text.new ≡ text.old) }
{
    let name = words.word(0);
    if name == b"bytes".as_slice() {
        store::bytes(words.numbers(3), store, text);
        return None;
    }
    if name == b"fill".as_slice() {
        store::fill(words, bytes, store, text);
        return None;
    }
    let call = ask_call(words, kept, bytes, store.len());
    if call.is_none() {
        bad(text);
    }
    call
}

// The call that a line asks for, where `kept` bytes are lent by one that does not say; it leaves the text as it
// was. Any other line is answered: a comment, and a line without words, by nothing. What an answer says is not
// said here.
#[tactic(auto, unfolding(crate::specs::Request::request_of, crate::specs::Request::is_silent))]
pub fn ask<const N: usize>(
    line: &[u8],
    kept: u64,
    bytes: &mut [u8],
    frame: &mut [u8],
    store: &mut [u8],
    text: &mut Text<N>,
) -> Option<DeviceCall>
    ensures silent { is_silent line.now ≡ true → text.new ≡ text.old }
    ensures call { IfSome result (λ c. text.new ≡ text.old) }
    ensures asks { Says (request_of kept (length bytes.old) (length store.old) line.now) result bytes.new store.old store.new }
{
    if is_comment(line) {
        return None;
    }
    let words = split(line);
    if words.len() == 0 {
        return None;
    }
    let name = words.word(0);
    if is_frame(name) {
        run(&words, bytes, frame, text);
        return None;
    }
    if is_sum(name) {
        sums::run(&words, bytes, text);
        return None;
    }
    if is_start(name) {
        starting::run(&words, bytes, frame, text);
        return None;
    }
    ask_device(&words, kept, bytes, store, text)
}
