// A call of the device, made of a line's words, if it is one.
ghost use Rattle.std.specs.Prelude.{◌≡◌, length, Some};
ghost use Rattle.command.specs.Args.{words_of};
ghost use Rattle.request.specs.Request.{call_by, call_of, ask_numbers, ask_stream, lent_of, ask_receive, ask_call, SaysCall};

use crate::DeviceCall;
use crate::shape::shape_of;
use command::args::Words;
use script::hex::decode;

// The call of a number.
fn calling(number: u64, numbers: [u64; 9], size: usize, lent: u64, kept: u64) -> Option<DeviceCall>
    ensures { result ≡ Some (call_by number numbers size lent kept) }
{
    Some(DeviceCall {
        number,
        numbers,
        size,
        lent,
        kept,
    })
}

// A call whose words are numbers alone. LENGTH of `open` is what is lent from now on, also where the
// opening is refused.
#[tactic(auto, unfolding(crate::specs::Request::ask_numbers))]
fn ask_numbers(words: &Words, kept: u64) -> Option<DeviceCall>
    ensures { result ≡ call_of (ask_numbers kept (words_of words.now)) }
{
    let shape = shape_of(words.word(0))?;
    let numbers = words.numbers(shape.words)?;
    if shape.number == 0 {
        return calling(0, numbers, 0, 0, numbers[0]);
    }
    calling(shape.number, numbers, 0, 0, kept)
}

// `stream N on|off`: opens a stream.
#[tactic(auto, unfolding(crate::specs::Request::ask_stream))]
fn ask_stream(words: &Words, kept: u64) -> Option<DeviceCall>
    ensures { result ≡ call_of (ask_stream kept (words_of words.now)) }
{
    if words.len() != 3 {
        return None;
    }
    let stream = words.number(1)?;
    let crc = words.flag(2, b"off", b"on")?;
    let on = if crc { 1 } else { 0 };
    calling(1, [stream, on, 0, 0, 0, 0, 0, 0, 0], 0, 0, kept)
}

// How many bytes of the store a line lends: LENT where it has one, which the store must have, and else
// the LENGTH of the last `open`.
#[tactic(auto, unfolding(crate::specs::Request::lent_of))]
fn lent_of(kept: u64, words: &Words, size: usize) -> Option<u64>
    ensures { result ≡ lent_of kept size (words_of words.now) }
{
    match words.len() {
        3 => Some(kept),
        4 => words.number(3).filter(|lent| *lent <= size as u64),
        _ => None,
    }
}

// `receive N HEX` or `receive N HEX LENT`, over a store of some size. The bytes are put in the buffer.
#[tactic(auto, unfolding(crate::specs::Request::ask_receive))]
fn ask_receive(words: &Words, kept: u64, bytes: &mut [u8], size: usize) -> Option<DeviceCall>
    ensures { SaysCall (ask_receive kept (length bytes.old) size (words_of words.now)) result bytes.new }
{
    let lent = lent_of(kept, words, size)?;
    let stream = words.number(1)?;
    let count = decode(words.word(2), bytes)?;
    calling(9, [stream, 0, 0, 0, 0, 0, 0, 0, 0], count, lent, kept)
}

// The call that a line is, if it is one.
#[tactic(auto, using(script::proofs::Same::equal_same), unfolding(crate::specs::Request::ask_call, crate::specs::Request::ask_stream, crate::specs::Request::ask_numbers))]
pub(crate) fn ask_call(
    words: &Words,
    kept: u64,
    bytes: &mut [u8],
    size: usize,
) -> Option<DeviceCall>
    ensures { SaysCall (ask_call kept (length bytes.old) size (words_of words.now)) result bytes.new }
{
    let name = words.word(0);
    if name == b"receive".as_slice() {
        return ask_receive(words, kept, bytes, size);
    }
    if name == b"stream".as_slice() {
        return ask_stream(words, kept);
    }
    ask_numbers(words, kept)
}
