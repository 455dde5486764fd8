// The commands `message` and `segment` of a script: a message is begun, and its segments are written one
// after the other. The message begun last is nine words and its bytes, which the program holds and lends.
//
// Read `Order` first, then `run`. A line's words are in the crate `command`, the writer in `sender`.
#![tactic(auto)]

ghost use Rattle.std.specs.Prelude.{◌≡◌, ◌≤◌, min, leb, length, take, IfSome};
ghost use Rattle.wire.specs.Wire.{pick};
ghost use Rattle.command.specs.Args.{line_words, word_of, words_of};
ghost use Rattle.sender.specs.Message.{next_of};
ghost use Rattle.sender.specs.Words.{message_at, begun_words, words_next};
ghost use Rattle.sending.specs.Sending.{
  is_order,
  ask_write,
  ask_send,
  ask_begin,
  hex_word,
  ask_segment,
  order_of,
  bytes_of,
  held_begun,
  message_after,
  held_after,
  no_message,
};

use command::answer::{bad, refused, wrote};
use command::args::{Words, room, split};
use script::hex::decode;
use script::text::Text;
use sender::words::{begin_in, load, next_in};
use sender::{Message, begin_send, begin_write};
use wire::copy::copy;
use wire::refusal::LocalRefusal;

// What a line asks: that a message is begun, or may not be; or the next segment, in so much room.
#[derive(Drop)]
pub enum Order {
    Begin(Result<Message, LocalRefusal>),
    Segment(u64),
}

// The same with how many bytes the message has.
#[derive(Drop)]
pub struct Ordered {
    pub order: Order,
    pub size: usize,
}

// The words before any message: there is no segment of it.
pub fn no_message() -> [u64; 9]
    ensures { result ≡ no_message }
{
    [0, 0, 0, 0, 0, 0, 0, 0, 1]
}

// Whether a line of that first word is one of these commands.
#[tactic(auto, using(script::proofs::Same::equal_same), unfolding(crate::specs::Sending::is_order))]
fn is_order(name: &[u8]) -> bool
    ensures { result ≡ is_order name.now }
{
    name == b"message".as_slice() || name == b"segment".as_slice()
}

// Whether a line is one of these commands, good or bad.
pub fn is_sending(line: &[u8]) -> bool
    ensures { result ≡ is_order (word_of (line_words line.now) 0) }
{
    is_order(split(line).word(0))
}

// `message write LIMIT STAG TO HEX`: a Write of so many bytes.
#[tactic(auto, unfolding(crate::specs::Sending::ask_write, crate::specs::Sending::write_of))]
fn ask_write(words: &Words, size: usize) -> Option<Order>
    ensures { result ≡ ask_write (words_of words.now) size }
{
    if words.len() != 6 {
        return None;
    }
    let limit = words.number(2)?;
    let stag = words.number(3)?;
    let to = words.number(4)?;
    Some(Order::Begin(begin_write(limit, stag, to, size as u64)))
}

// `message send LIMIT OPCODE MSN STAG HEX`: a Send of so many bytes.
#[tactic(auto, unfolding(crate::specs::Sending::ask_send, crate::specs::Sending::send_of))]
fn ask_send(words: &Words, size: usize) -> Option<Order>
    ensures { result ≡ ask_send (words_of words.now) size }
{
    if words.len() != 7 {
        return None;
    }
    let limit = words.number(2)?;
    let opcode = words.number(3)?;
    let msn = words.number(4)?;
    let stag = words.number(5)?;
    Some(Order::Begin(begin_send(limit, opcode, msn, stag, size as u64)))
}

// Either of them.
#[tactic(auto, using(script::proofs::Same::equal_same), unfolding(crate::specs::Sending::ask_begin))]
fn ask_begin(words: &Words, size: usize) -> Option<Order>
    ensures { result ≡ ask_begin (words_of words.now) size }
{
    let kind = words.word(1);
    if kind == b"write".as_slice() {
        return ask_write(words, size);
    }
    if kind == b"send".as_slice() {
        return ask_send(words, size);
    }
    None
}

// The word of hex of either.
#[tactic(auto, using(script::proofs::Same::equal_same), unfolding(crate::specs::Sending::hex_word))]
fn hex_word<'a>(words: &Words<'a>) -> &'a [u8]
    ensures { result.now ≡ hex_word (words_of words.now) }
{
    if words.word(1) == b"write".as_slice() {
        return words.word(5);
    }
    words.word(6)
}

// What a line asks; the bytes that its word of hex stands for are put at the start of bytes.
#[tactic(auto, using(script::proofs::Same::equal_same), unfolding(crate::specs::Sending::order_of, crate::specs::Sending::bytes_of))]
fn ask_order(words: &Words, bytes: &mut [u8]) -> Option<Ordered>
    ensures asked { result ≡ order_of (words_of words.now) (length bytes.old) }
    ensures bytes { IfSome result (λ o. take o.size bytes.new ≡ bytes_of (words_of words.now) (length bytes.old)) }
    ensures within { IfSome result (λ o. o.size ≤ length bytes.new) }
{
    if words.word(0) == b"message".as_slice() {
        let size = decode(hex_word(words), bytes)?;
        let order = ask_begin(words, size)?;
        return Some(Ordered { order, size });
    }
    let order = ask_segment(words)?;
    Some(Ordered { order, size: 0 })
}

// `segment ROOM`.
#[tactic(auto, unfolding(crate::specs::Sending::ask_segment))]
fn ask_segment(words: &Words) -> Option<Order>
    ensures { result ≡ ask_segment (words_of words.now) }
{
    if words.len() != 2 {
        return None;
    }
    let room = words.number(1)?;
    Some(Order::Segment(room))
}

// `done`, or `refused NUMBER`.
fn tell_begun<const N: usize>(number: u32, text: &mut Text<N>) {
    if number == 0 {
        text.put(b"done");
    } else {
        refused((number % 256) as u8, text);
    }
}

// Keeps the bytes of a message that was begun.
fn hold(begun: Result<Message, LocalRefusal>, held: &mut [u8], bytes: &[u8])
    requires { length bytes.now ≤ length held.old }
    ensures { held.new ≡ held_begun held.old begun bytes.now }
{
    if begun.is_ok() {
        copy(held, 0, bytes);
    }
}

// Begins a message of these bytes, if they fit; a refused one leaves the one before.
fn begin<const N: usize>(
    begun: Result<Message, LocalRefusal>,
    message: &mut [u64; 9],
    held: &mut [u8],
    bytes: &[u8],
    text: &mut Text<N>,
)
    ensures message { message.new ≡ pick (leb (length bytes.now) (length held.old)) (begun_words message.old begun) message.old }
    ensures held { held.new ≡ pick (leb (length bytes.now) (length held.old)) (held_begun held.old begun bytes.now) held.old }
{
    if held.len() < bytes.len() {
        return bad(text);
    }
    hold(begun, held, bytes);
    let number = begin_in(message, begun);
    tell_begun(number, text)
}

// `wrote N HEX`, `end` or `refused NUMBER`, of the words of an answer and the bytes that were written.
fn tell_segment<const N: usize>(answer: [u64; 2], frame: &[u8], text: &mut Text<N>) {
    match answer[0] {
        0 => refused((answer[1] % 256) as u8, text),
        1 => {
            let size = room(answer[1], frame.len());
            wrote(&frame[..size], text)
        }
        _ => text.put(b"end"),
    }
}

// Writes the next segment into a part of frame of the room asked for.
fn segment<const N: usize>(
    asked: u64,
    message: &mut [u64; 9],
    held: &[u8],
    frame: &mut [u8],
    text: &mut Text<N>,
)
    ensures message { message.new ≡ words_next message.old (next_of (message_at message.old) (min (message_at message.old).len (length held.now)) (min asked (length frame.old))) }
{
    let m = load(message);
    let size = room(m.len as u64, held.len());
    let most = room(asked, frame.len());
    let mut answer = [0u64; 2];
    next_in(message, &held[..size], &mut frame[..most], &mut answer);
    tell_segment(answer, frame, text)
}

// Runs a line on the message begun last: its words, and its bytes in front of held. The text alone is not
// said.
#[tactic(auto, unfolding(crate::specs::Sending::message_after, crate::specs::Sending::held_after))]
pub fn run<const N: usize>(
    line: &[u8],
    message: &mut [u64; 9],
    held: &mut [u8],
    bytes: &mut [u8],
    frame: &mut [u8],
    text: &mut Text<N>,
)
    ensures message { message.new ≡ message_after message.old (length held.old) (length bytes.old) (length frame.old) line.now }
    ensures held { held.new ≡ held_after held.old (length bytes.old) line.now }
{
    let words = split(line);
    let Some(asked) = ask_order(&words, bytes) else {
        return bad(text);
    };
    let size = asked.size;
    match asked.order {
        Order::Begin(begun) => begin(begun, message, held, &bytes[..size], text),
        Order::Segment(most) => segment(most, message, held, frame, text),
    }
}
