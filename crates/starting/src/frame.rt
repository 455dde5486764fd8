// The commands `startup2` and `unstartup2`: what a line asks, what is answered to it, and the text of the
// answer.
ghost use Rattle.std.specs.Prelude.{◌≡◌, ◌++◌, ◌≤◌, min, length, take, IfSome};
ghost use Rattle.startup2.specs.Frame.{frame_written, frame_out};
ghost use Rattle.command.specs.Args.{words_of};
ghost use Rattle.command.specs.Frames.{in_room, past_room};
ghost use Rattle.starting.specs.Starting.{
  write_asked,
  startup2_asked,
  unstartup2_asked,
  command_asked,
  hex_place,
  hex_word,
  start_asked,
  size_asked,
  start_bytes,
  start_answer,
  start_after,
};

use crate::said::{terms_said, then_terms};
use command::answer::{bad, refused, startup_read, then_hex, then_number, wait};
use command::args::{Words, room};
use command::frames::{part, tell_written};
use script::hex::decode;
use script::text::Text;
use startup2::frame::{read_frame, write_frame};
use startup2::{Form, FrameRead, Terms};
use wire::refusal::LocalRefusal;

// A command on startup frames, without the bytes that it is on.
#[derive(Clone, Copy)]
pub enum StartCommand {
    Write {
        reply: bool,
        crc: bool,
        declined: bool,
        form: Form,
        room: u64,
    },
    Read {
        reply: bool,
    },
}

// What a line asks: a command, and how many bytes it is on.
#[derive(Drop)]
pub struct StartAsked {
    pub command: StartCommand,
    pub size: usize,
}

// What is answered to a command: by the writer, or by the reader.
#[derive(Drop)]
pub enum StartAnswer {
    Wrote(Result<usize, LocalRefusal>),
    Read(Result<FrameRead, LocalRefusal>),
}

// A frame of a form written, by the flags `req|rep C R` and the room that word number `place` says.
#[tactic(auto, unfolding(crate::specs::Starting::write_asked))]
fn ask_write(words: &Words, form: Form, place: usize) -> Option<StartCommand>
    ensures { result ≡ write_asked (words_of words.now) form place }
{
    let reply = words.flag(1, b"req", b"rep")?;
    let crc = words.flag(2, b"0", b"1")?;
    let declined = words.flag(3, b"0", b"1")?;
    let room = words.number(place)?;
    Some(StartCommand::Write {
        reply,
        crc,
        declined,
        form,
        room,
    })
}

// `startup2 req|rep C R HEX ROOM`: writes a frame of revision 2 with S clear; and
// `startup2 req|rep C R A IRD ORD KINDS HEX ROOM`: with S and terms.
#[tactic(auto, unfolding(crate::specs::Starting::startup2_asked))]
fn ask_startup2(words: &Words) -> Option<StartCommand>
    ensures { result ≡ startup2_asked (words_of words.now) }
{
    if words.len() == 6 {
        return ask_write(words, Form::Second, 5);
    }
    if words.len() != 10 {
        return None;
    }
    let terms = terms_said(words)?;
    ask_write(words, Form::Enhanced(terms), 9)
}

// `unstartup2 req|rep HEX`: reads a startup frame of either revision.
#[tactic(auto, unfolding(crate::specs::Starting::unstartup2_asked))]
fn ask_unstartup2(words: &Words) -> Option<StartCommand>
    ensures { result ≡ unstartup2_asked (words_of words.now) }
{
    if words.len() != 3 {
        return None;
    }
    let reply = words.flag(1, b"req", b"rep")?;
    Some(StartCommand::Read { reply })
}

// The command of a line by its name; its word of hex is not looked at yet.
#[tactic(auto, using(script::proofs::Same::equal_same), unfolding(crate::specs::Starting::command_asked))]
fn ask_command(words: &Words) -> Option<StartCommand>
    ensures { result ≡ command_asked (words_of words.now) }
{
    let name = words.word(0);
    if name == b"startup2".as_slice() {
        return ask_startup2(words);
    }
    if name == b"unstartup2".as_slice() {
        return ask_unstartup2(words);
    }
    None
}

// The place of HEX among the words of a writer's line.
fn hex_place(form: Form) -> usize
    ensures { result ≡ hex_place form }
{
    match form {
        Form::First => 4,
        Form::Second => 4,
        Form::Enhanced(_) => 8,
    }
}

// The word of hex of a command.
fn hex_word<'a>(words: &Words<'a>, command: StartCommand) -> &'a [u8]
    ensures { result.now ≡ hex_word command (words_of words.now) }
{
    match command {
        StartCommand::Write { form, .. } => words.word(hex_place(form)),
        StartCommand::Read { .. } => words.word(2),
    }
}

// What a line asks; the bytes that its word of hex stands for are put at the start of bytes.
#[tactic(auto, unfolding(crate::specs::Starting::start_asked, crate::specs::Starting::start_bytes))]
pub fn ask_start(words: &Words, bytes: &mut [u8]) -> Option<StartAsked>
    ensures asked { result ≡ start_asked (words_of words.now) (length bytes.old) }
    ensures bytes { take (size_asked result) bytes.new ≡ start_bytes (words_of words.now) (length bytes.old) }
    ensures within { IfSome result (λ asked. asked.size ≤ length bytes.new) }
{
    let command = ask_command(words)?;
    let size = decode(hex_word(words, command), bytes)?;
    Some(StartAsked { command, size })
}

// Writes a startup frame of a form into the part of frame of the room asked for.
fn write_form(
    reply: bool,
    crc: bool,
    declined: bool,
    form: Form,
    private_data: &[u8],
    asked: u64,
    frame: &mut [u8],
) -> Result<usize, LocalRefusal>
    ensures answer { result ≡ frame_written reply declined form (length private_data.now) (min asked (length frame.old)) }
    ensures bytes { frame.new ≡ frame_out reply crc declined form private_data.now (in_room asked frame.old) ++ past_room asked frame.old }
{
    let size = room(asked, frame.len());
    write_frame(reply, crc, declined, form, private_data, &mut frame[..size])
}

// What a command on these bytes answers; the writer puts its frame at the start of frame.
pub fn answer_start(command: StartCommand, bytes: &[u8], frame: &mut [u8]) -> StartAnswer
    ensures answer { result ≡ start_answer command bytes.now (length frame.old) }
    ensures bytes { frame.new ≡ start_after command bytes.now frame.old }
{
    match command {
        StartCommand::Write {
            reply,
            crc,
            declined,
            form,
            room: asked,
        } => StartAnswer::Wrote(write_form(reply, crc, declined, form, bytes, asked, frame)),
        StartCommand::Read { reply } => StartAnswer::Read(read_frame(reply, bytes)),
    }
}

// `startup2 TOTAL C R`, how the answer for a frame of revision 2 starts.
fn second_head<const N: usize>(total: usize, crc: bool, declined: bool, text: &mut Text<N>) {
    text.put(b"startup2");
    then_number(total as u64, text);
    then_number(crc as u64, text);
    then_number(declined as u64, text);
}

// `startup2 TOTAL C R HEX`: a frame with S clear.
fn second_read<const N: usize>(
    total: usize,
    crc: bool,
    declined: bool,
    private_data: &[u8],
    text: &mut Text<N>,
) {
    second_head(total, crc, declined, text);
    then_hex(private_data, text);
}

// `startup2 TOTAL C R A IRD ORD KINDS HEX`: a frame with S and terms.
fn enhanced_read<const N: usize>(
    total: usize,
    crc: bool,
    declined: bool,
    terms: Terms,
    private_data: &[u8],
    text: &mut Text<N>,
) {
    second_head(total, crc, declined, text);
    then_terms(terms, text);
    then_hex(private_data, text);
}

// A frame of a form that was read, in words.
fn tell_form<const N: usize>(
    total: usize,
    crc: bool,
    declined: bool,
    form: Form,
    private_data: &[u8],
    text: &mut Text<N>,
) {
    match form {
        Form::First => startup_read(total, crc, declined, private_data, text),
        Form::Second => second_read(total, crc, declined, private_data, text),
        Form::Enhanced(terms) => enhanced_read(total, crc, declined, terms, private_data, text),
    }
}

// What the reader found in bytes, in words.
fn tell_read<const N: usize>(
    read: Result<FrameRead, LocalRefusal>,
    bytes: &[u8],
    text: &mut Text<N>,
) {
    match read {
        Ok(FrameRead::Wait(total)) => wait(total, text),
        Ok(
            FrameRead::Taken {
                total,
                crc,
                declined,
                form,
                start,
                len,
            },
        ) => tell_form(total, crc, declined, form, part(bytes, start, len), text),
        Err(refusal) => refused(refusal.number(), text),
    }
}

// Puts an answer into text. The reader read from bytes, and the writer wrote into frame.
pub fn tell_start<const N: usize>(
    answer: StartAnswer,
    bytes: &[u8],
    frame: &[u8],
    text: &mut Text<N>,
) {
    match answer {
        StartAnswer::Wrote(written) => tell_written(written, frame, text),
        StartAnswer::Read(read) => tell_read(read, bytes, text),
    }
}

// Answers a line: asks, answers and tells.
pub fn run<const N: usize>(words: &Words, bytes: &mut [u8], frame: &mut [u8], text: &mut Text<N>) {
    let Some(asked) = ask_start(words, bytes) else {
        bad(text);
        return;
    };
    let given = &bytes[..asked.size];
    let answer = answer_start(asked.command, given, frame);
    tell_start(answer, given, frame, text)
}
