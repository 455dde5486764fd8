// The commands on frames, which have no state: what a line asks, what is answered to it, and the
// text of the answer.
ghost use Rattle.std.specs.Prelude.{◌≡◌, ◌++◌, ◌≤◌, min, length, take, IfSome};
ghost use Rattle.mpa.specs.Fpdu.{fpdu_written, fpdu_out};
ghost use Rattle.mpa.specs.Startup.{startup_written, startup_out};
ghost use Rattle.command.specs.Args.{words_of};
ghost use Rattle.command.specs.Frames.{
  frame_name,
  is_frame,
  fpdu_asked,
  unframe_asked,
  startup_asked,
  unstartup_asked,
  command_asked,
  hex_word,
  frame_asked,
  size_asked,
  frame_bytes,
  frame_answer,
  frame_after,
  in_room,
  past_room,
};

use crate::answer::{bad, refused, startup_read, ulpdu_read, wait, wrote};
use crate::args::{Words, room};
use mpa::fpdu::{read_fpdu, write_fpdu};
use mpa::startup::{read_startup, write_startup};
use mpa::{FpduFault, FpduRead, StartupRead};
use script::hex::decode;
use script::text::Text;
use wire::refusal::LocalRefusal;

// The commands on frames.
#[derive(Clone, Copy)]
pub enum FrameName {
    Fpdu,
    Unframe,
    Startup,
    Unstartup,
}

// A command on frames, without the bytes that it is on.
#[derive(Clone, Copy)]
pub enum FrameCommand {
    Fpdu {
        room: u64,
    },
    Unframe {
        crc: bool,
    },
    Startup {
        reply: bool,
        crc: bool,
        declined: bool,
        room: u64,
    },
    Unstartup {
        reply: bool,
    },
}

// What a line asks: a command, and how many bytes it is on.
#[derive(Drop)]
pub struct FrameAsked {
    pub command: FrameCommand,
    pub size: usize,
}

// What is answered to a command: by a writer, or by a reader.
#[derive(Drop)]
pub enum FrameAnswer {
    Wrote(Result<usize, LocalRefusal>),
    Fpdu(Result<FpduRead, FpduFault>),
    Startup(Result<StartupRead, LocalRefusal>),
}

// The command on frames that a name stands for.
#[tactic(auto, using(script::proofs::Same::equal_same), unfolding(crate::specs::Frames::frame_name))]
fn frame_name(name: &[u8]) -> Option<FrameName>
    ensures { result ≡ frame_name name.now }
{
    if name == b"fpdu".as_slice() {
        return Some(FrameName::Fpdu);
    }
    if name == b"unframe".as_slice() {
        return Some(FrameName::Unframe);
    }
    if name == b"startup".as_slice() {
        return Some(FrameName::Startup);
    }
    if name == b"unstartup".as_slice() {
        return Some(FrameName::Unstartup);
    }
    None
}

// Whether a line of that first word is a command on frames.
pub fn is_frame(name: &[u8]) -> bool
    ensures { result ≡ is_frame name.now }
{
    frame_name(name).is_some()
}

// `fpdu HEX ROOM`: writes an FPDU.
#[tactic(auto, unfolding(crate::specs::Frames::fpdu_asked))]
fn ask_fpdu(words: &Words) -> Option<FrameCommand>
    ensures { result ≡ fpdu_asked (words_of words.now) }
{
    if words.len() != 3 {
        return None;
    }
    let room = words.number(2)?;
    Some(FrameCommand::Fpdu { room })
}

// `unframe on|off HEX`: reads an FPDU.
#[tactic(auto, unfolding(crate::specs::Frames::unframe_asked))]
fn ask_unframe(words: &Words) -> Option<FrameCommand>
    ensures { result ≡ unframe_asked (words_of words.now) }
{
    if words.len() != 3 {
        return None;
    }
    let crc = words.flag(1, b"off", b"on")?;
    Some(FrameCommand::Unframe { crc })
}

// `startup req|rep C R HEX ROOM`: writes a startup frame.
#[tactic(auto, unfolding(crate::specs::Frames::startup_asked))]
fn ask_startup(words: &Words) -> Option<FrameCommand>
    ensures { result ≡ startup_asked (words_of words.now) }
{
    if words.len() != 6 {
        return None;
    }
    let reply = words.flag(1, b"req", b"rep")?;
    let crc = words.flag(2, b"0", b"1")?;
    let declined = words.flag(3, b"0", b"1")?;
    let room = words.number(5)?;
    Some(FrameCommand::Startup {
        reply,
        crc,
        declined,
        room,
    })
}

// `unstartup req|rep HEX`: reads a startup frame.
#[tactic(auto, unfolding(crate::specs::Frames::unstartup_asked))]
fn ask_unstartup(words: &Words) -> Option<FrameCommand>
    ensures { result ≡ unstartup_asked (words_of words.now) }
{
    if words.len() != 3 {
        return None;
    }
    let reply = words.flag(1, b"req", b"rep")?;
    Some(FrameCommand::Unstartup { reply })
}

// The command of a line by its name; its word of hex is not looked at yet.
#[tactic(auto, unfolding(crate::specs::Frames::command_asked))]
fn ask_command(words: &Words) -> Option<FrameCommand>
    ensures { result ≡ command_asked (words_of words.now) }
{
    match frame_name(words.word(0))? {
        FrameName::Fpdu => ask_fpdu(words),
        FrameName::Unframe => ask_unframe(words),
        FrameName::Startup => ask_startup(words),
        FrameName::Unstartup => ask_unstartup(words),
    }
}

// The word of hex of a command.
fn hex_word<'a>(words: &Words<'a>, command: FrameCommand) -> &'a [u8]
    ensures { result.now ≡ hex_word command (words_of words.now) }
{
    match command {
        FrameCommand::Fpdu { .. } => words.word(1),
        FrameCommand::Unframe { .. } => words.word(2),
        FrameCommand::Startup { .. } => words.word(4),
        FrameCommand::Unstartup { .. } => words.word(2),
    }
}

// What a line asks; the bytes that its word of hex stands for are put at the start of bytes.
#[tactic(auto, unfolding(crate::specs::Frames::frame_asked, crate::specs::Frames::frame_bytes))]
pub fn ask_frame(words: &Words, bytes: &mut [u8]) -> Option<FrameAsked>
    ensures asked { result ≡ frame_asked (words_of words.now) (length bytes.old) }
    ensures bytes { take (size_asked result) bytes.new ≡ frame_bytes (words_of words.now) (length bytes.old) }
    ensures within { IfSome result (λ asked. asked.size ≤ length bytes.new) }
{
    let command = ask_command(words)?;
    let size = decode(hex_word(words, command), bytes)?;
    Some(FrameAsked { command, size })
}

// Writes the FPDU of a ULPDU into the part of frame of the room asked for.
fn write_ulpdu(ulpdu: &[u8], asked: u64, frame: &mut [u8]) -> Result<usize, LocalRefusal>
    ensures answer { result ≡ fpdu_written (length ulpdu.now) (min asked (length frame.old)) }
    ensures bytes { frame.new ≡ fpdu_out ulpdu.now (in_room asked frame.old) ++ past_room asked frame.old }
{
    let size = room(asked, frame.len());
    write_fpdu(ulpdu, &mut frame[..size])
}

// Writes a startup frame with the flags and the private data in the same way.
fn write_private(
    reply: bool,
    crc: bool,
    declined: bool,
    private_data: &[u8],
    asked: u64,
    frame: &mut [u8],
) -> Result<usize, LocalRefusal>
    ensures answer { result ≡ startup_written reply declined (length private_data.now) (min asked (length frame.old)) }
    ensures bytes { frame.new ≡ startup_out reply crc declined private_data.now (in_room asked frame.old) ++ past_room asked frame.old }
{
    let size = room(asked, frame.len());
    write_startup(reply, crc, declined, private_data, &mut frame[..size])
}

// What a command on these bytes answers; a writer puts its frame at the start of frame.
pub fn answer_frame(command: FrameCommand, bytes: &[u8], frame: &mut [u8]) -> FrameAnswer
    ensures answer { result ≡ frame_answer command bytes.now (length frame.old) }
    ensures bytes { frame.new ≡ frame_after command bytes.now frame.old }
{
    match command {
        FrameCommand::Fpdu { room: asked } => FrameAnswer::Wrote(write_ulpdu(bytes, asked, frame)),
        FrameCommand::Unframe { crc } => FrameAnswer::Fpdu(read_fpdu(crc, bytes)),
        FrameCommand::Startup {
            reply,
            crc,
            declined,
            room: asked,
        } => FrameAnswer::Wrote(write_private(reply, crc, declined, bytes, asked, frame)),
        FrameCommand::Unstartup { reply } => FrameAnswer::Startup(read_startup(reply, bytes)),
    }
}

// The len bytes from start, none where they do not lie in bytes.
pub fn part(bytes: &[u8], start: usize, len: usize) -> &[u8] {
    if start <= bytes.len() {
        if len <= bytes.len() - start {
            let end = start + len;
            return &bytes[start..end];
        }
    }
    &bytes[..0]
}

// What a writer answered, in words.
pub fn tell_written<const N: usize>(
    written: Result<usize, LocalRefusal>,
    frame: &[u8],
    text: &mut Text<N>,
) {
    match written {
        Ok(n) => wrote(part(frame, 0, n), text),
        Err(refusal) => refused(refusal.number(), text),
    }
}

// What the reader of FPDUs found in bytes, in words.
fn tell_fpdu<const N: usize>(read: Result<FpduRead, FpduFault>, bytes: &[u8], text: &mut Text<N>) {
    match read {
        Ok(FpduRead::Wait(total)) => wait(total, text),
        Ok(FpduRead::Taken { total, start, len }) => {
            ulpdu_read(total, part(bytes, start, len), text)
        }
        Err(fault) => refused(fault.number(), text),
    }
}

// What the reader of startup frames found in bytes, in words.
fn tell_startup<const N: usize>(
    read: Result<StartupRead, LocalRefusal>,
    bytes: &[u8],
    text: &mut Text<N>,
) {
    match read {
        Ok(StartupRead::Wait(total)) => wait(total, text),
        Ok(
            StartupRead::Taken {
                total,
                crc,
                declined,
                start,
                len,
            },
        ) => startup_read(total, crc, declined, part(bytes, start, len), text),
        Err(refusal) => refused(refusal.number(), text),
    }
}

// Puts an answer into text. A reader read from bytes, and a writer wrote into frame.
pub fn tell_frame<const N: usize>(
    answer: FrameAnswer,
    bytes: &[u8],
    frame: &[u8],
    text: &mut Text<N>,
) {
    match answer {
        FrameAnswer::Wrote(written) => tell_written(written, frame, text),
        FrameAnswer::Fpdu(read) => tell_fpdu(read, bytes, text),
        FrameAnswer::Startup(read) => tell_startup(read, bytes, text),
    }
}

// Answers a line: asks, answers and tells.
pub fn run<const N: usize>(words: &Words, bytes: &mut [u8], frame: &mut [u8], text: &mut Text<N>) {
    let Some(asked) = ask_frame(words, bytes) else {
        bad(text);
        return;
    };
    let given = &bytes[..asked.size];
    let answer = answer_frame(asked.command, given, frame);
    tell_frame(answer, given, frame, text)
}
