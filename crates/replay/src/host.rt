// A run of a script: all that it holds, and what a line does to it.
ghost use Rattle.std.specs.Prelude.{◌≡◌, length};
ghost use Rattle.running.specs.Run.{state_at, line_state, line_store, line_rooms, line_message, line_held};

use super::output::{flush, print_answer};
use super::said::{Answer, Said};
use super::stream::read_chunk;
use holding::gather::ROOMS;
use running::line::add_bytes;
use running::run::{first_state, run_line};
use script::text::Text;
use script::word::line_end;
use std::io;
use std::io::{Read, Write};

// The store.
pub type Store = [u8; 1048576];

// The device's words and the LENGTH of the last `open`; the words of the message begun last, and what its hex
// stands for; the next line, of which `count` bytes are in; what the hex of a line stands for, less than half
// of the line, and room for a frame; and what is said of the lines. What is large, the store, the second slice and
// the answer, is lent: a struct is moved where it is made, and would take its room on the stack twice.
#[derive(Drop)]
pub struct Host {
    pub device: [u64; 945],
    pub kept: u64,
    pub message: [u64; 9],
    pub held: [u8; 32768],
    pub line: [u8; 65536],
    pub count: usize,
    pub bytes: [u8; 32768],
    pub frame: [u8; 65536],
    pub said: Said,
}

impl Host {
    // Before the first line, but for the device.
    pub fn new() -> Self {
        Host {
            device: [0; 945],
            kept: 0,
            message: sending::no_message(),
            held: [0; 32768],
            line: [0; 65536],
            count: 0,
            bytes: [0; 32768],
            frame: [0; 65536],
            said: Said {
                out: Text::new(),
                lines: 0,
                reasons: 0,
            },
        }
    }

    // Runs the line, as `run_line` does, gathers its answer, and says why it is `bad` where it is. An answer
    // that cannot be written leaves the line run: the device, the store, the second slice and the message are
    // as after it. The line itself stays.
    pub fn run_told(
        &mut self,
        output: &mut impl Write,
        errors: &mut impl Write,
        store: &mut Store,
        rooms: &mut [u8; ROOMS],
        text: &mut Answer,
    ) -> io::Result<()>
        ensures state { state_at self.new.kept self.new.device
            ≡ line_state (state_at self.old.kept self.old.device) (length self.old.bytes) store.old rooms.old self.old.line self.old.count }
        ensures rest { store.new
            ≡ line_store (state_at self.old.kept self.old.device) (length self.old.bytes) store.old rooms.old self.old.line self.old.count }
        ensures rooms { rooms.new
            ≡ line_rooms (state_at self.old.kept self.old.device) (length self.old.bytes) store.old rooms.old self.old.line self.old.count }
        ensures message { self.new.message
            ≡ line_message self.old.message (length self.old.held) (length self.old.bytes) (length self.old.frame) self.old.line self.old.count }
        ensures held { self.new.held ≡ line_held self.old.held (length self.old.bytes) self.old.line self.old.count }
        ensures line { self.new.line ≡ self.old.line }
        ensures count { self.new.count ≡ self.old.count }
    {
        self.kept = run_line(
            self.kept,
            &mut self.device,
            &mut self.message,
            &mut self.held,
            &self.line,
            self.count,
            &mut self.bytes,
            &mut self.frame,
            store,
            rooms,
            text,
        );
        print_answer(output, errors, text, &mut self.said.out)?;
        self.said
            .tell_why(output, errors, &self.line, self.count, text)
    }

    // Takes every byte of a chunk, runs each line that it ends, and writes their answers.
    #[tactic(auto, using(crate::proofs::Gathered::line_within))]
    fn take_chunk(
        &mut self,
        output: &mut impl Write,
        errors: &mut impl Write,
        chunk: &[u8],
        store: &mut Store,
        rooms: &mut [u8; ROOMS],
        text: &mut Answer,
    ) -> io::Result<()> {
        let mut i = 0;
        while i < chunk.len() {
            let end = line_end(chunk, i);
            let more = &chunk[i..end];
            self.count = add_bytes(&mut self.line, self.count, more);
            if end == chunk.len() {
                break;
            }
            i = end + 1;
            self.run_told(output, errors, store, rooms, text)?;
            self.count = 0;
        }
        flush(output, errors, &mut self.said.out)
    }

    // Runs the last line, where it lacks its newline, and writes its answer.
    fn run_rest(
        &mut self,
        output: &mut impl Write,
        errors: &mut impl Write,
        store: &mut Store,
        rooms: &mut [u8; ROOMS],
        text: &mut Answer,
    ) -> io::Result<()> {
        if self.count > 0 {
            self.run_told(output, errors, store, rooms, text)?;
            return flush(output, errors, &mut self.said.out);
        }
        Ok(())
    }

    // Runs the whole script, or as much of it as can be read and answered. A proved loop has to end, and nothing
    // says that the input does: so the loop has a number of turns that no run uses up.
    pub fn run_script(
        &mut self,
        input: &mut impl Read,
        output: &mut impl Write,
        errors: &mut impl Write,
        chunk: &mut [u8],
        store: &mut Store,
        rooms: &mut [u8; ROOMS],
        text: &mut Answer,
    ) -> io::Result<()> {
        self.kept = first_state(&mut self.device);
        for _ in 0..u64::MAX {
            let n = read_chunk(
                input,
                errors,
                b"replay: the script could not be read\n",
                chunk,
            )?;
            if n == 0 {
                return self.run_rest(output, errors, store, rooms, text);
            }
            self.take_chunk(output, errors, &chunk[..n], store, rooms, text)?;
        }
        Ok(())
    }
}
