// The bytes of the input, taken one by one: the line that is being read, the meter, and the answers.
ghost use Rattle.std.specs.Prelude.{◌≡◌, ◌+◌, ◌*◌, ◌≤◌, length};
ghost use Rattle.gauge.specs.Text.{Placed};
ghost use Rattle.gauge.specs.Run.{after_line, answer_text, rest_text, Stepped, Ran, start_state};

use super::line::{Line, with_byte};
use super::text::{put_bad_line, put_reading_line};
use meter::Meter;
use script::text::Text;

// The bytes of the line so far, and the meter after the lines before it.
#[derive(Drop)]
pub struct State {
    pub line: Line,
    pub meter: Meter,
}

// Before the first byte.
pub fn start() -> State
    ensures { result ≡ start_state }
{
    State {
        line: Line::Empty,
        meter: meter::new_meter(),
    }
}

// The meter after a line: a sample is a tick at that count.
fn after_line(m: Meter, line: Line) -> Meter
    ensures { result ≡ after_line m line }
{
    match line {
        Line::Value(n) => {
            let gauge = m.gauge;
            meter::tick(Meter {
                count: n,
                ticked: m.ticked,
                gauge,
            })
        }
        Line::Empty => m,
        Line::Bad => m,
    }
}

// Appends the answer to a line, where m is the meter after it.
fn put_answer<const N: usize>(m: Meter, line: Line, out: &mut Text<N>)
    requires { length out.old + 42 ≤ N }
    ensures { Placed (answer_text m line) out.old out.new }
{
    match line {
        Line::Value(_) => put_reading_line(meter::reading(m), out),
        Line::Empty => put_bad_line(out),
        Line::Bad => put_bad_line(out),
    }
}

// Takes one byte. Where it ends a line, the answer is appended.
fn take_byte<const N: usize>(state: State, b: u8, out: &mut Text<N>) -> State
    requires { length out.old + 42 ≤ N }
    ensures { Stepped state b out.old result out.new }
{
    let line = state.line;
    let meter = state.meter;
    if b == b'\n' {
        let next = after_line(meter, line);
        put_answer(next, line, out);
        return State {
            line: Line::Empty,
            meter: next,
        };
    }
    State {
        line: with_byte(line, b),
        meter,
    }
}

// Takes every byte of a chunk. The text is then the answers to the lines that it ends.
pub fn take_chunk<const N: usize>(state: State, chunk: &[u8], out: &mut Text<N>) -> State
    requires { length chunk.now * 42 ≤ N }
    ensures { Ran state chunk.now result out.new }
{
    let mut now = state;
    out.clear();
    for &b in chunk {
        now = take_byte(now, b, out);
    }
    now
}

// Puts the answer to the last line, where it lacks its newline, in place of the text.
pub fn take_rest<const N: usize>(state: State, out: &mut Text<N>)
    requires { 42 ≤ N }
    ensures { out.new ≡ rest_text state }
{
    let line = state.line;
    let meter = state.meter;
    out.clear();
    match line {
        Line::Empty => (),
        Line::Value(_) => put_answer(after_line(meter, line), line, out),
        Line::Bad => put_answer(after_line(meter, line), line, out),
    }
}
