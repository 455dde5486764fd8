// An answer, appended to a text.
ghost use Rattle.std.specs.Prelude.{◌++◌, ◌+◌, ◌≤◌, length};
ghost use Rattle.gauge.specs.Text.{level_text, reading_text, bad_text, newline, Placed};

use meter::gauge::Reading;
use meter::words::level_bits;
use script::text::Text;
use wire::number::put_be64;

// Appends a space and a float's bits.
fn put_level<const N: usize>(x: f64, out: &mut Text<N>)
    requires { length out.old + 17 ≤ N }
    ensures { Placed (level_text x) out.old out.new }
{
    let bits = level_bits(x);
    let mut word = [0u8; 8];
    put_be64(&mut word, 0, bits);
    out.put(b" ");
    out.put_hex(&word);
}

// Appends a reading's name and its floats.
fn put_reading<const N: usize>(r: Reading, out: &mut Text<N>)
    requires { length out.old + 41 ≤ N }
    ensures { Placed (reading_text r) out.old out.new }
{
    match r {
        Reading::Quiet => out.put(b"quiet"),
        Reading::Steady(level) => {
            out.put(b"steady");
            put_level(level, out);
        }
        Reading::Falling(level, peak) => {
            out.put(b"falling");
            put_level(level, out);
            put_level(peak, out);
        }
    }
}

// Appends a reading as a line.
pub fn put_reading_line<const N: usize>(r: Reading, out: &mut Text<N>)
    requires { length out.old + 42 ≤ N }
    ensures { Placed (reading_text r ++ newline) out.old out.new }
{
    put_reading(r, out);
    out.put(b"\n");
}

// Appends the line that answers what is no sample.
pub fn put_bad_line<const N: usize>(out: &mut Text<N>)
    requires { length out.old + 42 ≤ N }
    ensures { Placed (bad_text ++ newline) out.old out.new }
{
    out.put(b"bad\n");
}
