// A line, read byte by byte: what its bytes so far are as a sample.
ghost use Rattle.std.specs.Prelude.{◌≡◌};
ghost use Rattle.gauge.specs.Line.{digit_after, with_byte};

// The last sample.
const LAST: u64 = 0xFFFF_FFFF;

// No byte yet, digits alone and their number, or no sample, whatever comes after.
#[derive(Clone, Copy)]
pub enum Line {
    Empty,
    Value(u32),
    Bad,
}

// A byte as a wider number.
fn wide(b: u8) -> u64
    ensures { result ≡ b }
{
    b as u64
}

// The line of a number with one more byte after it.
fn digit_after(n: u32, b: u8) -> Line
    ensures { result ≡ digit_after n b }
{
    if b < b'0' {
        return Line::Bad;
    }
    if b'9' < b {
        return Line::Bad;
    }
    let v = n as u64 * 10 + (wide(b) - 48);
    if v <= LAST {
        return Line::Value(v as u32);
    }
    Line::Bad
}

// A line with one more byte.
pub fn with_byte(line: Line, b: u8) -> Line
    ensures { result ≡ with_byte line b }
{
    match line {
        Line::Empty => digit_after(0, b),
        Line::Value(n) => digit_after(n, b),
        Line::Bad => Line::Bad,
    }
}
