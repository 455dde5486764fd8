// Live marks in sixteen bits, bit i for the window of slot i.
ghost use Rattle.std.specs.Prelude.{◌≡◌};
ghost use Rattle.std.specs.Int.Count.{ones};
ghost use Rattle.memory.specs.Marks.{pushed, lowest_clear};

// The marks moved up by one slot, with one more in slot 0.
pub fn push(marks: u16, live: bool) -> u16
    ensures { result ≡ pushed marks live }
{
    marks << 1 | live as u16
}

// How many marks are set.
pub fn count(marks: u16) -> u32
    ensures { result ≡ ones marks }
{
    u16::count_ones(marks)
}

// The lowest slot whose mark is clear, 16 where none is.
pub fn lowest_clear(marks: u16) -> u32
    ensures { result ≡ lowest_clear marks }
{
    u16::trailing_zeros(!marks)
}
