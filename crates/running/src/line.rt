// A line of the script, gathered in a buffer until its newline comes.
ghost use Rattle.std.specs.Prelude.{◌≡◌, length};
ghost use Rattle.running.specs.Line.{line_fits, added_count, added_bytes};

// Whether a line of `count` bytes and some more fits into `size` bytes.
fn line_fits(size: usize, count: usize, more: usize) -> bool
    ensures { result ≡ line_fits size count more }
{
    if count <= size {
        return more <= size - count;
    }
    false
}

// Puts more bytes of a line behind its first `count`, and answers how many there are then. Where they
// do not fit the line is too long: they are not kept, and the count is one more than the buffer holds.
#[tactic(auto, unfolding(crate::specs::Line::added_count, crate::specs::Line::added_bytes))]
pub fn add_bytes(line: &mut [u8], count: usize, more: &[u8]) -> usize
    ensures next { result ≡ added_count (length line.old) count (length more.now) }
    ensures bytes { line.new ≡ added_bytes line.old count more.now }
{
    if line_fits(line.len(), count, more.len()) {
        wire::copy::copy(line, count, more);
        return count + more.len();
    }
    line.len() + 1
}
