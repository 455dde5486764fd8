// Standard input, read in chunks, and standard output.
ghost use Rattle.std.specs.Prelude.{◌*◌, ◌≤◌, length};

use super::run::{start, take_chunk, take_rest};
use super::stream::{read_chunk, write_out};
use script::text::Text;
use std::io;
use std::io::{Read, Write};

// What is said where a read or a write fails.
const UNREAD: &[u8] = b"gauge: the input could not be read\n";

const UNWRITTEN: &[u8] = b"gauge: an answer could not be written\n";

// Answers the whole input, or as much of it as can be read and answered. A proved loop has to end, and nothing says that
// the input does: so the loop has a number of turns that no run uses up.
pub fn run_input<const N: usize>(
    input: &mut impl Read,
    output: &mut impl Write,
    errors: &mut impl Write,
    chunk: &mut [u8],
    out: &mut Text<N>,
) -> io::Result<()>
    requires { (length chunk.old * 42 ≤ N) × (42 ≤ N) }
{
    let mut state = start();
    for _ in 0..u64::MAX {
        let n = read_chunk(input, errors, UNREAD, chunk)?;
        if n == 0 {
            take_rest(state, out);
            return write_out(output, errors, UNWRITTEN, out.as_slice());
        }
        state = take_chunk(state, &chunk[..n], out);
        write_out(output, errors, UNWRITTEN, out.as_slice())?;
    }
    Ok(())
}
