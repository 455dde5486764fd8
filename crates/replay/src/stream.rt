// What the program reads and writes, where it says so if that fails: `failed` is what it then says. It stands in both
// programs, since the libraries do no I/O.
ghost use Rattle.std.specs.Prelude.{◌≡◌, length};
ghost use Rattle.std.specs.Io.{ReadsAtMost};

use std::io;
use std::io::{Read, Write};

// Reads some of the input into the chunk, and answers how many bytes came, 0 at the end.
pub fn read_chunk(
    input: &mut impl Read,
    errors: &mut impl Write,
    failed: &[u8],
    chunk: &mut [u8],
) -> io::Result<usize>
    ensures read { ReadsAtMost result chunk.new }
    ensures kept { length chunk.new ≡ length chunk.old }
{
    let got = input.read(chunk);
    if got.is_err() {
        let _ = errors.write_all(failed);
    }
    got
}

// Writes bytes.
pub fn write_out(
    output: &mut impl Write,
    errors: &mut impl Write,
    failed: &[u8],
    bytes: &[u8],
) -> io::Result<()> {
    let written = output.write_all(bytes);
    if written.is_err() {
        let _ = errors.write_all(failed);
    }
    written
}
