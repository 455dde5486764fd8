// What the program writes. Answers are gathered in a text, so that many of them go out by one write.
ghost use Rattle.std.specs.Prelude.{◌≡◌, ◌≤◌, ◌+◌, length, [], IsOk, OnOk, OnErr};
ghost use Rattle.replay.specs.Output.{gathered, answer_line};

use super::stream;
use script::text::Text;
use std::io;
use std::io::Write;

// Writes bytes, and says so where that fails.
fn write_out(output: &mut impl Write, errors: &mut impl Write, bytes: &[u8]) -> io::Result<()> {
    stream::write_out(
        output,
        errors,
        b"replay: an answer could not be written\n",
        bytes,
    )
}

// Writes what is gathered. Where that fails it stays.
pub fn flush<const N: usize>(
    output: &mut impl Write,
    errors: &mut impl Write,
    out: &mut Text<N>,
) -> io::Result<()>
    ensures ok { OnOk result (out.new ≡ []) }
    ensures err { OnErr result (out.new ≡ out.old) }
{
    write_out(output, errors, out.as_slice())?;
    out.clear();
    Ok(())
}

// Gathers more bytes. Where they do not fit behind those that are gathered, these are written first; where
// they never fit, they are too.
fn gather<const N: usize>(
    output: &mut impl Write,
    errors: &mut impl Write,
    more: &[u8],
    out: &mut Text<N>,
) -> io::Result<()>
    ensures bytes { OnOk result (out.new ≡ gathered N out.old more.now) }
    ensures fit { length out.old + length more.now ≤ N → IsOk result }
    ensures err { OnErr result (out.new ≡ out.old) }
{
    if more.len() <= out.room() {
        out.put(more);
        return Ok(());
    }
    write_out(output, errors, out.as_slice())?;
    if more.len() <= N {
        out.clear();
        out.put(more);
        return Ok(());
    }
    write_out(output, errors, more)?;
    out.clear();
    Ok(())
}

// Gathers an answer as a line.
fn print<const M: usize, const N: usize>(
    output: &mut impl Write,
    errors: &mut impl Write,
    text: &mut Text<M>,
    out: &mut Text<N>,
) -> io::Result<()>
    ensures bytes { OnOk result (out.new ≡ gathered N out.old (answer_line M text.old)) }
    ensures fit { length out.old + length (answer_line M text.old) ≤ N → IsOk result }
    ensures err { OnErr result (out.new ≡ out.old) }
{
    text.put(b"\n");
    gather(output, errors, text.as_slice(), out)
}

// Gathers an answer as a line; an answer of no bytes gathers nothing.
pub fn print_answer<const M: usize, const N: usize>(
    output: &mut impl Write,
    errors: &mut impl Write,
    text: &mut Text<M>,
    out: &mut Text<N>,
) -> io::Result<()>
    ensures fit { length out.old + length (answer_line M text.old) ≤ N → IsOk result }
    ensures err { OnErr result (out.new ≡ out.old) }
{
    if text.is_empty() {
        return Ok(());
    }
    print(output, errors, text, out)
}
