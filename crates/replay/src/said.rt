// What is said of the lines: their answers on standard output, and on standard error why a line is `bad`.
ghost use Rattle.std.specs.Prelude.{◌≡◌, [], OnOk, OnErr};
ghost use Rattle.wire.specs.Wire.{pick, same};
ghost use Rattle.replay.specs.Output.{bad_line};

use super::output::flush;
use reasons::{explain, explain_long};
use script::text::Text;
use std::io;
use std::io::Write;

// How many reasons a run gives.
const MOST: u64 = 100;

// An answer, with room for the longest, that of `bytes` for the whole store: two digits for each byte, and the
// word. It is lent, and no part of what a run holds, which would be moved with it.
pub type Answer = Text<2097184>;

// The answers that are gathered, how many lines were run, and to how many of them a reason was given.
#[derive(Drop)]
pub struct Said {
    pub out: Text<65536>,
    pub lines: u64,
    pub reasons: u64,
}

impl Said {
    // Says why a line is `bad`, which the buffer `line` starts with unless it is too long. The reason is put
    // where its answer stood. A reason that cannot be written stops nothing.
    fn give_reason(&self, errors: &mut impl Write, line: &[u8], count: usize, text: &mut Answer) {
        text.clear();
        match line.get(..count) {
            Some(line) => explain(self.lines, line, text),
            None => explain_long(self.lines, text),
        }
        let _ = errors.write_all(text.as_slice());
    }

    // Gives the reason of a line that is `bad`, where not too many are given.
    fn tell_reason(&mut self, errors: &mut impl Write, line: &[u8], count: usize, text: &mut Answer)
        ensures { self.new.out ≡ self.old.out }
    {
        if self.reasons < MOST {
            self.give_reason(errors, line, count, text);
        } else if self.reasons == MOST {
            let _ = errors.write_all(
                b"replay: more lines are bad; the first 100 reasons are given\n",
            );
        }
        self.reasons = self.reasons.saturating_add(1);
    }

    // Counts a line that was run and, where its answer is `bad`, writes what is gathered and then says why; else
    // what is gathered stays.
    #[tactic(auto, using(script::proofs::Same::equal_same))]
    pub fn tell_why(
        &mut self,
        output: &mut impl Write,
        errors: &mut impl Write,
        line: &[u8],
        count: usize,
        text: &mut Answer,
    ) -> io::Result<()>
        ensures out { OnOk result (self.new.out ≡ pick (same text.old bad_line) [] self.old.out) }
        ensures err { OnErr result ((text.new ≡ text.old) × (self.new.out ≡ self.old.out)) }
    {
        self.lines = self.lines.saturating_add(1);
        if text.as_slice() == b"bad\n".as_slice() {
            flush(output, errors, &mut self.out)?;
            self.tell_reason(errors, line, count, text);
        }
        Ok(())
    }
}
