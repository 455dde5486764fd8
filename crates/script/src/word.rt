// The lines of a script, and the words of a line.
ghost use Rattle.std.specs.Prelude.{◌≡◌, ◌<◌, ◌≤◌, length, drop, IfSome};
ghost use Rattle.std.specs.List.{prefix_len};
ghost use Rattle.script.specs.Word.{is_space, not_space, not_newline, past, word_at};

use std::ops::Range;

// The bytes from `from` on, none past the end.
fn rest(bytes: &[u8], from: usize) -> &[u8]
    ensures { result.now ≡ drop from bytes.now }
{
    &bytes[from.min(bytes.len())..]
}

// How many spaces stand from `from` on.
#[tactic(auto, using(crate::proofs::Scan::counted))]
fn spaces(line: &[u8], from: usize) -> usize
    ensures { result ≡ prefix_len is_space (drop from line.now) }
{
    rest(line, from).iter().take_while(|b| **b == b' ').count()
}

// How many bytes stand from `from` on, up to a space or the line's end.
#[tactic(auto, using(crate::proofs::Scan::counted))]
fn word_len(line: &[u8], from: usize) -> usize
    ensures { result ≡ prefix_len not_space (drop from line.now) }
{
    rest(line, from).iter().take_while(|b| **b != b' ').count()
}

// How many bytes stand from `from` on, up to a newline or the bytes' end.
#[tactic(auto, using(crate::proofs::Scan::counted))]
fn line_len(bytes: &[u8], from: usize) -> usize
    ensures { result ≡ prefix_len not_newline (drop from bytes.now) }
{
    rest(bytes, from)
        .iter()
        .take_while(|b| **b != b'\n')
        .count()
}

// Where the first word of the line from `from` on stands.
#[tactic(auto, using(crate::proofs::Scan::fits), unfolding(crate::specs::Word::word_at))]
pub fn next_word(line: &[u8], from: usize) -> Option<Range<usize>>
    ensures word { result ≡ word_at line.now from }
    ensures within { IfSome result (λ word. (word.start < word.end) × (word.end ≤ length line.now)) }
{
    let start = from + spaces(line, from);
    let end = start + word_len(line, start);
    (start < end).then_some(start..end)
}

// The first place from `from` on that holds a newline, or the bytes' end.
#[tactic(auto, using(crate::proofs::Scan::fits))]
pub fn line_end(bytes: &[u8], from: usize) -> usize
    ensures { result ≡ past not_newline bytes.now from }
{
    from + line_len(bytes, from)
}
