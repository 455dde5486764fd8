// What a script's line is answered where it is a call of the device: the words of the call's answer, as
// specs/Words.antt of the crate `calls` has them, appended to a text. Read `tell` first, then `tell_offer`.
#![tactic(auto)]

ghost use Rattle.std.specs.Prelude.{◌≡◌, ◌∷◌, []};
ghost use Rattle.script.specs.Hex.{hex_text};
ghost use Rattle.script.specs.Text.{appended};
ghost use Rattle.wire.specs.Wire.{be64};

use command::answer::{then_hex, then_number};
use script::text::Text;

// Appends words of the answer, each after a space.
fn then_words<const N: usize>(words: &[u64], text: &mut Text<N>) {
    for word in words {
        then_number(*word, text);
    }
}

// Appends a word, and then words of the answer.
fn told<const N: usize>(word: &[u8], words: &[u64], text: &mut Text<N>) {
    text.put(word);
    then_words(words, text);
}

// Appends what the FPDU reports, by the kind: 6 nothing, 7 a Send, 8 a Send that invalidated an STag, else
// a Terminate.
fn then_report<const N: usize>(kind: u64, answer: [u64; 8], text: &mut Text<N>) {
    match kind {
        6 => (),
        7 => told(b" send", &answer[2..5], text),
        8 => {
            told(b" send", &answer[2..5], text);
            told(b" stag", &answer[5..6], text);
        }
        _ => told(b" terminate", &answer[2..5], text),
    }
}

// `taken TOTAL` with what the FPDU reports.
fn taken<const N: usize>(kind: u64, answer: [u64; 8], text: &mut Text<N>) {
    told(b"taken", &answer[1..2], text);
    then_report(kind, answer, text);
}

// `took K`: how many bytes of this call an offer took.
fn took<const N: usize>(answer: [u64; 8], text: &mut Text<N>) {
    told(b"took", &answer[6..7], text);
}

// `took K taken TOTAL` with what the FPDU reports that these bytes complete.
fn completed<const N: usize>(kind: u64, answer: [u64; 8], text: &mut Text<N>) {
    took(answer, text);
    text.put(b" ");
    taken(kind, answer, text);
}

// Appends `/TYPE/CODE`, of which the code is a byte in hex.
fn then_code<const N: usize>(kind: u64, code: u64, text: &mut Text<N>) {
    text.put(b"/");
    text.put_number(kind);
    text.put(b"/");
    text.put_byte_hex((code % 256) as u8);
}

// `refused NUMBER LAYER/TYPE/CODE`: a refusal of the peer's bytes.
fn ended<const N: usize>(answer: [u64; 8], text: &mut Text<N>) {
    told(b"refused", &answer[1..3], text);
    then_code(answer[3], answer[4], text);
}

// `state ended NUMBER LAYER/TYPE/CODE BUFFERS READS`: a stream that a refusal of the peer's bytes ended.
fn ended_state<const N: usize>(answer: [u64; 8], text: &mut Text<N>) {
    told(b"state ended", &answer[4..6], text);
    then_code(answer[6], answer[7], text);
    then_words(&answer[2..4], text);
}

// A stream's state: `state closed`, `state open BUFFERS READS`, `state ended ..` or `state terminated BUFFERS READS`.
fn stated<const N: usize>(answer: [u64; 8], text: &mut Text<N>) {
    match answer[1] {
        0 => text.put(b"state closed"),
        1 => told(b"state open", &answer[2..4], text),
        2 => ended_state(answer, text),
        _ => told(b"state terminated", &answer[2..4], text),
    }
}

// `opened` or `done`.
fn done<const N: usize>(number: u64, text: &mut Text<N>) {
    if number == 0 {
        text.put(b"opened");
    } else {
        text.put(b"done");
    }
}

// `live COUNT` or `free SLOT`.
fn counted<const N: usize>(number: u64, answer: [u64; 8], text: &mut Text<N>) {
    if number == 7 {
        told(b"live", &answer[1..2], text);
    } else {
        told(b"free", &answer[1..2], text);
    }
}

// Appends a space and the sixteen hex digits of a word.
fn then_bits<const N: usize>(v: u64, text: &mut Text<N>)
    ensures { text.new ≡ appended N (appended N text.old (32 ∷ [])) (hex_text (be64 v)) }
{
    then_hex(&u64::to_be_bytes(v), text);
}

// `steady BITS`: the bits of the gauge's level.
fn steady<const N: usize>(answer: [u64; 8], text: &mut Text<N>) {
    text.put(b"steady");
    then_bits(answer[1], text);
}

// `falling BITS BITS`: those of its level and of its peak.
fn falling<const N: usize>(answer: [u64; 8], text: &mut Text<N>) {
    text.put(b"falling");
    then_bits(answer[1], text);
    then_bits(answer[2], text);
}

// What the call of a number is answered, of its answer's words; the first word is the kind. `open`
// alone is `opened` where the others are `done`, and a count is `live` or `free`.
// Kept: the kinds are numbers, as the exported `rnic_c_call` writes them.
pub fn tell<const N: usize>(number: u64, answer: [u64; 8], text: &mut Text<N>) {
    let kind = answer[0];
    match kind {
        0 => told(b"refused", &answer[1..2], text),
        1 => done(number, text),
        2 => told(b"closed", &answer[1..3], text),
        3 => told(b"read", &answer[1..6], text),
        4 => counted(number, answer, text),
        5 => told(b"wait", &answer[1..2], text),
        10 => ended(answer, text),
        12 => text.put(b"quiet"),
        13 => steady(answer, text),
        14 => falling(answer, text),
        15 => stated(answer, text),
        _ => taken(kind, answer, text),
    }
}

// What an offer is answered, of its answer's words; the first word is the kind.
pub fn tell_offer<const N: usize>(answer: [u64; 8], text: &mut Text<N>) {
    let kind = answer[0];
    match kind {
        0 => told(b"refused", &answer[1..2], text),
        10 => ended(answer, text),
        11 => took(answer, text),
        _ => completed(kind, answer, text),
    }
}

// `held K`: how many bytes a stream holds.
pub fn tell_held<const N: usize>(n: u64, text: &mut Text<N>) {
    text.put(b"held");
    then_number(n, text);
}
