// Startup frames of both revisions, for a C program or one in Rust: written from nine words and read into them,
// and what the two sides agree by their terms, four words each. None of these looks at a device.
//
// The words of a frame are its kind, total, start, C, R, and the terms: A, IRD, ORD and the kinds. Kind 1 is
// revision 1, 2 revision 2 with S clear, 3 with S and terms; 0 is a refusal with its number, and 5 a frame that
// is not whole, with the number of bytes to wait for. The definitions are in specs/Startup.antt.
ghost use Rattle.std.specs.Prelude.{◌≡◌, length, get_or};
ghost use Rattle.sender.specs.Words.{flag_word};
ghost use Rattle.startup2.specs.Frame.{frame_read};
ghost use Rattle.startup2.specs.Agree.{answered_of, settled_of};
ghost use Rattle.rnic_c.specs.Written.{written_words};
ghost use Rattle.rnic_c.specs.Startup.{is_set, terms_words, terms_from, taken_words, frame_words, is_form, form_at, form_written, form_out, answered_number, reply_words, answered_words, settled_number, settled_words};

use crate::message::written_words;
use startup2::agree::{answer, settle};
use startup2::frame::{read_frame, write_frame};
use startup2::{Agreed, Form, FrameRead, Terms};
use wire::refusal::LocalRefusal;

// A flag in a word.
fn flag(b: bool) -> u64
    ensures { result ≡ flag_word b }
{
    if b { 1 } else { 0 }
}

// The words of a side's terms.
fn terms_words(terms: Terms) -> [u64; 4]
    ensures { result ≡ terms_words terms }
{
    [flag(terms.peer), terms.ird, terms.ord, terms.kinds]
}

// The terms in four words.
fn terms_from(words: &[u64; 4]) -> Terms
    ensures { result ≡ terms_from words.now 0 }
{
    Terms {
        peer: words[0] != 0,
        ird: words[1],
        ord: words[2],
        kinds: words[3],
    }
}

// The words of a frame that is there.
fn taken_words(total: u64, start: u64, crc: bool, declined: bool, form: Form) -> [u64; 9]
    ensures { result ≡ taken_words total start crc declined form }
{
    let c = flag(crc);
    let r = flag(declined);
    match form {
        Form::First => [1, total, start, c, r, 0, 0, 0, 0],
        Form::Second => [2, total, start, c, r, 0, 0, 0, 0],
        Form::Enhanced(terms) => {
            let a = flag(terms.peer);
            [3, total, start, c, r, a, terms.ird, terms.ord, terms.kinds]
        }
    }
}

// The words of what was read.
fn frame_words(read: Result<FrameRead, LocalRefusal>) -> [u64; 9]
    ensures { result ≡ frame_words read }
{
    match read {
        Ok(FrameRead::Wait(n)) => [5, n as u64, 0, 0, 0, 0, 0, 0, 0],
        Err(refusal) => [0, refusal.number() as u64, 0, 0, 0, 0, 0, 0, 0],
        Ok(
            FrameRead::Taken {
                total,
                crc,
                declined,
                form,
                start,
                len: _,
            },
        ) => taken_words(total as u64, start as u64, crc, declined, form),
    }
}

// Reads the startup frame at the start of bytes, of a request where reply is 0 and else of a reply, into the
// words.
#[unsafe(no_mangle)]
pub extern "C" fn rnic_c_startup_read(reply: u64, bytes: &[u8], found: &mut [u64; 9])
    ensures { found.new ≡ frame_words (frame_read (is_set reply) bytes.now) }
{
    *found = frame_words(read_frame(reply != 0, bytes));
}

// Whether a kind is that of a frame that can be written.
fn is_form(kind: u64) -> bool
    ensures { result ≡ is_form kind }
{
    1 <= kind && kind <= 3
}

// The form in the words of a frame.
fn form_at(frame: &[u64; 9]) -> Form
    ensures { result ≡ form_at frame.now }
{
    let kind = frame[0];
    if kind == 1 {
        return Form::First;
    }
    if kind == 2 {
        return Form::Second;
    }
    Form::Enhanced(Terms {
        peer: frame[5] != 0,
        ird: frame[6],
        ord: frame[7],
        kinds: frame[8],
    })
}

// Writes the frame in the words, of a request where reply is 0 and else of a reply, with the private data to
// the start of out. Total and start are not looked at, so that what was read can be written again.
#[tactic(auto, unfolding(crate::specs::Startup::form_written, crate::specs::Startup::form_out, wire::specs::Refusal::refusal_number))]
#[unsafe(no_mangle)]
pub extern "C" fn rnic_c_startup_write(
    reply: u64,
    frame: &[u64; 9],
    private_data: &[u8],
    out: &mut [u8],
    answer: &mut [u64; 2],
)
    ensures { (answer.new ≡ written_words (form_written (is_set reply) frame.now (length private_data.now) (length out.old))) × (out.new ≡ form_out (is_set reply) frame.now private_data.now out.old) }
{
    if is_form(frame[0]) {
        let form = form_at(frame);
        let written = write_frame(
            reply != 0,
            frame[3] != 0,
            frame[4] != 0,
            form,
            private_data,
            out,
        );
        *answer = written_words(written);
        return;
    }
    *answer = [0, 1];
}

// Puts a responder's answer into the words, with its own IRD for what it keeps to: 0, or the refusal's number,
// and then the words stay.
fn answer_in(
    answered: Result<Agreed, LocalRefusal>,
    ird: u64,
    reply: &mut [u64; 4],
    kept: &mut [u64; 4],
) -> u32
    ensures { (result ≡ answered_number answered) × (reply.new ≡ reply_words reply.old answered) × (kept.new ≡ answered_words kept.old ird answered) }
{
    match answered {
        Ok(Agreed { reply: said, ord }) => {
            *reply = terms_words(said);
            *kept = [flag(said.peer), ird, ord, said.kinds];
            0
        }
        Err(refusal) => refusal.number() as u32,
    }
}

// What a responder of these terms answers to a request's: 0, with the terms that its reply says and those that
// it keeps to, or the refusal's number.
#[unsafe(no_mangle)]
pub extern "C" fn rnic_c_agree_answer(
    own: &[u64; 4],
    request: &[u64; 4],
    reply: &mut [u64; 4],
    kept: &mut [u64; 4],
) -> u32
    ensures { (result ≡ answered_number (answered_of (terms_from own.now 0) (terms_from request.now 0))) × (reply.new ≡ reply_words reply.old (answered_of (terms_from own.now 0) (terms_from request.now 0))) × (kept.new ≡ answered_words kept.old (get_or own.now 1 0) (answered_of (terms_from own.now 0) (terms_from request.now 0))) }
{
    let answered = answer(terms_from(own), terms_from(request));
    answer_in(answered, own[1], reply, kept)
}

// Puts what an initiator made of a reply into the words: 0, or the refusal's number, and then they stay.
fn settle_in(settled: Result<Terms, LocalRefusal>, kept: &mut [u64; 4]) -> u32
    ensures { (result ≡ settled_number settled) × (kept.new ≡ settled_words kept.old settled) }
{
    match settled {
        Ok(terms) => {
            *kept = terms_words(terms);
            0
        }
        Err(refusal) => refusal.number() as u32,
    }
}

// What an initiator of these terms makes of a reply's: 0, with the terms that it keeps to, or the refusal's
// number.
#[unsafe(no_mangle)]
pub extern "C" fn rnic_c_agree_settle(own: &[u64; 4], reply: &[u64; 4], kept: &mut [u64; 4]) -> u32
    ensures { (result ≡ settled_number (settled_of (terms_from own.now 0) (terms_from reply.now 0))) × (kept.new ≡ settled_words kept.old (settled_of (terms_from own.now 0) (terms_from reply.now 0))) }
{
    let settled = settle(terms_from(own), terms_from(reply));
    settle_in(settled, kept)
}
