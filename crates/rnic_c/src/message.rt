// The writer for messages, for a C program or one in Rust: a message under way is nine words that the
// program holds, and each of its segments is written into bytes that it lends. A segment is a ULPDU, and
// the FPDU of one is written here, too. None of these looks at a device.
ghost use Rattle.std.specs.Prelude.{◌≡◌, length};
ghost use Rattle.mpa.specs.Fpdu.{fpdu_written, fpdu_out};
ghost use Rattle.sender.specs.Message.{write_begun, send_begun, next_of, next_out};
ghost use Rattle.sender.specs.Words.{message_at, begun_number, begun_words, segment_words, words_next};
ghost use Rattle.rnic_c.specs.Written.{written_words};

use mpa::fpdu::write_fpdu;
use sender::words::{begin_in, next_in};
use sender::{begin_send, begin_write};
use wire::refusal::LocalRefusal;

// Begins a Write of len bytes to an STag and a tagged offset, in ULPDUs of at most limit bytes: 0, or the
// refusal's number.
#[unsafe(no_mangle)]
pub extern "C" fn rnic_c_message_write(
    message: &mut [u64; 9],
    limit: u64,
    stag: u64,
    to: u64,
    len: u64,
) -> u32
    ensures { (result ≡ begun_number (write_begun limit stag to len)) × (message.new ≡ begun_words message.old (write_begun limit stag to len)) }
{
    begin_in(message, begin_write(limit, stag, to, len))
}

// Begins a Send of len bytes by its opcode and number, with the STag that it invalidates: 0, or the
// refusal's number.
#[unsafe(no_mangle)]
pub extern "C" fn rnic_c_message_send(
    message: &mut [u64; 9],
    limit: u64,
    opcode: u64,
    msn: u64,
    stag: u64,
    len: u64,
) -> u32
    ensures { (result ≡ begun_number (send_begun limit opcode msn stag len)) × (message.new ≡ begun_words message.old (send_begun limit opcode msn stag len)) }
{
    begin_in(message, begin_send(limit, opcode, msn, stag, len))
}

// Writes the next segment of a message, lent all of its bytes, to the start of out; the answer's words are
// a kind and a number: 0 and a refusal's, 1 and the segment's length, or 2 and 0 after the last.
#[unsafe(no_mangle)]
pub extern "C" fn rnic_c_message_next(
    message: &mut [u64; 9],
    bytes: &[u8],
    out: &mut [u8],
    answer: &mut [u64; 2],
)
    ensures { (message.new ≡ words_next message.old (next_of (message_at message.old) (length bytes.now) (length out.old))) × (answer.new ≡ segment_words (next_of (message_at message.old) (length bytes.now) (length out.old)).0) × (out.new ≡ next_out (message_at message.old) bytes.now out.old) × (message_at message.new ≡ (next_of (message_at message.old) (length bytes.now) (length out.old)).1) }
{
    next_in(message, bytes, out, answer);
}

// The words of a writer's answer.
pub(crate) fn written_words(written: Result<usize, LocalRefusal>) -> [u64; 2]
    ensures { result ≡ written_words written }
{
    match written {
        Err(refusal) => [0, refusal.number() as u64],
        Ok(size) => [1, size as u64],
    }
}

// Writes the FPDU of a ULPDU, with its CRC, to the start of out; the answer's words are as above.
#[unsafe(no_mangle)]
pub extern "C" fn rnic_c_fpdu_write(ulpdu: &[u8], out: &mut [u8], answer: &mut [u64; 2])
    ensures { (answer.new ≡ written_words (fpdu_written (length ulpdu.now) (length out.old))) × (out.new ≡ fpdu_out ulpdu.now out.old) }
{
    *answer = written_words(write_fpdu(ulpdu, out));
}
