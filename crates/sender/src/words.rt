// A message under way as nine words that a caller holds, one for each field, so that a program in another
// language keeps it. Any words are a message. The definitions are in specs/Words.antt.
ghost use Rattle.std.specs.Prelude.{◌≡◌, length};
ghost use Rattle.sender.specs.Message.{next_of, next_out};
ghost use Rattle.sender.specs.Words.{
  flag_word,
  flag_in,
  lower_half,
  message_at,
  message_words,
  begun_number,
  begun_words,
  segment_words,
  words_after,
  message_then,
  words_next,
};

use crate::Message;
use wire::refusal::LocalRefusal;

// A flag in a word.
fn flag(b: bool) -> u64
    ensures { (result ≡ flag_word b) × (flag_in result ≡ b) }
{
    u64::from(b)
}

// The number of 32 bits in a word.
fn lower(x: u64) -> u32
    ensures { result ≡ lower_half x }
{
    (x % 4294967296) as u32
}

// The message in the words.
#[tactic(auto, unfolding(crate::specs::Words::message_at))]
pub fn load(words: &[u64; 9]) -> Message
    ensures { result ≡ message_at words.now }
{
    Message {
        tagged: words[0] % 2 == 1,
        opcode: (words[1] % 256) as u8,
        stag: lower(words[2]),
        to: words[3],
        msn: lower(words[4]),
        limit: lower(words[5]),
        len: lower(words[6]),
        at: lower(words[7]),
        done: words[8] % 2 == 1,
    }
}

// The words of a message, which say the message.
#[tactic(auto, using(crate::proofs::Held::message_back), unfolding(crate::specs::Words::message_words))]
fn encode(m: Message) -> [u64; 9]
    ensures { (result ≡ message_words m) × (message_at (message_words m) ≡ m) }
{
    [
        flag(m.tagged),
        m.opcode as u64,
        m.stag as u64,
        m.to,
        m.msn as u64,
        m.limit as u64,
        m.len as u64,
        m.at as u64,
        flag(m.done),
    ]
}

// Puts a message into the words, which then say it.
pub fn store(words: &mut [u64; 9], m: Message)
    ensures { (words.new ≡ message_words m) × (message_at words.new ≡ m) }
{
    *words = encode(m);
}

// Puts a message that was begun into the words, and answers 0; where it was refused, answers the refusal's
// number, and the words stay.
pub fn begin_in(words: &mut [u64; 9], begun: Result<Message, LocalRefusal>) -> u32
    ensures { (result ≡ begun_number begun) × (words.new ≡ begun_words words.old begun) }
{
    match begun {
        Ok(m) => {
            store(words, m);
            0
        }
        Err(refusal) => refusal.number() as u32,
    }
}

// The two words of an answer: its kind and its number.
fn answer_words(answer: Result<Option<usize>, LocalRefusal>) -> [u64; 2]
    ensures { result ≡ segment_words answer }
{
    match answer {
        Err(refusal) => [0, refusal.number() as u64],
        Ok(Some(size)) => [1, size as u64],
        Ok(None) => [2, 0],
    }
}

// Puts the message after an answer into the words, where a segment was written.
fn keep(words: &mut [u64; 9], m: Message, answer: Result<Option<usize>, LocalRefusal>)
    ensures { (words.new ≡ words_after words.old m answer) × (message_at words.new ≡ message_then (message_at words.old) m answer) }
{
    if let Ok(Some(_)) = answer {
        store(words, m);
    }
}

// Writes the next segment of the message in the words, lent its bytes, to the start of out; the answer's
// words say what was done.
#[tactic(auto, using(crate::proofs::Held::message_next))]
pub fn next_in(words: &mut [u64; 9], message: &[u8], out: &mut [u8], answer: &mut [u64; 2])
    ensures { (words.new ≡ words_next words.old (next_of (message_at words.old) (length message.now) (length out.old))) × (answer.new ≡ segment_words (next_of (message_at words.old) (length message.now) (length out.old)).0) × (out.new ≡ next_out (message_at words.old) message.now out.old) × (message_at words.new ≡ (next_of (message_at words.old) (length message.now) (length out.old)).1) }
{
    let m = load(words);
    let (told, next) = m.next(message, out);
    keep(words, next, told);
    *answer = answer_words(told);
}
