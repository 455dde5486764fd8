// The words of an answer: word 0 says its kind, the next ones are its numbers, those that are left
// are 0. The kinds stand in specs/Words.antt, and in include/rnic.h for a C program.
ghost use Rattle.std.specs.Prelude.{◌≡◌, ◌-◌, Ok};
ghost use Rattle.calls.specs.Words.{
  words as words_of,
  outcome_words,
  close_words,
  take_words,
  count_words,
  reading_words,
  state_words,
  event_words,
  ended_words,
  answer_words,
  refused_words,
  took_words,
  offered_words,
};

use arrival::{Answer, Event};
use ddp::refusal::Refusal;
use meter::gauge::Reading;
use meter::words::level_bits;
use rdmap::read::ReadRequest;
use rdmap::stream::{Left, State};
use wire::refusal::LocalRefusal;

// A kind and up to five numbers.
pub fn words(kind: u64, a: u64, b: u64, c: u64, d: u64, e: u64) -> [u64; 8]
    ensures { result ≡ words_of kind a b c d e }
{
    [kind, a, b, c, d, e, 0, 0]
}

// What a call that is done or refused answers.
pub fn outcome_words(outcome: Result<(), LocalRefusal>) -> [u64; 8]
    ensures { result ≡ outcome_words outcome }
{
    match outcome {
        Ok(()) => words(1, 0, 0, 0, 0, 0),
        Err(refusal) => refused_words(refusal),
    }
}

// What closing a stream answers.
pub fn close_words(answer: Result<Left, LocalRefusal>) -> [u64; 8]
    ensures { result ≡ close_words answer }
{
    match answer {
        Ok(left) => words(2, left.buffers as u64, left.reads as u64, 0, 0, 0),
        Err(refusal) => refused_words(refusal),
    }
}

// What taking a read answers.
pub fn take_words(answer: Result<ReadRequest, LocalRefusal>) -> [u64; 8]
    ensures { result ≡ take_words answer }
{
    match answer {
        Ok(read) => words(
            3,
            read.sink_stag as u64,
            read.sink_to,
            read.size as u64,
            read.source_stag as u64,
            read.source_to,
        ),
        Err(refusal) => refused_words(refusal),
    }
}

// What a question answers.
pub fn count_words(count: Result<u32, LocalRefusal>) -> [u64; 8]
    ensures { result ≡ count_words count }
{
    match count {
        Ok(n) => words(4, n as u64, 0, 0, 0, 0),
        Err(refusal) => refused_words(refusal),
    }
}

// What a gauge reads as.
fn gauge_words(reading: Reading) -> [u64; 8]
    ensures { result ≡ reading_words (Ok reading) }
{
    match reading {
        Reading::Quiet => words(12, 0, 0, 0, 0, 0),
        Reading::Steady(level) => words(13, level_bits(level), 0, 0, 0, 0),
        Reading::Falling(level, peak) => words(14, level_bits(level), level_bits(peak), 0, 0, 0),
    }
}

// What asking for a reading answers.
pub fn reading_words(answer: Result<Reading, LocalRefusal>) -> [u64; 8]
    ensures { result ≡ reading_words answer }
{
    match answer {
        Ok(reading) => gauge_words(reading),
        Err(refusal) => refused_words(refusal),
    }
}

// The state of a stream that a refusal of the peer's bytes ended.
fn ended_state_words(refusal: Refusal, buffers: u32, reads: u32) -> [u64; 8]
    ensures { result ≡ state_words (Ok (State.Ended refusal buffers reads)) }
{
    [
        15,
        2,
        buffers as u64,
        reads as u64,
        refusal.number as u64,
        refusal.layer as u64,
        refusal.etype as u64,
        refusal.code as u64,
    ]
}

// What asking for a stream's state answers.
pub fn state_words(answer: Result<State, LocalRefusal>) -> [u64; 8]
    ensures { result ≡ state_words answer }
{
    match answer {
        Ok(State::Closed) => words(15, 0, 0, 0, 0, 0),
        Ok(State::Open { buffers, reads }) => words(15, 1, buffers as u64, reads as u64, 0, 0),
        Ok(
            State::Ended {
                refusal,
                buffers,
                reads,
            },
        ) => ended_state_words(refusal, buffers, reads),
        Ok(State::Terminated { buffers, reads }) => {
            words(15, 3, buffers as u64, reads as u64, 0, 0)
        }
        Err(refusal) => refused_words(refusal),
    }
}

// What an FPDU that was taken reports.
fn event_words(total: u64, event: Option<Event>) -> [u64; 8]
    ensures { result ≡ event_words total event }
{
    match event {
        None => words(6, total, 0, 0, 0, 0),
        Some(Event::Sent { start, len, opcode }) => {
            words(7, total, start as u64, len as u64, opcode as u64, 0)
        }
        Some(
            Event::SentInvalidating {
                start,
                len,
                opcode,
                stag,
            },
        ) => words(
            8,
            total,
            start as u64,
            len as u64,
            opcode as u64,
            stag as u64,
        ),
        Some(Event::Terminated { layer, etype, code }) => {
            words(9, total, layer as u64, etype as u64, code as u64, 0)
        }
    }
}

// A refusal of the peer's bytes.
fn ended_words(refusal: Refusal) -> [u64; 8]
    ensures { result ≡ ended_words refusal }
{
    words(
        10,
        refusal.number as u64,
        refusal.layer as u64,
        refusal.etype as u64,
        refusal.code as u64,
        0,
    )
}

// What receive answers.
pub fn answer_words(answer: Result<Answer, LocalRefusal>) -> [u64; 8]
    ensures { result ≡ answer_words answer }
{
    match answer {
        Ok(Answer::Wait(n)) => words(5, n as u64, 0, 0, 0, 0),
        Ok(Answer::Taken { total, event }) => event_words(total as u64, event),
        Ok(Answer::Ended(refusal)) => ended_words(refusal),
        Err(refusal) => refused_words(refusal),
    }
}

// A local refusal, by its number.
pub fn refused_words(refusal: LocalRefusal) -> [u64; 8]
    ensures { result ≡ refused_words refusal }
{
    words(0, refusal.number() as u64, 0, 0, 0, 0)
}

// All bytes of an offer are held.
pub fn kept_words(count: u64) -> [u64; 8]
    ensures { result ≡ took_words (words_of 11 0 0 0 0 0) count }
{
    [11, 0, 0, 0, 0, 0, count, 0]
}

// How many of an offer's bytes an FPDU of this total took, where so many were held.
fn taken_of(total: u64, held: u64) -> u64
    ensures { result ≡ total - held }
{
    total.saturating_sub(held)
}

// Makes of what receive answered to the pending bytes, of which `held` were held before, what an offer of
// `count` bytes answers.
#[tactic(auto, unfolding(crate::specs::Words::offered_words))]
pub fn offered(answer: &mut [u64; 8], held: u64, count: u64)
    ensures { answer.new ≡ offered_words answer.old held count }
{
    let kind = answer[0];
    if kind == 5 {
        *answer = kept_words(count);
        return;
    }
    if 6 <= kind && kind <= 9 {
        answer[6] = taken_of(answer[1], held);
    }
}
