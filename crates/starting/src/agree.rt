// The command `agree`: what a responder answers to the terms of a request.
ghost use Rattle.std.specs.Prelude.{◌≡◌};
ghost use Rattle.command.specs.Args.{words_of};
ghost use Rattle.starting.specs.Starting.{agree_answer};

use crate::said::{numbers_said, terms_said, then_terms};
use command::answer::{bad, refused};
use command::args::Words;
use script::text::Text;
use startup2::agree::answer;
use startup2::{Agreed, Terms};
use wire::refusal::LocalRefusal;

// `agree IRD ORD KINDS A PEER-IRD PEER-ORD PEER-KINDS`: ours first, of which A is the request's to say.
// What the responder answers, where a line is such a command.
#[tactic(auto, unfolding(crate::specs::Starting::agree_answer))]
pub fn answer_agree(words: &Words) -> Option<Result<Agreed, LocalRefusal>>
    ensures { result ≡ agree_answer (words_of words.now) }
{
    if words.len() != 8 {
        return None;
    }
    let own = numbers_said(false, words.word(1), words.word(2), words.word(3))?;
    let request = terms_said(words)?;
    Some(answer(own, request))
}

// `agreed A IRD ORD KINDS`: the terms of the reply.
fn agreed<const N: usize>(reply: Terms, text: &mut Text<N>) {
    text.put(b"agreed");
    then_terms(reply, text);
}

// What the responder answers, in words.
fn tell_answered<const N: usize>(answered: Result<Agreed, LocalRefusal>, text: &mut Text<N>) {
    match answered {
        Ok(Agreed { reply, .. }) => agreed(reply, text),
        Err(refusal) => refused(refusal.number(), text),
    }
}

// Puts an answer into text.
pub fn tell_agree<const N: usize>(
    agreement: Option<Result<Agreed, LocalRefusal>>,
    text: &mut Text<N>,
) {
    match agreement {
        Some(answered) => tell_answered(answered, text),
        None => bad(text),
    }
}

// Answers a line.
pub fn run<const N: usize>(words: &Words, text: &mut Text<N>) {
    tell_agree(answer_agree(words), text)
}
