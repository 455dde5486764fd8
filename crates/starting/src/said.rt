// A side's terms in a line and in an answer: `A IRD ORD KINDS`.
ghost use Rattle.std.specs.Prelude.{◌≡◌};
ghost use Rattle.script.specs.Number.{number_of};
ghost use Rattle.command.specs.Args.{words_of};
ghost use Rattle.starting.specs.Starting.{terms_for, terms_said};

use command::answer::then_number;
use command::args::Words;
use script::number::read_number;
use script::text::Text;
use startup2::Terms;

// The terms of the words IRD, ORD and KINDS, where A is known.
pub(crate) fn numbers_said(peer: bool, first: &[u8], second: &[u8], third: &[u8]) -> Option<Terms>
    ensures { result ≡ terms_for peer (number_of first.now) (number_of second.now) (number_of third.now) }
{
    let ird = read_number(first)?;
    let ord = read_number(second)?;
    let kinds = read_number(third)?;
    Some(Terms {
        peer,
        ird,
        ord,
        kinds,
    })
}

// The terms of words 4 to 7 of a line, `A IRD ORD KINDS`: a frame's, and those of the request that is agreed to.
#[tactic(auto, unfolding(crate::specs::Starting::terms_said))]
pub(crate) fn terms_said(words: &Words) -> Option<Terms>
    ensures { result ≡ terms_said (words_of words.now) }
{
    let peer = words.flag(4, b"0", b"1")?;
    numbers_said(peer, words.word(5), words.word(6), words.word(7))
}

// Appends a space and terms.
pub(crate) fn then_terms<const N: usize>(terms: Terms, text: &mut Text<N>) {
    then_number(terms.peer as u64, text);
    then_number(terms.ird, text);
    then_number(terms.ord, text);
    then_number(terms.kinds, text);
}
