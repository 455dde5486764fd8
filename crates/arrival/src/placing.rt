// Where a verdict says that a payload goes, it is put in the domain's bytes; else they stay as they are.
ghost use Rattle.std.specs.Prelude.{◌≡◌};
ghost use Rattle.arrival.specs.Parts.{placed_from, applied_bytes};

use ddp::refusal::Refusal;
use rdmap::message::Verdict;

// Places a payload at a place of the store in the domain's bytes, which start at start.
#[tactic(auto, unfolding(crate::specs::Parts::placed_from))]
pub fn place_from(bytes: &mut [u8], start: u32, at: u64, payload: &[u8])
    ensures { bytes.new ≡ placed_from start at payload.now bytes.old }
{
    let from = start as u64;
    if from <= at {
        ddp::place::place(bytes, at - from, payload);
    }
}

// What a verdict makes of the domain's bytes.
#[tactic(auto, unfolding(crate::specs::Parts::applied_bytes))]
pub fn place_by(bytes: &mut [u8], start: u32, verdict: Result<Verdict, Refusal>, payload: &[u8])
    ensures { bytes.new ≡ applied_bytes start verdict payload.now bytes.old }
{
    match verdict {
        Ok(Verdict::Write(at) | Verdict::SendMore { at, .. } | Verdict::SendLast { at, .. }) => {
            place_from(bytes, start, at, payload)
        }
        Ok(Verdict::Nothing | Verdict::Read(_) | Verdict::Terminate { .. }) | Err(_) => {}
    }
}
