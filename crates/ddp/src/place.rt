// Placing: a payload copied into the part of the store that a domain lends.
ghost use Rattle.std.specs.Prelude.{◌≡◌};
ghost use Rattle.ddp.specs.Place.{fits, placed};

use wire::copy::copy;

// Copies the payload to the place at of the part, or nothing where it does not fit there.
#[tactic(auto, unfolding(crate::specs::Place::fits, crate::specs::Place::placed))]
pub fn place(part: &mut [u8], at: u64, payload: &[u8]) -> bool
    ensures { (result ≡ fits part.old at payload.now) × (part.new ≡ placed part.old at payload.now) }
{
    let from = at as usize;
    if part.len() < from || part.len() - from < payload.len() {
        return false;
    }
    copy(part, from, payload);
    true
}
