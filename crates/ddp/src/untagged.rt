// Untagged segments: whether a queue takes the next bytes of a message (rules 28 to 32).
ghost use Rattle.std.specs.Prelude.{◌≡◌};
ghost use Rattle.ddp.specs.Untagged.{untagged_of, untagged_in, next_msn};

use crate::refusal::{INVALID_MO, INVALID_MSN, INVALID_QN, MESSAGE_TOO_LONG, NO_BUFFER, Refusal};

// What a queue expects: the next MSN, whether there is a buffer or room for a read, how many bytes
// the message may have, and how many of them are already taken.
#[derive(Drop)]
pub struct Queue {
    pub msn: u32,
    pub room: bool,
    pub limit: u32,
    pub taken: u32,
}

// Judges the offset and the length of a payload for the message that a queue takes: where it starts and ends
// in the message.
#[tactic(auto, unfolding(crate::specs::Untagged::untagged_in))]
fn judge_offset(q: Queue, mo: u32, len: u64) -> Result<(u32, u32), Refusal>
    ensures { result ≡ untagged_in q mo len }
{
    if mo != q.taken {
        return Err(INVALID_MO);
    }
    let limit = u64::from(q.limit);
    let at = u64::from(mo);
    if limit < at || limit - at < len {
        return Err(MESSAGE_TOO_LONG);
    }
    Ok((mo, (at + len) as u32))
}

// Judges an untagged payload of len bytes by q, what the queue qn expects: the payload is the message's bytes
// from the one number up to the other.
#[tactic(auto, unfolding(crate::specs::Untagged::untagged_of))]
pub fn judge_untagged(q: Queue, qn: u32, msn: u32, mo: u32, len: u64) -> Result<(u32, u32), Refusal>
    ensures { result ≡ untagged_of q qn msn mo len }
{
    if 2 < qn {
        return Err(INVALID_QN);
    }
    if msn != q.msn {
        return Err(INVALID_MSN);
    }
    if !q.room {
        return Err(NO_BUFFER);
    }
    judge_offset(q, mo, len)
}

// The number of the message after one.
pub fn next_msn(msn: u32) -> u32
    ensures { result ≡ next_msn msn }
{
    msn.wrapping_add(1)
}
