// The calls on one slot of a block of words that a host holds: on a domain's gauge, on a window, on a stream.
// Each loads the groups that it needs and stores what changed. A window's drop is in the crate `device`, which
// stands on this one, since a Send can ask for it too.
//
// Read `stream` first, then `sharing`. The contracts say that a call does with the device in the words
// (`rnic_at` of the crate `block`) what the by-value call of the crate `rnic` does. Any words are a device, and
// no public function has a `requires`. proofs/Slots.antt has the laws of a stream's groups.
#![tactic(auto)]

pub mod gauge;
pub mod place;
mod sharing;
pub mod stream;
pub mod window;
