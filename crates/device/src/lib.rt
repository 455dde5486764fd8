// The device's calls on a block of words that a host holds: the opening, receive and offers, and a window
// dropped. A call asks what it needs of the block, group by group, and stores what changed: a refusal and a
// Wait are answered before anything is taken out. The calls on one slot are in the crate `slots`.
//
// Read `receive` first, then `apply`. The contracts say that a call does with the device in the words
// (`rnic_at` of the crate `block`) what the by-value call of the crate `rnic` does. Any words are a device,
// and no public function has a `requires`.
#![tactic(auto)]

mod apply;
mod judge;
pub mod offer;
pub mod opening;
pub mod receive;
pub mod window;
