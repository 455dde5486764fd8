// DDP (RFC 5041): the placement layer, between the framing of `mpa` and the messages of `rdmap`. It
// reads the first segment of some bytes, writes segment headers, judges where a payload may go (rules
// 22 to 32) and places it there. Nothing is changed while anything is judged. What a payload may go to
// is in the crate `memory`.
//
// Read `segment::SegmentRead` first, then `tagged::judge_tagged` with `untagged::judge_untagged`, which
// say where a segment's payload goes.
#![tactic(auto)]

pub mod header;
pub mod place;
pub mod refusal;
pub mod segment;
pub mod tagged;
pub mod untagged;
