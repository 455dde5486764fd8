// RDMAP (RFC 5040): messages, above the placement of `ddp`. It keeps a stream's record and judges
// what DDP let pass (rules 33 to 38). Nothing changes before everything is judged.
//
// Read `stream::Stream` first, a stream's record in groups, each of which has its own module: `phase`,
// `framing`, and the three queues `sends`, `read` and `terminates`. Then `message::Verdict`, what a
// segment is judged to be, and `message::judge_tagged_segment` with `judge_untagged_segment`.
#![tactic(auto)]

pub mod framing;
pub mod message;
pub mod phase;
pub mod read;
pub mod refusal;
pub mod sends;
pub mod stream;
pub mod terminates;
