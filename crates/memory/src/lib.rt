// What peers may write to and read from: a domain's part of the store, its windows (RFC 5041's tagged
// buffers) and the receive buffers that wait on a stream (its untagged buffers). Records by value and
// the local rules on them, below the placement layer `ddp`, which judges a peer's segments by them.
//
// Read `part::Part` first, then `window::Window`, which a peer names by its STag, with `find_in` and
// `span_of`, and `buffer::Buffers`.
#![tactic(auto)]

pub mod buffer;
pub mod marks;
pub mod part;
pub mod window;
