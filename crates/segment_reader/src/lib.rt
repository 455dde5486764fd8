// A DDP segment (RFC 5041, section 4) as a reader: the lent bytes of a ULPDU and a place in them. It
// reads a header's fields in turn, says what is left, and hands the payload back.
//
// Read `reader::SegmentReader` first. Its functions are thin: each takes it apart and calls one of
// `field` or `header` on the slice and the place. A caller that keeps no reader has
// `ulpdu::read_by_fields` and `ulpdu::payload_of`, whose parameters are plain.
#![tactic(auto)]

pub mod field;
pub mod header;
pub mod reader;
pub mod ulpdu;
