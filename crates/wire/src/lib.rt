// What every layer has: a number read from a slice or written to one (number), elements copied and bytes
// cleared and compared (copy), and the local refusals that any call may answer (refusal). The numbers of the
// RFCs are big-endian; the CRC of an FPDU alone goes the other way (RFC 5044, section 4.4).
//
// The definitions are in specs/Wire.antt and specs/Refusal.antt. Every function on bytes is internal: its
// caller has tested the lengths, as its `requires` asks.
#![tactic(auto)]

pub mod copy;
pub mod number;
pub mod refusal;
