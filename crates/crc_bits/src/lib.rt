// CRC-32C as RFC 5044 section 4.4 has it, bit by bit: the definition, its laws, and the CRCs of two pieces joined.
//
// Read specs/Crc.antt first, the definition, then `join` in the module `shift`. proofs/Carry.antt has the laws that
// others cite: a running value carried on over two pieces, and over a sum.
#![tactic(auto)]

pub mod shift;
