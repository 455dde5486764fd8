// No code: what the writer of the crate `sender` writes, framed by `mpa`, the receiver takes. A message's
// FPDUs and what receiving them one after the other gives are specs/Delivery.antt; what that needs and
// what is then promised, each under a name, specs/Promise.antt, and of the device specs/Device.antt. Read
// then the theorems: proofs/Delivery.antt, `send-delivered` and `write-delivered`; proofs/Device.antt, the
// same of the device; proofs/Streamed.antt, from one stream of bytes.
#![tactic(auto)]
