// The device that a host holds as a block of 945 words, `&[u64; 945]`. Each group of its records stands at
// a constant offset: a function loads a group by value or stores one, and no function takes a reference
// to a struct. Any words hold a device, since each number is taken at its field's width, and any two
// numbers name a domain and a slot of it: their remainders do.
//
// Read the module `layout` first, then `sends`, which has one group loaded and stored. The definitions
// are in specs/: `rnic_at` in specs/Device.antt is the device that a block holds. proofs/Stored.antt
// says that storing a group changes that group of the device and nothing else.
#![tactic(auto)]

pub mod device;
pub mod framing;
pub mod layout;
pub mod meters;
mod pack;
pub mod phase;
pub mod reads;
pub mod sends;
mod store;
pub mod stream;
pub mod terminates;
pub mod window;
