// The modes over any block, ECB, CBC, CFB and CTR, and the checksum; wrapping and unwrapping of key texts.
// The calls take block, message and output side by side: a struct of them would be made for one call and taken apart at once. They write
// to lent memory and say how much, since the device has no heap.
#![tactic(auto)]

pub mod cbc;
pub mod cfb;
pub mod checksum;
pub mod ctr;
pub mod ecb;
mod machine;
mod parts;
pub mod scratch;
pub mod wrap;
