// BelT: the block cipher with keys of 16, 24 and 32 octets, the expansion and the transformation of keys, and the hash. A key of a length
// that is chosen by the call is written to lent memory, and the call says how much: the device has no heap.
#![tactic(auto)]

pub mod cipher;
pub mod hash;
pub mod keys;
mod tables;
pub mod transform;

pub use cipher::BeltBlock;
