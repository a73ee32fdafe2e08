// A guard's rounds: tags at the doors, and the keys of a site. The calls write to lent memory and say how much: the device has no heap.
#![tactic(auto)]

pub mod kit;
pub mod tag;
