// Reports: what a wand seals of its visits, and how the office opens it. Sealing writes to lent memory and says how much: the device has no
// heap.
#![tactic(auto)]

ghost use Rattle.reports.specs.Cases.{EmptySealed, OddLengths};

mod body;
pub mod fault;
pub mod office;
mod places;
mod report;
mod seal;
mod sealing;
pub mod visit;

pub use fault::{Fault, Layer};
pub use sealing::Sealer;
pub use visit::{Header, Visit};

// Examples that follow from the definitions: the text of an empty report, and lengths that no report has.
pub fn reports_stand()
    ensures empty { EmptySealed }
    ensures lengths { OddLengths }
{}
