// Lists in fixed memory: the chain of records over a slice of cells, and the book over cells that the caller lends.
#![tactic(auto)]

pub mod book;
pub mod links;

pub use book::Book;
pub use links::Cell;
