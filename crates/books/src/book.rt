// A book: a list of elements in cells that the caller lends.
ghost use Rattle.std.specs.Prelude.{◌≡◌, ◌+◌, ◌≤◌, ◌↔◌, min, [], length, take, IsTrue};
ghost use Rattle.blocks.specs.declared.answers.Refusal.TheVariants.{TooFewCells};
ghost use Rattle.books.specs.Chains.{items, Sound, most_cells};
ghost use Rattle.books.specs.Lists.{Adds, Takes, kth};

use crate::links::{Cell, Chain, MOST_CELLS, cell_at, fill, form, link_at};
use blocks::Refusal;

// A list of elements, each in a cell of its own. Every cell is on the used chain or on the free one, and on no other.
#[derive(Drop)]
pub struct Book<'a, T> {
    cells: &'a mut [Cell<T>],
    chain: Chain,
    ghost sound: { Sound cells.now chain },
}

// The first 4,096 cells; all of them where there are no more.
#[tactic(auto, using(std::proofs::lemmas::List::take_min))]
fn front<T: Copy>(cells: &mut [Cell<T>]) -> &mut [Cell<T>]
    ensures size { length result.now ≡ min (length cells.old) most_cells }
    ensures front { result.now ≡ take most_cells cells.old }
{
    let n = MOST_CELLS.min(cells.len());
    &mut cells[..n]
}

// No public call requires anything, and a refusal leaves the book as it was. That the capacity stays is said of each call that is lent a
// book: no type says what stands behind a `&mut` afterwards. That each cell is on one chain is so by the type, and said of each call that
// makes or changes a book, as its promise.
#[tactic(auto, using(crate::proofs::Bound::kept))]
impl<'a, T: Copy> Book<'a, T> {
    ghost use Rattle.books.specs.Books.{elements, capacity, EachOnOneChain, SameCells};

    // An empty book in the cells, whatever they held. It uses the first 4,096 at most, and leaves further ones alone.
    pub fn new(cells: &'a mut [Cell<T>]) -> Self
        ensures empty { elements result ≡ [] }
        ensures capacity { capacity result ≡ min (length cells.old) most_cells }
        ensures chains { EachOnOneChain result }
    {
        let cells = front(cells);
        let chain = form(cells);
        Book::resume(cells, chain)
    }

    // The book that an earlier one left in the cells: for a type that owns its cells, and keeps the chain between calls.
    pub(crate) fn resume(cells: &'a mut [Cell<T>], chain: Chain) -> Self
        requires { Sound cells.old chain }
        ensures chain { result.chain ≡ chain }
        ensures cells { result.cells.now ≡ cells.old }
        ensures same_cells { result.cells.ghost_name ≡ cells.entry.ghost_name }
    {
        Book { cells, chain }
    }

    // The chain, to resume the book from.
    pub(crate) fn chain(&self) -> Chain
        ensures { result ≡ self.now.chain }
    {
        self.chain
    }

    // Adds an element at the end: in the first free cell, behind the last used one.
    pub fn add_last(&mut self, element: T) -> Result<(), Refusal>
        ensures added { Adds (capacity self.old) TooFewCells (elements self.old) element (elements self.new) result }
        ensures capacity { capacity self.new ≡ capacity self.old }
        ensures chains { EachOnOneChain self.new }
        ensures same_cells { SameCells self.old self.new }
    {
        let old = self.chain;
        let n = old.free;
        if n == 0 {
            return Err(Refusal::TooFewCells);
        }
        let cells = &mut *self.cells;
        let free = cell_at(cells, n).next;
        fill(cells, n, element);
        let first = if old.last == 0 {
            n
        } else {
            link_at(cells, old.last, n);
            old.first
        };
        self.chain = Chain {
            first,
            last: n,
            free,
            count: old.count + 1,
        };
        Ok(())
    }

    // Takes the first element out: its cell becomes the first free one.
    pub fn take_first(&mut self) -> Option<T>
        ensures taken { Takes (elements self.old) (elements self.new) result }
        ensures capacity { capacity self.new ≡ capacity self.old }
        ensures chains { EachOnOneChain self.new }
        ensures same_cells { SameCells self.old self.new }
    {
        let old = self.chain;
        let n = old.first;
        if n == 0 {
            return None;
        }
        let cells = &mut *self.cells;
        let Cell { value, next } = cell_at(cells, n);
        link_at(cells, n, old.free);
        let last = if next == 0 { 0 } else { old.last };
        self.chain = Chain {
            first: next,
            last,
            free: n,
            count: old.count - 1,
        };
        Some(value)
    }

    // The k-th element, from 1.
    pub fn read(&self, k: usize) -> Option<T>
        ensures { result ≡ kth (elements self.now) k }
    {
        if k == 0 || k > self.len() {
            return None;
        }
        // A loop: tried as a fold, whose closure has to show at each turn that its number is a cell's; that proof did not close.
        let mut n = self.chain.first;
        for _step in 1..k {
            n = cell_at(self.cells, n).next;
        }
        Some(cell_at(self.cells, n).value)
    }

    // How many elements there are.
    pub fn len(&self) -> usize
        ensures count { result ≡ length (elements self.now) }
        ensures within { (result ≤ capacity self.now) × (capacity self.now ≤ most_cells) }
    {
        self.chain.count as usize
    }

    // Whether there is none.
    pub fn is_empty(&self) -> bool
        ensures { IsTrue result ↔ (elements self.now ≡ []) }
    {
        self.len() == 0
    }

    // How many more there is room for.
    pub fn free(&self) -> usize
        ensures { result + length (elements self.now) ≡ capacity self.now }
    {
        self.cells.len() - self.len()
    }
}
