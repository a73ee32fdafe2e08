// Cells in a slice, and two chains over them: the used ones, first to last, and the free ones.
ghost use Rattle.std.specs.Prelude.{◌≡◌, ◌<◌, ◌≤◌, [], ◌∷◌, length};
ghost use Rattle.books.specs.Chains.{nexts, values, items, Sound, most_cells};
ghost use Rattle.books.specs.Walks.{after, put, value_of};

// An element, and the number of the cell after this one. Cells are numbered from 1; 0 ends a chain, in the two octets of the number, where
// an `Option` would take four: the device's memory is fixed.
#[derive(Clone, Copy)]
pub struct Cell<T> {
    pub(crate) value: T,
    pub(crate) next: u16,
}

impl<T: Copy> Cell<T> {
    // A cell on no chain.
    pub fn new(value: T) -> Self
        ensures { result ≡ record { value = value; next = 0 } }
    {
        Cell { value, next: 0 }
    }
}

// Where the two chains begin, where the used one ends, and how many cells are used.
#[derive(Clone, Copy)]
pub struct Chain {
    pub(crate) first: u16,
    pub(crate) last: u16,
    pub(crate) free: u16,
    pub(crate) count: u16,
}

// The most cells that two chains are laid over.
pub const MOST_CELLS: usize = 4096;

// Cell n. Cells and number stand side by side here and below: a number with its bound in its type would have to hold the cells too.
#[tactic(auto, using(crate::proofs::Rows::rows))]
pub(crate) fn cell_at<T: Copy>(cells: &[Cell<T>], n: u16) -> Cell<T>
    requires { (0 < n) × (n ≤ length cells.now) }
    ensures next { result.next ≡ after (nexts cells.now) n }
    ensures value { value_of (values cells.now) n ≡ result.value ∷ [] }
{
    cells[n as usize - 1]
}

// Has a cell go on to another.
fn link<T: Copy>(cell: &mut Cell<T>, next: u16)
    ensures { cell.new ≡ record { value = cell.old.value; next = next } }
{
    cell.next = next;
}

// Has cell n go on to another.
#[tactic(auto, using(crate::proofs::Rows::rows))]
pub(crate) fn link_at<T: Copy>(cells: &mut [Cell<T>], n: u16, next: u16)
    requires { (0 < n) × (n ≤ length cells.old) }
    ensures nexts { nexts cells.new ≡ put (nexts cells.old) n next }
    ensures values { values cells.new ≡ values cells.old }
{
    link(&mut cells[n as usize - 1], next);
}

// Puts an element into cell n, which then ends its chain.
#[tactic(auto, using(crate::proofs::Rows::rows))]
pub(crate) fn fill<T: Copy>(cells: &mut [Cell<T>], n: u16, value: T)
    requires { (0 < n) × (n ≤ length cells.old) }
    ensures nexts { nexts cells.new ≡ put (nexts cells.old) n 0 }
    ensures values { values cells.new ≡ put (values cells.old) n value }
{
    cells[n as usize - 1] = Cell::new(value);
}

// Links all the cells into the free chain, whatever they held.
#[tactic(auto, using(crate::proofs::Forms::forming))]
pub(crate) fn form<T: Copy>(cells: &mut [Cell<T>]) -> Chain
    requires { length cells.old ≤ most_cells }
    ensures sound { Sound cells.new result }
    ensures empty { items cells.new result ≡ [] }
{
    let mut free = 0;
    // By number, since what a link holds is the number of a cell.
    for n in (1..=cells.len() as u16).rev() {
        link_at(cells, n, free);
        free = n;
    }
    Chain {
        first: 0,
        last: 0,
        free,
        count: 0,
    }
}
