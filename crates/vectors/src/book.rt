// The book: books of no, one, 4,096 and 5,000 cells, cells that serve again, and refusals that change nothing.
ghost use Rattle.std.specs.Prelude.{◌≡◌, ◌≤◌, min, length, take, Some};
ghost use Rattle.books.specs.Books.{elements};

use blocks::Refusal;
use books::{Book, Cell};
use std::process::Abort;

// What a caller can prove from the contracts alone: of two elements, the second is left when the first was taken.
fn second_of_two(cells: &mut [Cell<u32>], a: u32, b: u32) -> Option<u32>
    ensures { 2 ≤ length cells.old → result ≡ Some b }
{
    let mut book = Book::new(cells);
    // A short book refuses here, and the clause speaks of no such book.
    let _ = book.add_last(a);
    let _ = book.add_last(b);
    let _ = book.take_first();
    book.read(1)
}

// And one element in sixteen cells leaves fifteen free.
fn free_of_sixteen(a: u32) -> usize
    ensures { result ≡ 15 }
{
    let cell = Cell::new(0);
    let mut cells = [cell; 16];
    let mut book = Book::new(&mut cells);
    book.add_last(a).unwrap();
    book.free()
}

// Copies elements out, first to last, until there is no more room or no further element; answers how many.
fn copy_out(book: &Book<u32>, out: &mut [u32]) -> usize
    ensures copied { take result out.new ≡ take result (elements book.now) }
    ensures count { result ≡ min (length out.new) (length (elements book.now)) }
{
    for (i, slot) in out.iter_mut().enumerate() {
        let Some(element) = book.read(i + 1) else {
            return i;
        };
        *slot = element;
    }
    out.len()
}

#[test]
fn proved_callers(rt: HostRuntime) {
    let mut cells = [Cell::new(0); 2];
    assert_eq!(rt; second_of_two(&mut cells, 5, 6), Some(6));
    assert_eq!(rt; free_of_sixteen(5), 15);
    let mut book = Book::new(&mut cells);
    assert_eq!(rt; book.add_last(8), Ok(()));
    let mut out = [0; 3];
    assert_eq!(rt; copy_out(&book, &mut out), 1);
    assert_eq!(rt; out, [8, 0, 0]);
}

#[test]
fn no_cell(rt: HostRuntime) {
    let mut book: Book<u32> = Book::new(&mut []);
    assert_eq!(rt; book.len(), 0);
    assert_eq!(rt; book.free(), 0);
    assert_eq!(rt; book.add_last(1), Err(Refusal::TooFewCells));
    assert_eq!(rt; book.take_first(), None);
    assert_eq!(rt; book.read(0), None);
    assert_eq!(rt; book.read(1), None);
}

#[test]
fn one_cell(rt: HostRuntime) {
    let mut cells = [Cell::new(0); 1];
    let mut book = Book::new(&mut cells);
    assert_eq!(rt; book.take_first(), None);
    assert_eq!(rt; book.add_last(7), Ok(()));
    assert_eq!(rt; book.add_last(8), Err(Refusal::TooFewCells));
    assert_eq!(rt; book.len(), 1);
    assert_eq!(rt; book.free(), 0);
    assert_eq!(rt; book.read(0), None);
    assert_eq!(rt; book.read(1), Some(7));
    assert_eq!(rt; book.read(2), None);
    assert_eq!(rt; book.take_first(), Some(7));
    assert_eq!(rt; book.take_first(), None);
    assert_eq!(rt; book.add_last(9), Ok(()));
    assert_eq!(rt; book.take_first(), Some(9));
}

// Fills a book, which then refuses and stays as it was, and empties it again.
fn fill_and_empty(rt: &impl Abort, cells: &mut [Cell<usize>], capacity: usize) {
    let mut book = Book::new(cells);
    for i in 0..capacity {
        assert_eq!(rt; book.free(), capacity - i);
        assert_eq!(rt; book.add_last(i), Ok(()));
    }
    assert_eq!(rt; book.add_last(capacity), Err(Refusal::TooFewCells));
    assert_eq!(rt; book.len(), capacity);
    assert_eq!(rt; book.free(), 0);
    assert_eq!(rt; book.read(0), None);
    assert_eq!(rt; book.read(1), Some(0));
    assert_eq!(rt; book.read(7), Some(6));
    assert_eq!(rt; book.read(capacity), capacity.checked_sub(1));
    assert_eq!(rt; book.read(usize::MAX), None);
    for i in 0..capacity {
        assert_eq!(rt; book.take_first(), Some(i));
    }
    assert_eq!(rt; book.take_first(), None);
    assert_eq!(rt; book.free(), capacity);
}

// No more than 4,096 cells are used; a book over cells that were used before is empty.
#[test]
fn many_cells(rt: HostRuntime) {
    let mut cells = [Cell::new(0); 4096];
    fill_and_empty(&rt, &mut cells, 4096);
    fill_and_empty(&rt, &mut cells, 4096);
    let mut more = [Cell::new(0); 5000];
    fill_and_empty(&rt, &mut more, 4096);
}

// Two are added and one is taken until the book is full, and then one is added and one is taken: freed cells serve over and over.
#[test]
fn cells_serve_again(rt: HostRuntime) {
    let mut cells = [Cell::new(0); 5];
    let mut book = Book::new(&mut cells);
    let mut waiting = 0..1000u32;
    for i in 0..1000u32 {
        assert_eq!(rt; book.add_last(i), Ok(()));
        if i % 2 == 1 || book.free() == 0 {
            assert_eq!(rt; book.take_first(), waiting.next());
        }
        assert_eq!(rt; book.read(1), Some(waiting.start));
        assert_eq!(rt; book.read(book.len()), Some(i));
    }
    assert_eq!(rt; book.len(), 4);
}
