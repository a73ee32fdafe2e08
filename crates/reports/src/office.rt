// The office: reports are opened into a book of visits, and faults are filed in a book of their own.
ghost use Rattle.std.specs.Prelude.{◌≡◌, ◌+◌, ◌-◌, ◌≤◌, true, false, ◌++◌, length, take, drop, map, is_ok, MatchResult};
ghost use Rattle.blocks.specs.declared.answers.Refusal.TheVariants.{ReportLength, TooFewCells};
ghost use Rattle.books.specs.Books.{elements, capacity};
ghost use Rattle.books.specs.Lists.{Adds};
ghost use Rattle.reports.specs.Layout.{most_visits, body_size, visit_at};
ghost use Rattle.reports.specs.Sealing.{SameSealer, start_size, sum_size, sealer_of};
ghost use Rattle.reports.specs.Faults.{in_text};
ghost use Rattle.reports.specs.Opening.{count_of, sized, front_part, body_in, decode_answer, open_answer, opened_of, held_after, free_cells_in};
ghost use Rattle.reports.specs.Exact.{OpensExactly};

use crate::body::Body;
use crate::fault::{Fault, Layer};
use crate::sealing::{MOST_BODY, START, SUM, Sealer, decipher, start_of, sum_of};
use crate::visit::{HEAD, Header, MOST_VISITS, VISIT, Visit};
use blocks::{Block, Refusal};
use books::Book;

// The octets of a text without visits.
const REST: usize = START + HEAD + SUM;

// What opening a report tells: whose it is, and how many visits it brought.
#[derive(Clone, Copy, Debug, PartialEq, Eq)]
pub struct Opened {
    pub header: Header,
    pub visits: usize,
}

// A text as long as a report can be.
#[derive(Clone, Copy)]
struct Text<'a> {
    octets: &'a [u8],
    ghost sized: { sized (length octets.now) ≡ true },
}

impl<'a> Text<'a> {
    // A fault and no error of its own kind, so no `TryFrom`.
    fn of(octets: &'a [u8]) -> Result<Text<'a>, Fault>
        ensures { MatchResult result (λ t. (t.octets.now ≡ octets.now) × (sized (length octets.now) ≡ true)) (λ f. (f ≡ in_text ReportLength 0) × (sized (length octets.now) ≡ false)) }
    {
        let n = octets.len();
        let v = n.saturating_sub(REST) / VISIT;
        if v <= MOST_VISITS && n == REST + VISIT * v {
            Ok(Text { octets })
        } else {
            Err(Layer::Text.fault(Refusal::ReportLength, 0))
        }
    }

    // All before the checksum.
    fn front(&self) -> &'a [u8]
        ensures { result.now ≡ front_part self.now.octets.now }
    {
        &self.octets[..self.octets.len() - SUM]
    }

    // The checksum.
    fn sum(&self) -> &'a [u8; SUM]
        ensures { result.now ≡ drop (length self.now.octets.now - sum_size) self.now.octets.now }
    {
        self.octets.last_chunk().unwrap()
    }

    // The start.
    fn start(&self) -> &'a [u8; START]
        ensures { result.now ≡ take start_size self.now.octets.now }
    {
        self.octets.first_chunk().unwrap()
    }

    // The body, enciphered.
    fn body(&self) -> &'a [u8]
        ensures part { result.now ≡ drop start_size (front_part self.now.octets.now) }
        ensures size { length result.now ≡ body_size (count_of (length self.now.octets.now)) }
        ensures within { length result.now ≤ body_size most_visits }
    {
        &self.front()[START..]
    }
}

impl<S: Block, C: Block> Sealer<'_, S, C> {
    // Opens a report: its visits go to the end of the book, in order; refused, nothing is altered.
    pub fn open(&mut self, book: &mut Book<Visit>, text: &[u8]) -> Result<Opened, Fault>
        ensures answer { result ≡ opened_of (open_answer (sealer_of S.meaning C.meaning self.old) (free_cells_in book.old) text.now) }
        ensures held { elements book.new ≡ held_after (elements book.old) (open_answer (sealer_of S.meaning C.meaning self.old) (free_cells_in book.old) text.now) }
        ensures exact { OpensExactly (sealer_of S.meaning C.meaning self.old) (free_cells_in book.old) text.now (elements book.old) (elements book.new) result }
        ensures capacity { capacity book.new ≡ capacity book.old }
        ensures untouched { is_ok result ≡ false → book.new ≡ book.old }
        ensures same { SameSealer S.meaning C.meaning self.old self.new }
    {
        let text = Text::of(text)?;
        // On the stack: a call cannot fail for memory.
        let mut room = [0; MOST_BODY];
        let body = &mut room[..text.body().len()];
        let header = self.decode(&text, body)?;
        let visits = Body::of(body).visits;
        let free = book.free();
        if visits.len() > free {
            return Err(Layer::Book.fault(Refusal::TooFewCells, free));
        }
        add_visits(book, visits);
        Ok(Opened {
            header,
            visits: visits.len(),
        })
    }

    // What stands before the visits of a text; `body` then holds the body.
    fn decode(&mut self, text: &Text, body: &mut [u8]) -> Result<Header, Fault>
        requires { length body.old ≡ body_size (count_of (length text.now.octets.now)) }
        ensures answer { result ≡ decode_answer (sealer_of S.meaning C.meaning self.old) (count_of (length text.now.octets.now)) text.now.octets.now }
        ensures body { is_ok result ≡ true → body.new ≡ body_in (sealer_of S.meaning C.meaning self.old) text.now.octets.now }
        ensures same { SameSealer S.meaning C.meaning self.old self.new }
    {
        let sum = sum_of(self.check, text.front());
        if *text.sum() != sum {
            let place = text.front().len();
            return Err(Layer::Text.fault(Refusal::ReportChecksum, place));
        }
        let start = *text.start();
        decipher(self.seal, start, text.body(), body);
        let header = Body::of(body).read()?;
        let right = start_of(self.seal, header);
        if start != right {
            return Err(Layer::Text.fault(Refusal::ReportStart, 0));
        }
        Ok(header)
    }
}

// Files a fault at the end of a book of faults. (That a book's capacity stays is said of each call here: it is lent as `&mut`.)
pub fn file(book: &mut Book<Fault>, fault: Fault) -> Result<(), Refusal>
    ensures filed { Adds (capacity book.old) TooFewCells (elements book.old) fault (elements book.new) result }
    ensures capacity { capacity book.new ≡ capacity book.old }
{
    book.add_last(fault)
}

// Adds visits to a book that has room for them.
fn add_visits(book: &mut Book<Visit>, visits: &[[u8; VISIT]])
    requires { length (elements book.old) + length visits.now ≤ capacity book.old }
    ensures added { elements book.new ≡ elements book.old ++ map visit_at visits.now }
    ensures capacity { capacity book.new ≡ capacity book.old }
{
    for octets in visits {
        book.add_last(Visit::from_octets(octets)).unwrap();
    }
}
