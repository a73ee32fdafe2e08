// The body of a report, read.
ghost use Rattle.std.specs.Prelude.{◌≡◌, ◌-◌, ◌/◌, ◌≤◌, length, take, drop, map, Ok};
ghost use Rattle.std.specs.Simd.{first_chunks};
ghost use Rattle.reports.specs.Layout.{head_size, visit_size, most_visits, header_at, visit_at};
ghost use Rattle.reports.specs.Faults.{unless, or_else, in_body};
ghost use Rattle.blocks.specs.declared.answers.Refusal.TheVariants.{ReportHeader};
ghost use Rattle.reports.specs.Opening.{head_fault, visits_fault};

use crate::fault::{Fault, Layer};
use crate::visit::{HEAD, Header, LETTERS, MOST_NUMBER, VISIT, Visit};
use blocks::Refusal;
use blocks::octets::Number;

// A body in its parts: what stands before the visits, and the visits.
#[derive(Clone, Copy)]
pub(crate) struct Body<'a> {
    pub(crate) head: &'a [u8; HEAD],
    pub(crate) visits: &'a [[u8; VISIT]],
    ghost few: { length visits.now ≤ most_visits },
}

impl<'a> Body<'a> {
    // Takes octets apart.
    pub(crate) fn of(octets: &'a [u8]) -> Body<'a>
        requires long { head_size ≤ length octets.now }
        requires few { (length octets.now - head_size) / visit_size ≤ most_visits }
        ensures head { result.head.now ≡ take head_size octets.now }
        ensures visits { result.visits.now ≡ first_chunks visit_size ((length octets.now - head_size) / visit_size) (drop head_size octets.now) }
    {
        let (head, rest) = octets.split_first_chunk().unwrap();
        let (visits, _) = rest.as_chunks();
        Body { head, visits }
    }

    // What the body says, or the first part of it that is wrong.
    pub(crate) fn read(&self) -> Result<Header, Fault>
        ensures { result ≡ unless (or_else (head_fault (length self.now.visits.now) self.now.head.now) (visits_fault head_size 0 (map visit_at self.now.visits.now))) (Ok (header_at self.now.head.now)) }
    {
        let header = read_head(self.head, self.visits.len())?;
        self.check_visits()?;
        Ok(header)
    }

    // The first visit that is wrong, if any. A closure that reads a visit, shared with `visits_lawful`, would be no plainer.
    fn check_visits(&self) -> Result<(), Fault>
        ensures { result ≡ unless (visits_fault head_size 0 (map visit_at self.now.visits.now)) (Ok tt) }
    {
        let mut last = 0;
        for (i, octets) in self.visits.iter().enumerate() {
            let visit = Visit::from_octets(octets);
            if !visit.is_lawful(last) {
                return Err(Layer::Body.fault(Refusal::UnlawfulVisit, HEAD + VISIT * i));
            }
            last = visit.read;
        }
        Ok(())
    }
}

// The fault of a field before the visits.
fn wrong(place: usize) -> Fault
    ensures { result ≡ in_body ReportHeader place }
{
    Layer::Body.fault(Refusal::ReportHeader, place)
}

// What stands before so many visits, or the first field that is wrong.
fn read_head(head: &[u8; HEAD], visits: usize) -> Result<Header, Fault>
    ensures { result ≡ unless (head_fault visits head.now) (Ok (header_at head.now)) }
{
    let (words, _) = head.as_chunks();
    let wand = u32::number(&words[1]);
    let number = u32::number(&words[2]);
    let [c0, c1, s0, s1] = words[3];
    let count = u16::number(&[c0, c1]);
    let site = u16::number(&[s0, s1]);
    if words[0] != LETTERS {
        Err(wrong(0))
    } else if wand == 0 {
        Err(wrong(4))
    } else if number == 0 || number > MOST_NUMBER {
        Err(wrong(8))
    } else if count as usize != visits {
        Err(wrong(12))
    } else if site == 0 {
        Err(wrong(14))
    } else {
        Ok(Header { wand, number, site })
    }
}
