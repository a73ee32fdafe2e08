// A report that may be sealed.
ghost use Rattle.std.specs.Prelude.{◌≡◌, ◌≤◌, true, length, Some, None, MatchResult, IfOk};
ghost use Rattle.reports.specs.Layout.{most_visits, body_size, body_of, report_of};
ghost use Rattle.reports.specs.Lawful.{LawfulVisits};
ghost use Rattle.reports.specs.Sealing.{head_ok, visits_ok, law_broken};

use crate::places::put;
use crate::visit::{HEAD, Header, MOST_NUMBER, MOST_VISITS, VISIT, Visit};
use blocks::Refusal;

// What stands before the visits, and the visits.
#[derive(Clone, Copy)]
pub(crate) struct Report<'a> {
    pub(crate) header: Header,
    pub(crate) visits: &'a [Visit],
    ghost few: { length visits.now ≤ most_visits },
}

impl<'a> Report<'a> {
    // A lawful report. It refuses what the office would: 43 for what stands before the visits, 44 for a visit.
    pub(crate) fn lawful(header: Header, visits: &'a [Visit]) -> Result<Report<'a>, Refusal>
        ensures answer { MatchResult result (λ r. law_broken (report_of header visits.now) ≡ None) (λ e. law_broken (report_of header visits.now) ≡ Some e) }
        ensures made { IfOk result (λ r. (r.header ≡ header) × (r.visits.now ≡ visits.now) × LawfulVisits 0 visits.now) }
    {
        if !head_lawful(header, visits) {
            return Err(Refusal::ReportHeader);
        }
        if !visits_lawful(visits) {
            return Err(Refusal::UnlawfulVisit);
        }
        Ok(Report { header, visits })
    }

    // The octets of its body.
    pub(crate) fn body_size(&self) -> usize
        ensures { result ≡ body_size (length self.now.visits.now) }
    {
        HEAD + VISIT * self.visits.len()
    }

    // Writes its body.
    pub(crate) fn write_body(&self, out: &mut [u8])
        requires { length out.old ≡ body_size (length self.now.visits.now) }
        ensures { out.new ≡ body_of (report_of self.now.header self.now.visits.now) }
    {
        let (head, rest) = out.split_at_mut(HEAD);
        head.copy_from_slice(&self.header.to_octets(self.visits.len() as u16));
        // By place: what a zip with `chunks_exact_mut` writes is not known to a proof.
        for (i, v) in self.visits.iter().enumerate() {
            put(rest, VISIT * i, &v.to_octets());
        }
    }
}

// Whether what stands before the visits is lawful. This and the next say yes or no, and `lawful` says with which refusal.
fn head_lawful(header: Header, visits: &[Visit]) -> bool
    ensures { result ≡ head_ok (report_of header visits.now) }
{
    header.wand > 0
        && (header.number > 0 && header.number <= MOST_NUMBER)
        && header.site > 0
        && visits.len() <= MOST_VISITS
}

// Whether each visit is lawful after the one before it. The office's walk reads its visits from octets and says where it stopped; one
// function for both would take two closures.
fn visits_lawful(visits: &[Visit]) -> bool
    ensures answer { result ≡ visits_ok 0 visits.now }
    ensures lawful { result ≡ true → LawfulVisits 0 visits.now }
{
    let mut last = 0;
    for v in visits {
        if !v.is_lawful(last) {
            return false;
        }
        last = v.read;
    }
    true
}
