// Sealing a list of visits.
ghost use Rattle.std.specs.Prelude.{◌≡◌, length};
ghost use Rattle.blocks.specs.Written.{written};
ghost use Rattle.reports.specs.Layout.{report_of};
ghost use Rattle.reports.specs.Sealing.{SameSealer, sealer_of, sealed, text_size, seal_answer};
ghost use Rattle.reports.specs.Exact.{SealsExactly};

use crate::report::Report;
use crate::sealing::{MOST_BODY, START, SUM, Sealer, encipher, start_of, sum_of};
use crate::visit::{Header, Visit};
use blocks::{Block, Refusal};

impl<S: Block, C: Block> Sealer<'_, S, C> {
    // Writes the sealed text of a lawful list to the front of the output. It refuses what the office would: 43 for what stands before the
    // visits, 44 for a visit; and then 31 for a short output. Header and visits come apart, as the wand has them.
    pub fn seal_list(
        &mut self,
        header: Header,
        visits: &[Visit],
        out: &mut [u8],
    ) -> Result<usize, Refusal>
        ensures answer { result ≡ seal_answer (report_of header visits.now) (length out.old) }
        ensures text { out.new ≡ written result (sealed (sealer_of S.meaning C.meaning self.old) (report_of header visits.now)) out.old }
        ensures exact { SealsExactly (report_of header visits.now) (length out.old) result }
        ensures same { SameSealer S.meaning C.meaning self.old self.new }
    {
        let report = Report::lawful(header, visits)?;
        let n = START + report.body_size() + SUM;
        if out.len() < n {
            return Err(Refusal::ShortOutput);
        }
        self.write_sealed(&report, &mut out[..n]);
        Ok(n)
    }

    // Writes the sealed text of a report.
    #[tactic(auto, using(crate::proofs::Sealable::sealed_is))]
    fn write_sealed(&mut self, report: &Report, out: &mut [u8])
        requires { length out.old ≡ text_size (length report.now.visits.now) }
        ensures text { out.new ≡ sealed (sealer_of S.meaning C.meaning self.old) (report_of report.now.header report.now.visits.now) }
        ensures same { SameSealer S.meaning C.meaning self.old self.new }
    {
        // On the stack: the device has no heap.
        let mut room = [0; MOST_BODY];
        let body = &mut room[..report.body_size()];
        report.write_body(body);
        let start = start_of(self.seal, report.header);
        let n = out.len() - SUM;
        let (front, sum) = out.split_at_mut(n);
        let (first, rest) = front.split_at_mut(START);
        first.copy_from_slice(&start);
        encipher(self.seal, start, body, rest);
        sum.copy_from_slice(&sum_of(self.check, front));
    }
}
