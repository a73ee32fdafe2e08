// The plain values of a report, and their octets.
ghost use Rattle.std.specs.Prelude.{◌≡◌, true, [], replicate};
ghost use Rattle.reports.specs.Layout.{visit_of, head_of, report_of, visit_at};
ghost use Rattle.reports.specs.Lawful.{LawfulVisit};
ghost use Rattle.reports.specs.Sealing.{seed_of, visit_ok};

use blocks::octets::Number;

// A visit: a door, the tag that was read there, when, and the number of the read.
#[derive(Clone, Copy, Debug, PartialEq, Eq)]
pub struct Visit {
    pub checkpoint: u16,
    pub serial: u32,
    // In seconds, as the wand was told.
    pub time: u32,
    // Counts the accepted reads of a wand from 1.
    pub read: u32,
}

// What stands before the visits, but for their count.
#[derive(Clone, Copy, Debug, PartialEq, Eq)]
pub struct Header {
    // The number of the wand that sealed the report.
    pub wand: u32,
    // Counts the reports of a wand from 1.
    pub number: u32,
    pub site: u16,
}

// The most visits of a report.
pub const MOST_VISITS: usize = 512;

// The last read number, and the last report number.
pub const MOST_NUMBER: u32 = 60_000;

// The octets before the visits, and those of a visit.
pub(crate) const HEAD: usize = 16;

pub(crate) const VISIT: usize = 14;

// The letters that a body begins with.
pub(crate) const LETTERS: [u8; 4] = *b"BRPT";

impl Visit {
    // Its octets. Named as the language names its own (`to_le_bytes`), where a `From` would not say which octets.
    pub(crate) fn to_octets(self) -> [u8; VISIT]
        ensures { result ≡ visit_of self }
    {
        let [c0, c1] = self.checkpoint.field();
        let [s0, s1, s2, s3] = self.serial.field();
        let [t0, t1, t2, t3] = self.time.field();
        let [r0, r1, r2, r3] = self.read.field();
        [c0, c1, s0, s1, s2, s3, t0, t1, t2, t3, r0, r1, r2, r3]
    }

    // What octets say.
    pub(crate) fn from_octets(octets: &[u8; VISIT]) -> Visit
        ensures { result ≡ visit_at octets.now }
    {
        let [c0, c1, s0, s1, s2, s3, t0, t1, t2, t3, r0, r1, r2, r3] = *octets;
        Visit {
            checkpoint: u16::number(&[c0, c1]),
            serial: u32::number(&[s0, s1, s2, s3]),
            time: u32::number(&[t0, t1, t2, t3]),
            read: u32::number(&[r0, r1, r2, r3]),
        }
    }

    // Whether it is lawful after the read number `last`.
    pub(crate) fn is_lawful(self, last: u32) -> bool
        ensures answer { result ≡ visit_ok last self }
        ensures lawful { result ≡ true → LawfulVisit last self }
    {
        self.checkpoint > 0 && self.read > last && self.read <= MOST_NUMBER
    }
}

impl Header {
    // The octets that stand before so many visits.
    pub(crate) fn to_octets(self, count: u16) -> [u8; HEAD]
        ensures { result ≡ head_of count (report_of self []) }
    {
        let [l0, l1, l2, l3] = LETTERS;
        let [w0, w1, w2, w3] = self.wand.field();
        let [n0, n1, n2, n3] = self.number.field();
        let [c0, c1] = count.field();
        let [s0, s1] = self.site.field();
        [
            l0, l1, l2, l3, w0, w1, w2, w3, n0, n1, n2, n3, c0, c1, s0, s1,
        ]
    }

    // What the start of its report is the image of.
    pub(crate) fn seed(self) -> [u8; 16]
        ensures { result ≡ seed_of self.wand self.number }
    {
        let [w0, w1, w2, w3] = self.wand.field();
        let [n0, n1, n2, n3] = self.number.field();
        [w0, w1, w2, w3, n0, n1, n2, n3, 0, 0, 0, 0, 0, 0, 0, 0]
    }
}
