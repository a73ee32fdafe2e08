// Why a call refuses, and the number that says so.
ghost use Rattle.std.specs.Prelude.{◌≡◌};
ghost use Rattle.blocks.specs.Answers.{refusal_number, answer_number, NumbersApart};

// Every refusal of the product. The tens say whose hand is behind it: the door, the guard, the firmware, the office, the key room.
#[derive(Clone, Copy, Debug, PartialEq, Eq)]
pub enum Refusal {
    // The tag text does not have 24 octets.
    TagLength = 11,
    // It does not begin with its letters.
    TagLetters = 12,
    // Its checksum is another.
    TagChecksum = 13,
    // Its site or checkpoint is zero, or a reserved octet is not.
    TagFields = 14,
    // It is of another site.
    OtherSite = 15,
    // A read waits to be marked or let go.
    ReadWaits = 21,
    // All 512 records are visits.
    RecordsFull = 22,
    // 60,000 reads were accepted.
    ReadsSpent = 23,
    // No read waits, or the wand or the read number carried is not the waiting read's.
    NoSuchRead = 24,
    // No read waits that could be given up.
    NothingToGiveUp = 25,
    // A line of the bench program is malformed.
    MalformedLine = 26,
    // The output or the scratch is short.
    ShortOutput = 31,
    // The message has more than 65,536 octets.
    LongMessage = 32,
    // The message has fewer than 16 octets, in ECB or CBC.
    ShortMessage = 33,
    // The key's length is unknown, or the new key would be longer than the old.
    KeyLength = 34,
    // The key text does not have 16 to 256 octets.
    KeyTextLength = 35,
    // A wand number, site or checkpoint is zero.
    ZeroNumber = 36,
    // 60,000 reports were sealed.
    ReportsSpent = 37,
    // The report's length is none that a report can have.
    ReportLength = 41,
    // The report's checksum is another.
    ReportChecksum = 42,
    // Its letters are others, or a field of its header is not lawful.
    ReportHeader = 43,
    // One of its visits is not lawful.
    UnlawfulVisit = 44,
    // Its start is another.
    ReportStart = 45,
    // The book has too few free cells.
    TooFewCells = 46,
    // The report is not the one that awaits its receipt.
    NotAwaited = 47,
    // The receipt's hash is not that of the report.
    HashDiffers = 48,
    // The wrapped text does not have 32 to 272 octets.
    WrappedLength = 51,
    // The wrapped text was not made under this header.
    HeaderDiffers = 52,
}

impl Refusal {
    // The number in answers. A method and no `From`, whose clause could not say that no two share a number.
    pub fn number(self) -> u8
        ensures number { result ≡ refusal_number self }
        ensures apart { NumbersApart }
    {
        self as u8
    }
}

// The number of an answer, zero where the call was accepted: C takes a number.
pub fn answer_number<T>(answer: &Result<T, Refusal>) -> u8
    ensures { result ≡ answer_number answer.now }
{
    match answer {
        Ok(_) => 0,
        Err(refusal) => refusal.number(),
    }
}
