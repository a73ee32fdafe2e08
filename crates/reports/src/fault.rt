// Faults: what is wrong with a report that was refused, in which layer, and where.
ghost use Rattle.std.specs.Prelude.{◌≡◌};
ghost use Rattle.reports.specs.Faults.{layer_number};

use blocks::Refusal;

// What a fault's place is a place of.
#[derive(Clone, Copy, Debug, PartialEq, Eq)]
pub enum Layer {
    // The text as it came; a place is an octet of it.
    Text = 1,
    // The body inside; a place is an octet of it.
    Body = 2,
    // The visit book; a place is the number of its free cells.
    Book = 3,
}

impl Layer {
    // The number in answers; a method, as a refusal's is.
    pub fn number(self) -> u8
        ensures { result ≡ layer_number self }
    {
        self as u8
    }

    // A fault of this layer, at a place.
    pub(crate) fn fault(self, refusal: Refusal, place: usize) -> Fault
        ensures { result ≡ record { refusal = refusal; layer = self; place = place } }
    {
        Fault {
            refusal,
            layer: self,
            place,
        }
    }
}

// Why a report was refused, and the place that shows it.
#[derive(Clone, Copy, Debug, PartialEq, Eq)]
pub struct Fault {
    pub refusal: Refusal,
    pub layer: Layer,
    pub place: usize,
}
