// Scratch that ends as zeros.
ghost use Rattle.std.specs.Prelude.{◌≡◌, length, replicate};

// Holds the scratch while the work runs, and zeroes all of it at its end, on every way out. Each call that is lent scratch says so of
// itself too, since its caller sees no guard.
pub struct Wipe<'a> {
    pub scratch: &'a mut [u8],
}

impl Drop for Wipe<'_> {
    fn drop(self)
        ensures { self.exit.0.now ≡ replicate (length self.entry.scratch.now) 0 }
    {
        clear(self.scratch);
        let Wipe { scratch: _ } = self;
    }
}

// Writes zeros over every octet.
fn clear(scratch: &mut [u8])
    ensures { scratch.new ≡ replicate (length scratch.old) 0 }
{
    scratch.fill(0);
}
