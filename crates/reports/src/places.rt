// Octets at a place of an output.
ghost use Rattle.std.specs.Prelude.{◌≡◌, ◌+◌, ◌≤◌, length};
ghost use Rattle.reports.specs.Places.{overlaid};

pub(crate) fn put(out: &mut [u8], at: usize, octets: &[u8])
    requires { at + length octets.now ≤ length out.old }
    ensures { out.new ≡ overlaid at octets.now out.old }
{
    out[at..at + octets.len()].copy_from_slice(octets);
}
