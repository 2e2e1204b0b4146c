// The line that is held, in the buffer that it was read into.
ghost use Rattle.std.specs.Prelude.{◌≡◌, length, take};
ghost use Rattle.desk.specs.Limits.{longest_line};

use crate::buffers::zeros;

// the longest line that is read
const LONGEST: usize = 65536;

// Places for a line.
// stays: a function of its own, since its clause says that LONGEST is the longest line of the limits
pub(crate) fn places() -> [u8; LONGEST]
    ensures { longest_line ≡ length result }
{
    zeros()
}

// The first n bytes of a line, or all where it has fewer.
pub(crate) fn first_bytes(n: usize, line: &[u8]) -> &[u8]
    ensures { result.now ≡ take n line.now }
{
    &line[..n.min(line.len())]
}
