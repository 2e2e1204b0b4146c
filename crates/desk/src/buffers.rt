// Places for what is read and for what is printed.
ghost use Rattle.std.specs.Prelude.{◌≡◌, length};

// of an argument: no name of a file is longer
pub(crate) const ARGUMENT: usize = 4096;

// of a piece of an input
pub(crate) const PIECE: usize = 65536;

// Empty places.
pub(crate) fn zeros<const N: usize>() -> [u8; N]
    ensures { N ≡ length result }
{
    [0; N]
}
