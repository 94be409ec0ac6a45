//! Bytes up to a limit, held in place.
ghost use Rattle.std.specs.Prelude.{◌≤◌};

// The library's `ArrayVec` is not `Copy`, and a request, which holds such texts, is.
/// Bytes of which there are 0 to `N`: the first `len` of the array.
#[derive(Clone, Copy)]
pub struct Bounded<const N: usize> {
    pub(crate) bytes: [u8; N],
    pub(crate) len: usize,
    ghost within: { len ≤ N },
}
