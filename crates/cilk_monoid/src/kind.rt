//! The monoids that programs name.

ghost use Rattle.std.specs.Prelude.{◌≡◌};
ghost use Rattle.cilk_monoid.specs.Kinds.{kind_named};

/// A monoid, by its name in a program.
#[derive(Clone, Copy, PartialEq, Eq)]
pub enum MonoidKind {
    /// `add`: the sum of words, which wraps.
    Add,
    /// `min`: the least word.
    Least,
    /// `max`: the greatest word.
    Greatest,
    /// `append`: lists of words, concatenated.
    Append,
    /// `affine`: maps `y -> factor * y + offset`, composed with the left one first.
    Affine,
}

impl MonoidKind {
    /// Returns the monoid with this name.
    pub fn named(name: &[u8]) -> Option<MonoidKind>
        ensures { result ≡ kind_named name.now }
    {
        if name == b"add".as_slice() {
            Some(MonoidKind::Add)
        } else if name == b"min".as_slice() {
            Some(MonoidKind::Least)
        } else if name == b"max".as_slice() {
            Some(MonoidKind::Greatest)
        } else if name == b"append".as_slice() {
            Some(MonoidKind::Append)
        } else if name == b"affine".as_slice() {
            Some(MonoidKind::Affine)
        } else {
            None
        }
    }
}
