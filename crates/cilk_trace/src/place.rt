//! The place of a reader in a text.

ghost use Rattle.std.specs.Prelude.{◌≡◌, false, IsTrue};
ghost use Rattle.cilk_trace.specs.declared.place.Place.TheVariants.{Over};

/// The part of the text that is due next.
#[derive(Clone, Copy)]
pub enum Place {
    /// The first line, `cilktrace 1`.
    Header,
    /// A line of the trace.
    Lines,
    /// Nothing: `end` was read.
    Over,
}

impl Place {
    /// Tells whether nothing is due.
    pub(crate) fn is_over(self) -> bool
        ensures yes { IsTrue result → self ≡ Over }
        ensures no { result ≡ false → self ≡ Over → ⊥ }
    {
        matches!(self, Place::Over)
    }
}
