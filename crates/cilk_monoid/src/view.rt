//! Views: the values that a reducer's monoid multiplies, as a worker holds them during a run. The
//! types guarantee that their numbers are words.

ghost use Rattle.std.specs.Prelude.{All};
ghost use Rattle.std.proofs.Props.{props};
ghost use Rattle.cilk_types.specs.Word.{IsWord};

/// A view that is a word. Its products don't allocate.
#[derive(Clone, Copy)]
pub struct NumberView {
    pub number: i64,
    ghost word: { IsWord number },
}

/// A view that is a list of words, with room to append more.
#[derive(Drop)]
pub struct ListView {
    pub items: Vec<i64>,
    ghost words: { All IsWord items.items } by { Prim.hlevel props },
}

/// A view that is the map `y -> factor * y + offset` on words. Its products don't allocate.
#[derive(Clone, Copy)]
pub struct AffineView {
    pub factor: i64,
    pub offset: i64,
    ghost factor_word: { IsWord factor },
    ghost offset_word: { IsWord offset },
}
