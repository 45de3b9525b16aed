//! The monoids of words: `add`, `min` and `max`.

ghost use Rattle.cilk_monoid.specs.Kinds.{structure_of, IsMember};
ghost use Rattle.cilk_monoid.specs.declared.kind.MonoidKind.{MonoidKind};
ghost use Rattle.cilk_monoid.specs.Views.{number_value, unlimited};
ghost use Rattle.cilk_monoid.specs.Lawful.{lawful};

use crate::kind::MonoidKind;
use crate::monoid::Monoid;
use crate::view::NumberView;
use cilk_types::word;
use std::alloc::{AllocError, Global};

/// `add`: the sum of two words, which wraps. The unit is 0.
#[derive(Clone, Copy)]
pub struct Add;

impl Monoid for Add {
    type View = NumberView;

    ghost structure = { structure_of MonoidKind.Add };

    ghost IsMember = { IsMember MonoidKind.Add };

    ghost value = { number_value };

    ghost reserved = { λ _. unlimited };

    ghost lawful = { lawful MonoidKind.Add };

    ghost members = { λ v. v.word };

    fn unit(_alloc: Global) -> NumberView {
        NumberView { number: 0 }
    }

    fn single(_alloc: Global, x: i64) -> Result<NumberView, AllocError> {
        Ok(NumberView { number: x })
    }

    fn update(_alloc: Global, view: &mut NumberView, x: i64) -> Result<(), AllocError> {
        view.number = word::add(view.number, x);
        Ok(())
    }

    fn combine(
        _alloc: Global,
        left: NumberView,
        right: NumberView,
    ) -> Result<NumberView, (NumberView, NumberView)> {
        Ok(NumberView {
            number: word::add(left.number, right.number),
        })
    }

    fn number(view: &NumberView) -> i64 {
        view.number
    }

    fn size(_view: &NumberView) -> usize {
        0
    }

    fn room(_alloc: Global, _view: &mut NumberView, _size: usize) -> Result<(), AllocError> {
        Ok(())
    }
}

/// `min`: the lesser of two words. The unit is the greatest word.
#[derive(Clone, Copy)]
pub struct Least;

impl Monoid for Least {
    type View = NumberView;

    ghost structure = { structure_of MonoidKind.Least };

    ghost IsMember = { IsMember MonoidKind.Least };

    ghost value = { number_value };

    ghost reserved = { λ _. unlimited };

    ghost lawful = { lawful MonoidKind.Least };

    ghost members = { λ v. v.word };

    fn unit(_alloc: Global) -> NumberView {
        NumberView { number: i64::MAX }
    }

    fn single(_alloc: Global, x: i64) -> Result<NumberView, AllocError> {
        Ok(NumberView { number: x })
    }

    fn update(_alloc: Global, view: &mut NumberView, x: i64) -> Result<(), AllocError> {
        view.number = view.number.min(x);
        Ok(())
    }

    fn combine(
        _alloc: Global,
        left: NumberView,
        right: NumberView,
    ) -> Result<NumberView, (NumberView, NumberView)> {
        Ok(NumberView {
            number: left.number.min(right.number),
        })
    }

    fn number(view: &NumberView) -> i64 {
        view.number
    }

    fn size(_view: &NumberView) -> usize {
        0
    }

    fn room(_alloc: Global, _view: &mut NumberView, _size: usize) -> Result<(), AllocError> {
        Ok(())
    }
}

/// `max`: the greater of two words. The unit is the least word.
#[derive(Clone, Copy)]
pub struct Greatest;

impl Monoid for Greatest {
    type View = NumberView;

    ghost structure = { structure_of MonoidKind.Greatest };

    ghost IsMember = { IsMember MonoidKind.Greatest };

    ghost value = { number_value };

    ghost reserved = { λ _. unlimited };

    ghost lawful = { lawful MonoidKind.Greatest };

    ghost members = { λ v. v.word };

    fn unit(_alloc: Global) -> NumberView {
        NumberView { number: i64::MIN }
    }

    fn single(_alloc: Global, x: i64) -> Result<NumberView, AllocError> {
        Ok(NumberView { number: x })
    }

    fn update(_alloc: Global, view: &mut NumberView, x: i64) -> Result<(), AllocError> {
        view.number = view.number.max(x);
        Ok(())
    }

    fn combine(
        _alloc: Global,
        left: NumberView,
        right: NumberView,
    ) -> Result<NumberView, (NumberView, NumberView)> {
        Ok(NumberView {
            number: left.number.max(right.number),
        })
    }

    fn number(view: &NumberView) -> i64 {
        view.number
    }

    fn size(_view: &NumberView) -> usize {
        0
    }

    fn room(_alloc: Global, _view: &mut NumberView, _size: usize) -> Result<(), AllocError> {
        Ok(())
    }
}
