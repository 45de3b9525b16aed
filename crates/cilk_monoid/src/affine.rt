//! The monoid of affine maps on words: `affine`.

ghost use Rattle.std.specs.Prelude.{◌≡◌};
ghost use Rattle.cilk_monoid.specs.Kinds.{structure_of, composed, IsMember};
ghost use Rattle.cilk_monoid.specs.declared.kind.MonoidKind.{MonoidKind};
ghost use Rattle.cilk_monoid.specs.Views.{affine_value, unlimited};
ghost use Rattle.cilk_monoid.specs.Lawful.{lawful};

use crate::kind::MonoidKind;
use crate::monoid::Monoid;
use crate::view::AffineView;
use cilk_types::word;
use std::alloc::{AllocError, Global};

/// `affine`: maps on words, composed so that the left one is applied first. The unit is the
/// identity. An update with x is the map `y -> 10 * y + x`. The number is the map's value at 0. It
/// doesn't commute.
#[derive(Clone, Copy)]
pub struct Affine;

// The left map is applied first.
fn compose(left: AffineView, right: AffineView) -> AffineView
    ensures { affine_value result ≡ composed (affine_value left) (affine_value right) }
{
    AffineView {
        factor: word::mul(left.factor, right.factor),
        offset: word::add(word::mul(right.factor, left.offset), right.offset),
    }
}

impl Monoid for Affine {
    type View = AffineView;

    ghost structure = { structure_of MonoidKind.Affine };

    ghost IsMember = { IsMember MonoidKind.Affine };

    ghost value = { affine_value };

    ghost reserved = { λ _. unlimited };

    ghost lawful = { lawful MonoidKind.Affine };

    ghost members = { λ v. (v.factor_word, v.offset_word) };

    fn unit(_alloc: Global) -> AffineView {
        AffineView {
            factor: 1,
            offset: 0,
        }
    }

    fn single(_alloc: Global, x: i64) -> Result<AffineView, AllocError> {
        Ok(AffineView {
            factor: 10,
            offset: x,
        })
    }

    fn update(_alloc: Global, view: &mut AffineView, x: i64) -> Result<(), AllocError> {
        *view = compose(
            *view,
            AffineView {
                factor: 10,
                offset: x,
            },
        );
        Ok(())
    }

    fn combine(
        _alloc: Global,
        left: AffineView,
        right: AffineView,
    ) -> Result<AffineView, (AffineView, AffineView)> {
        Ok(compose(left, right))
    }

    fn number(view: &AffineView) -> i64 {
        view.offset
    }

    fn size(_view: &AffineView) -> usize {
        0
    }

    fn room(_alloc: Global, _view: &mut AffineView, _size: usize) -> Result<(), AllocError> {
        Ok(())
    }
}
