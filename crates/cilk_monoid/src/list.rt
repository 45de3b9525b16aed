//! The monoid of lists: `append`.

ghost use Rattle.cilk_monoid.specs.Kinds.{structure_of, IsMember};
ghost use Rattle.cilk_monoid.specs.declared.kind.MonoidKind.{MonoidKind};
ghost use Rattle.cilk_monoid.specs.Views.{list_value, list_room};
ghost use Rattle.cilk_monoid.specs.Lawful.{lawful};

use crate::kind::MonoidKind;
use crate::monoid::Monoid;
use crate::view::ListView;
use std::alloc::{AllocError, Global};

/// `append`: lists of words, concatenated. The unit is the empty list, and the number is the
/// length.
#[derive(Clone, Copy)]
pub struct Append;

impl Monoid for Append {
    type View = ListView;

    ghost structure = { structure_of MonoidKind.Append };

    ghost IsMember = { IsMember MonoidKind.Append };

    ghost value = { list_value };

    ghost reserved = { list_room };

    ghost lawful = { lawful MonoidKind.Append };

    ghost members = { λ v. v.words };

    fn unit(alloc: Global) -> ListView {
        ListView {
            items: Vec::new(alloc),
        }
    }

    fn single(alloc: Global, x: i64) -> Result<ListView, AllocError> {
        let mut items = Vec::new(alloc);
        items.push(x)?;
        Ok(ListView { items })
    }

    fn update(_alloc: Global, view: &mut ListView, x: i64) -> Result<(), AllocError> {
        view.items.push(x)?;
        Ok(())
    }

    fn combine(
        _alloc: Global,
        mut left: ListView,
        mut right: ListView,
    ) -> Result<ListView, (ListView, ListView)> {
        match left.items.append(&mut right.items) {
            Ok(()) => Ok(left),
            Err(_) => Err((left, right)),
        }
    }

    fn number(view: &ListView) -> i64 {
        view.items.len() as i64
    }

    fn size(view: &ListView) -> usize {
        view.items.len()
    }

    fn room(_alloc: Global, view: &mut ListView, size: usize) -> Result<(), AllocError> {
        view.items.reserve(size)
    }
}
