//! The views of one monoid, where memory for them may be refused.

ghost use Rattle.cilk_monoid.specs.Kinds.{structure_of, IsMember};
ghost use Rattle.cilk_monoid.specs.Lawful.{lawful};
ghost use Rattle.cilk_monoid.specs.declared.kind.MonoidKind.{MonoidKind};
ghost use Rattle.cilk_monoid.specs.Views.{list_value, list_room};

use cilk_hypermap::views::Views;
use cilk_monoid::list::Append;
use cilk_monoid::monoid::Monoid;
use cilk_monoid::view::ListView;
use cilk_types::event::Instance;
use std::alloc::{AllocError, Global};

// A list that may grow a limited number of times.
#[derive(Drop)]
struct Guarded {
    list: ListView,
    growths: u32,
}

// After an update with this number a view may not grow any more.
const LAST: i64 = -1;

// `append`, where a view may make room once, and not after an update with [`LAST`].
#[derive(Clone, Copy)]
struct Refusing;

impl Monoid for Refusing {
    type View = Guarded;

    ghost structure = { structure_of MonoidKind.Append };

    ghost IsMember = { IsMember MonoidKind.Append };

    ghost value = { λ v. list_value v.list };

    ghost reserved = { λ v. list_room v.list };

    ghost lawful = { lawful MonoidKind.Append };

    ghost members = { λ v. v.list.words };

    fn unit(alloc: Global) -> Guarded {
        Guarded {
            list: Append::unit(alloc),
            growths: 1,
        }
    }

    fn single(alloc: Global, x: i64) -> Result<Guarded, AllocError> {
        Ok(Guarded {
            list: Append::single(alloc, x)?,
            growths: 1,
        })
    }

    fn update(alloc: Global, view: &mut Guarded, x: i64) -> Result<(), AllocError> {
        Append::update(alloc, &mut view.list, x)?;
        if x == LAST {
            view.growths = 0;
        }
        Ok(())
    }

    fn combine(
        alloc: Global,
        left: Guarded,
        right: Guarded,
    ) -> Result<Guarded, (Guarded, Guarded)> {
        let Guarded { list, growths } = left;
        let Guarded {
            list: more,
            growths: others,
        } = right;
        match Append::combine(alloc, list, more) {
            Ok(list) => Ok(Guarded { list, growths }),
            Err((list, more)) => Err((
                Guarded { list, growths },
                Guarded {
                    list: more,
                    growths: others,
                },
            )),
        }
    }

    fn number(view: &Guarded) -> i64 {
        Append::number(&view.list)
    }

    fn size(view: &Guarded) -> usize {
        Append::size(&view.list)
    }

    fn room(alloc: Global, view: &mut Guarded, size: usize) -> Result<(), AllocError> {
        if size <= view.list.items.capacity() - view.list.items.len() {
            return Ok(());
        }
        if view.growths == 0 {
            return Err(AllocError);
        }
        view.growths -= 1;
        Append::room(alloc, &mut view.list, size)
    }
}

fn instance(place: u32) -> Instance {
    Instance { frame: 1, place }
}

// Views at three places p: `times` updates of each with `first + p`. The one at `refused` may not
// grow.
fn three(
    alloc: Global,
    first: i64,
    times: u32,
    refused: u32,
) -> Result<Views<Refusing>, AllocError> {
    let mut views = Views::new(alloc);
    for place in 1..4 {
        for _ in 0..times {
            views.update(alloc, instance(place), first.wrapping_add(i64::from(place)))?;
        }
        if place == refused {
            views.update(alloc, instance(place), LAST)?;
        }
    }
    Ok(views)
}

// Each number, repeated as often as it says.
fn repeated(alloc: Global, numbers: &[(i64, u32)]) -> Result<Vec<i64>, AllocError> {
    let mut all = Vec::new(alloc);
    for (x, times) in numbers {
        for _ in 0..*times {
            all.push(*x)?;
        }
    }
    Ok(all)
}

// The elements of the views at the three places, which are removed.
fn elements(alloc: Global, views: &mut Views<Refusing>) -> Result<Vec<i64>, AllocError> {
    let mut all = Vec::new(alloc);
    for place in 1..4 {
        if let Some(view) = views.retire(instance(place)) {
            all.extend_from_slice(view.list.items.as_slice())?;
        }
    }
    Ok(all)
}

#[test]
fn a_refused_merge_gives_both_sides_back(rt: HostRuntime) -> Result<(), AllocError> {
    let alloc = rt.alloc();
    for refused in 1..5 {
        let left = three(alloc, 0, 1, refused)?;
        let right = three(alloc, 10, 8, 0)?;
        match Views::merge(alloc, left, right) {
            Ok(mut both) => {
                assert_eq!(rt; refused, 4);
                let want = repeated(alloc, &[(1, 1), (11, 8), (2, 1), (12, 8), (3, 1), (13, 8)])?;
                assert!(rt; elements(alloc, &mut both)?.as_slice() == want.as_slice());
            }
            Err((mut left, mut right)) => {
                assert!(rt; refused < 4);
                let mut of_left = vec![in alloc; 1, 2, 3]?;
                of_left.insert(refused as usize, LAST)?;
                assert!(rt; elements(alloc, &mut left)?.as_slice() == of_left.as_slice());
                let of_right = repeated(alloc, &[(11, 8), (12, 8), (13, 8)])?;
                assert!(rt; elements(alloc, &mut right)?.as_slice() == of_right.as_slice());
            }
        }
    }
    Ok(())
}
