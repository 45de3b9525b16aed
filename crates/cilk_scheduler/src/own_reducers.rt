//! The reducers of a frame that ends.

ghost use Rattle.std.specs.Prelude.{◌≡◌, ◌+◌, ◌<◌, ◌≤◌, length};
ghost use Rattle.cilk_types.specs.declared.event.Instance.{Instance};
ghost use Rattle.cilk_monoid.specs.declared.kind.MonoidKind.{MonoidKind};
ghost use Rattle.cilk_hypermap.specs.Hypermap.{view_in};
ghost use Rattle.cilk_scheduler.specs.Retired.{without_own};

use cilk_hypermap::hypermap::Hypermap;
use cilk_monoid::kind::MonoidKind;
use cilk_types::event::{FrameNo, Instance};

/// Removes the views of the reducers that a frame created for itself: those with these monoids, at
/// consecutive places from `first` on.
pub fn retire(views: &mut Hypermap, frame: FrameNo, first: u32, kinds: &[MonoidKind])
    requires few { length kinds.now ≤ 64 }
    requires low { first < 65536 }
    ensures { (k : MonoidKind) (j : Instance) → view_in views.new k j ≡ without_own frame first kinds.now k j (view_in views.old k j) }
{
    'each: for number in 0..kinds.len() {
        let instance = Instance {
            frame,
            place: first + number as u32,
        };
        let _last = views.take(instance, kinds[number]);
    }
}
