//! Laws that make the contract of `serve` speak of these tests: which orders their command lines
//! give, and that the texts in their folder are known.

ghost use Rattle.std.specs.Prelude.{◌≡◌, Some, codes};
ghost use Rattle.cilk_served.specs.Folders.{held_in};
ghost use Rattle.cilk_served.specs.Forms.{FormsGiveOrders};

use crate::served::Folder;

/// Each form of a command line gives its order, with options before the paths or after them.
pub fn forms_give_orders()
    ensures { FormsGiveOrders }
{}

/// The four texts of a folder are known.
pub fn folders_are_known(folder: &Folder<'_>)
    ensures program { held_in folder.now (codes "program") ≡ Some folder.now.program.now }
    ensures input { held_in folder.now (codes "input") ≡ Some folder.now.input.now }
    ensures certificate { held_in folder.now (codes "certificate") ≡ Some folder.now.certificate.now }
    ensures script { held_in folder.now (codes "script") ≡ Some folder.now.script.now }
{
    let _ = folder;
}
