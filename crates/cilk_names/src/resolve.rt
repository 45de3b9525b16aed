//! Resolving a whole tree.

ghost use Rattle.std.specs.Prelude.{◌≡◌, IfOk, IfErr, IsTrue};
ghost use Rattle.cilk_syntax.specs.Trees as trees;
ghost use Rattle.cilk_program.specs.Sources.{source};
ghost use Rattle.cilk_program.specs.WellNamed.{is_well_named};
ghost use Rattle.cilk_names.specs.Contexts.{signatures_of};
ghost use Rattle.cilk_names.specs.Misnamings.{IsNameFault};
ghost use Rattle.cilk_names.specs.Resolution.{Resolves, shared_of};
ghost use Rattle.cilk_names.specs.States.{Comes};

use crate::fault::{NameErrorKind, NameFault};
use crate::headings::{known, main_of, signatures_of};
use crate::items::Pass;
use crate::scene::{Frame, Resolver, number_of};
use crate::signature::Signature;
use cilk_program::program::{Body, Program};
use cilk_syntax::tree::{Item, ReturnType, Tree};
use cilk_types::word_list::WordList;
use std::alloc::{AllocError, Global};

/// Passes over all items.
fn pass_over<'a>(
    alloc: Global,
    text: &'a [u8],
    signatures: &'a [Signature],
    items: &[Item],
) -> Result<Pass<'a>, AllocError>
    requires { signatures.now ≡ signatures_of text.now (trees.items_of items.now) }
    ensures { IfOk result (λ p. Comes p text.now (trees.items_of items.now)) }
{
    let mut pass = Pass {
        scene: Resolver {
            table: known(alloc, text, signatures, items)?,
            frame: Frame {
                body: Body::Function(0),
                returns: ReturnType::Int,
                cells: 0,
                heading: false,
            },
            given: Vec::new(alloc),
            own: Vec::new(alloc),
            reducers: 0,
            loops: Vec::new(alloc),
            first: None,
        },
        openings: WordList::new(alloc),
        shared: Vec::new(alloc),
        functions: Vec::new(alloc),
    };
    pass.items(alloc, items)?;
    Ok(pass)
}

/// Resolves a tree to its program, or returns its first fault: by place, and at one place by
/// number. A missing main function is reported at the end of the text, if there is no other fault.
///
/// The cost is proportional to the length of the text times the depth of its scopes, which are at
/// most about 130 deep in a text that was parsed.
pub fn resolve(alloc: Global, tree: &Tree) -> Result<Program, NameFault>
    ensures ok { IfOk result (λ p. Resolves tree.now (source p)) }
    ensures reducers { IfOk result (λ p. p.reducers.items ≡ shared_of tree.now) }
    ensures named { IfOk result (λ p. IsTrue (is_well_named (source p))) }
    ensures fault { IfErr result (λ e. IsNameFault e tree.now) }
{
    let text = tree.text.as_slice();
    let items = tree.items.as_slice();
    let signatures = signatures_of(alloc, text, items)?;
    let Pass {
        scene,
        openings,
        shared,
        functions,
    } = pass_over(alloc, text, signatures.as_slice(), items)?;
    let Resolver {
        table: _,
        frame: _,
        given: _,
        own: _,
        reducers: _,
        loops,
        first,
    } = scene;
    if let Some(wrong) = first {
        return Err(NameFault::At(wrong.number, wrong.place));
    }
    let Some(main) = main_of(text, items) else {
        return Err(NameFault::At(NameErrorKind::NoMain, text.len()));
    };
    Ok(Program {
        globals: openings,
        reducers: shared,
        functions,
        loops,
        main: number_of(main)?,
    })
}
