//! The table of the names at a place of a text.

ghost use Rattle.std.specs.Prelude.{◌≡◌, List, [], ◌++◌, ◌∷◌, Some, OnOk};
ghost use Rattle.cilk_syntax.specs.Trees.{bytes_of};
ghost use Rattle.cilk_names.specs.Names.{Scope, declare, empty, found, is_declared, meaning, opened, with_entry, with_function};
ghost use Rattle.cilk_names.specs.Faults.{earliest, again_faults};
ghost use Rattle.cilk_names.specs.Sights.{signature_of};
ghost use Rattle.cilk_names.specs.Tables.{names_of, scope_of};

use crate::kind::{Misnaming, NameErrorKind};
use crate::signature::{ParameterKind, Signature};
use cilk_monoid::kind::MonoidKind;
use cilk_program::syntax::Array;
use cilk_syntax::tree::{Name, ReturnType};
use std::alloc::{AllocError, Global};
use std::collections::HashMap;
use std::mem;

/// Where a reducer is declared: in the program, in a function, or as a parameter. Each kind is
/// counted from 0 in order of declaration.
#[derive(Clone, Copy)]
pub enum Home {
    Global(u32),
    Own(u32),
    Given(u32),
}

/// The meaning of a name. Global cells and functions are counted from 0 in order of declaration.
#[derive(Clone, Copy)]
pub enum Meaning {
    Global(u32),
    Array(Array),
    /// A variable: the number of loop bodies that its own body is in, and its cell in that body's
    /// frame.
    Local(u32, u32),
    /// The variable of a parallel loop: the number of loop bodies that its body is in, counting
    /// itself.
    Turn(u32),
    /// A reducer, and its monoid, if the name is a monoid's.
    Reducer(Home, Option<MonoidKind>),
    Function(u32),
}

/// An entry of a scope: the meaning of a name, and whether its declaration has been reached.
#[derive(Clone, Copy)]
pub struct Binding {
    pub meaning: Meaning,
    pub declared: bool,
}

/// The scopes at a place of the text: the innermost, the outer ones from the outermost in, and the
/// number of enclosing loop bodies. Names are looked up by their bytes in the text.
#[derive(Drop)]
pub struct Table<'a> {
    pub text: &'a [u8],
    pub signatures: &'a [Signature],
    pub inner: HashMap<&'a [u8], Binding>,
    pub outer: Vec<HashMap<&'a [u8], Binding>>,
    pub level: u32,
}

impl<'a> Table<'a> {
    /// Makes a table with one empty scope, for a text whose functions have these signatures.
    pub fn new(alloc: Global, text: &'a [u8], signatures: &'a [Signature]) -> Table<'a>
        ensures { names_of result ≡ record { text = text.now; signatures = signatures.now; inner = empty; outer = []; level = 0 } }
    {
        Table {
            text,
            signatures,
            inner: HashMap::new(alloc),
            outer: Vec::new(alloc),
            level: 0,
        }
    }

    /// Looks these bytes up, from the innermost scope out.
    fn find(&self, name: &[u8]) -> Option<Binding>
        ensures { result ≡ found (names_of self.now) name.now }
    {
        if let Some(entry) = self.inner.get(name) {
            return Some(*entry);
        }
        let mut depth = self.outer.len();
        'scopes: while depth > 0 {
            depth -= 1;
            if let Some(entry) = self.outer[depth].get(name) {
                return Some(*entry);
            }
        }
        None
    }

    /// Returns the meaning of a name.
    pub(crate) fn meaning(&self, name: Name) -> Option<Meaning>
        ensures { result ≡ meaning (names_of self.now) name }
    {
        match self.find(bytes_of(self.text, name)) {
            Some(entry) => Some(entry.meaning),
            None => None,
        }
    }

    /// Tells whether a name is declared in the innermost scope.
    fn is_declared(&self, name: Name) -> bool
        ensures { result ≡ is_declared (scope_of self.now.inner) (bytes_of self.now.text.now name) }
    {
        match self.inner.get(bytes_of(self.text, name)) {
            Some(entry) => entry.declared,
            None => false,
        }
    }

    /// Declares a name in the innermost scope. A second declaration is noted as a fault and changes
    /// nothing.
    pub fn declare(
        &mut self,
        name: Name,
        meaning: Meaning,
        first: &mut Option<Misnaming>,
    ) -> Result<(), AllocError>
        ensures names { OnOk result (names_of self.new ≡ declare (names_of self.old) name meaning) }
        ensures faults { OnOk result (first.new ≡ earliest first.old (again_faults (names_of self.old) name)) }
    {
        if self.is_declared(name) {
            Misnaming {
                number: NameErrorKind::DeclaredTwice,
                place: name.at,
            }
            .note(first);
            return Ok(());
        }
        self.put(
            name,
            Binding {
                meaning,
                declared: true,
            },
        )?;
        Ok(())
    }

    /// Enters a function under its number before its declaration, unless its name is known already.
    pub fn know(&mut self, name: Name, number: u32) -> Result<(), AllocError>
        ensures names { OnOk result (names_of self.new ≡ (let n = names_of self.old in record n { inner = with_function n.inner (bytes_of n.text name) number })) }
    {
        if self.inner.get(bytes_of(self.text, name)).is_some() {
            return Ok(());
        }
        self.put(
            name,
            Binding {
                meaning: Meaning::Function(number),
                declared: false,
            },
        )?;
        Ok(())
    }

    /// Replaces the entry of a name in the innermost scope.
    fn put(&mut self, name: Name, entry: Binding) -> Result<(), AllocError>
        ensures same { (self.new.text ≡ self.old.text) × (self.new.signatures ≡ self.old.signatures) × (self.new.outer ≡ self.old.outer) × (self.new.level ≡ self.old.level) }
        ensures updates { OnOk result (scope_of self.new.inner ≡ with_entry (scope_of self.old.inner) (bytes_of self.old.text.now name) entry) }
    {
        self.inner.insert(bytes_of(self.text, name), entry)?;
        Ok(())
    }

    /// Opens a scope inside the innermost one.
    pub fn open(&mut self, alloc: Global) -> Result<(), AllocError>
        ensures names { OnOk result (names_of self.new ≡ opened (names_of self.old)) }
        ensures same { OnOk result ((self.new.text ≡ self.old.text) × (self.new.signatures ≡ self.old.signatures) × (self.new.level ≡ self.old.level)) }
    {
        let scope = mem::replace(&mut self.inner, HashMap::new(alloc));
        self.outer.push(scope)?;
        Ok(())
    }

    /// Closes the innermost scope.
    pub fn close(&mut self)
        ensures names { (outer : List Scope) (inner : Scope) → (names_of self.old).outer ≡ outer ++ inner ∷ [] → names_of self.new ≡ record (names_of self.old) { inner = inner; outer = outer } }
    {
        if let Some(scope) = self.outer.pop() {
            self.inner = scope;
        }
    }
}

/// Returns the signature of a function. A function that doesn't exist returns an `int` and has no
/// parameters.
pub fn signature<'a>(table: &'a Table, function: u32) -> (ReturnType, &'a [ParameterKind])
    ensures returns { result.0 ≡ (let s = signature_of (names_of table.now) (Some function) in s.returns) }
    ensures kinds { result.1.now ≡ (let s = signature_of (names_of table.now) (Some function) in s.parameters) }
{
    match table.signatures.get(function as usize) {
        Some(signature) => (signature.returns, signature.parameters.as_slice()),
        None => (ReturnType::Int, &[]),
    }
}

/// Returns the bytes of a name, as far as the text has them.
pub fn bytes_of<'a>(text: &'a [u8], name: Name) -> &'a [u8]
    ensures { result.now ≡ bytes_of text.now name }
{
    let rest = &text[name.at.min(text.len())..];
    let count = name.end.saturating_sub(name.at);
    &rest[..count.min(rest.len())]
}
