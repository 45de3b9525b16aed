//! The context at a place of a body, and how declarations change it.

ghost use Rattle.std.specs.Prelude.{◌≡◌, ◌+◌, nat_lt, [], ◌∷◌, OnOk, IfOk, Some, length, map};
ghost use Rattle.cilk_syntax.specs.Trees as trees;
ghost use Rattle.cilk_program.specs.Programs.{declaration, statement, statements};
ghost use Rattle.cilk_program.specs.Syntax.{Nothing, Then};
ghost use Rattle.cilk_names.specs.Contexts.{behind_beginning, behind_locals, counted, with_parameter, with_parameters, with_reducer, with_variable};
ghost use Rattle.cilk_names.specs.Faults.{earliest};
ghost use Rattle.cilk_names.specs.Misnamings.{beginning_faults, declared_faults, initializer_faults, local_faults};
ghost use Rattle.cilk_names.specs.Misnamings.{locals_faults, own_faults, parameter_faults, parameters_faults};
ghost use Rattle.cilk_names.specs.Pass.{beginning_of, declaration_of, declarations_of};
ghost use Rattle.cilk_names.specs.Tables.{names_of};
ghost use Rattle.cilk_names.specs.States.{context_of};

use crate::calls::call;
use crate::expressions::{assignment, expression};
use crate::kind::{Misnaming, NameErrorKind};
use crate::limits::{MAX_CELLS, MAX_PARAMETERS, MAX_REDUCERS};
use crate::sights::{monoid, note_unless};
use crate::table::{Home, Meaning, Table};
use cilk_monoid::kind::MonoidKind;
use cilk_program::program::{Body, Loop};
use cilk_program::syntax::{Declaration, Place, Stmt};
use cilk_syntax::tree;
use cilk_syntax::tree::{Beginning, Local, LocalInitializer, Name, Parameter, ReturnType};
use std::alloc::{AllocError, Global};

/// The frame of a body: which body it is, the function's return type, the number of cells so far,
/// and whether only reducer declarations come before in the function's own block.
#[derive(Clone, Copy)]
pub(crate) struct Frame {
    pub body: Body,
    pub returns: ReturnType,
    pub cells: u32,
    pub heading: bool,
}

/// The state at a place of a body: the scopes, the frame, the monoids of the function's reducer
/// parameters and of its own reducers so far, the number of reducers declared so far in the text,
/// and the loops and the first fault so far.
#[derive(Drop)]
pub(crate) struct Resolver<'a> {
    pub table: Table<'a>,
    pub frame: Frame,
    pub given: Vec<MonoidKind>,
    pub own: Vec<MonoidKind>,
    pub reducers: u32,
    pub loops: Vec<Loop>,
    pub first: Option<Misnaming>,
}

/// Counts one more, but not past the limit.
pub(crate) fn counted(limit: u32, count: u32) -> u32
    ensures { result ≡ counted limit count }
{
    if count < limit { count + 1 } else { count }
}

/// Converts a count to 32 bits. A count that doesn't fit is reported as out of memory.
pub(crate) fn number_of(count: usize) -> Result<u32, AllocError>
    ensures { IfOk result (λ n. n ≡ count) }
{
    match u32::try_from(count) {
        Ok(number) => Ok(number),
        Err(_) => Err(AllocError),
    }
}

/// Makes a row of one statement.
pub(crate) fn row_of_one(alloc: Global, statement: Stmt) -> Result<Vec<Stmt>, AllocError>
    ensures { IfOk result (λ r. r.items ≡ statement ∷ []) }
{
    let mut row = Vec::new(alloc);
    row.push(statement)?;
    Ok(row)
}

impl Resolver<'_> {
    /// Declares a variable in the frame's next cell.
    #[tactic(auto, using(crate::proofs::Earliest::earliest_append))]
    pub fn variable(&mut self, name: Name) -> Result<(), AllocError>
        ensures context { OnOk result (context_of self.new ≡ with_variable (context_of self.old) name) }
        ensures faults { OnOk result (self.new.first ≡ earliest self.old.first (declared_faults (context_of self.old) name)) }
        ensures loops { self.new.loops ≡ self.old.loops }
    {
        let cells = self.frame.cells;
        let level = self.table.level;
        self.table
            .declare(name, Meaning::Local(level, cells), &mut self.first)?;
        let is_within = cells < MAX_CELLS;
        note_unless(
            is_within,
            NameErrorKind::OverLimit,
            name.at,
            &mut self.first,
        );
        self.frame.cells = counted(MAX_CELLS, cells);
        Ok(())
    }

    /// Declares a reducer of the function.
    #[tactic(auto, using(crate::proofs::Earliest::earliest_append))]
    pub fn reducer(&mut self, reducer: tree::Reducer) -> Result<(), AllocError>
        ensures context { OnOk result (context_of self.new ≡ with_reducer (context_of self.old) reducer) }
        ensures faults { OnOk result (self.new.first ≡ earliest self.old.first (own_faults (context_of self.old) reducer)) }
        ensures loops { self.new.loops ≡ self.old.loops }
    {
        let kind = monoid(&self.table, reducer, &mut self.first);
        let number = number_of(self.own.len())?;
        let meaning = Meaning::Reducer(Home::Own(number), kind);
        self.table.declare(reducer.name, meaning, &mut self.first)?;
        let is_first = self.frame.heading;
        let place = reducer.name.at;
        note_unless(
            is_first,
            NameErrorKind::ReducerNotFirst,
            place,
            &mut self.first,
        );
        let is_within = self.reducers < MAX_REDUCERS;
        note_unless(is_within, NameErrorKind::OverLimit, place, &mut self.first);
        self.reducers = counted(MAX_REDUCERS, self.reducers);
        self.own.push(kind.unwrap_or(MonoidKind::Add))?;
        Ok(())
    }

    /// Resolves the initializer of a variable, in the cell of this number, that is declared at a place
    /// of the text.
    fn initializer(
        &mut self,
        alloc: Global,
        at: usize,
        number: u32,
        initializer: &LocalInitializer,
    ) -> Result<Declaration, AllocError>
        ensures context { context_of self.new ≡ context_of self.old }
        ensures faults { OnOk result (self.new.first
            ≡ earliest self.old.first (initializer_faults (names_of self.old.table)
            (trees.local_initializer initializer.now))) }
        ensures loops { self.new.loops ≡ self.old.loops }
        ensures value { IfOk result (λ r. declaration r ≡ declaration_of (names_of self.old.table) number (trees.local_initializer initializer.now)) }
    {
        match initializer {
            LocalInitializer::Absent => Ok(Declaration::Zero(at, number)),
            LocalInitializer::Value(value) => Ok(Declaration::Value(
                at,
                number,
                expression(alloc, &self.table, value, &mut self.first)?,
            )),
            LocalInitializer::Invoke(how, tree) => {
                let place = Some(Place::Local(0, number));
                match call(alloc, &self.table, *how, tree, true, place, &mut self.first)? {
                    Some(invoke) => Ok(Declaration::Invoke(invoke)),
                    None => Ok(Declaration::Zero(at, number)),
                }
            }
        }
    }

    /// Resolves a declared variable, which is known in its own initializer.
    #[tactic(auto, using(crate::proofs::Earliest::earliest_append))]
    fn local(&mut self, alloc: Global, local: &Local) -> Result<Declaration, AllocError>
        ensures context { OnOk result (context_of self.new ≡ (let l = trees.local local.now in with_variable (context_of self.old) l.name)) }
        ensures faults { OnOk result (self.new.first ≡ earliest self.old.first (local_faults (context_of self.old) (trees.local local.now))) }
        ensures loops { self.new.loops ≡ self.old.loops }
        ensures value { IfOk result (λ r. map declaration (r ∷ []) ≡ declarations_of (context_of self.old) (trees.local local.now ∷ [])) }
    {
        let number = self.frame.cells;
        self.variable(local.name)?;
        self.initializer(alloc, local.name.at, number, &local.initializer)
    }

    /// Resolves the variables of a declaration, in order.
    pub fn locals(
        &mut self,
        alloc: Global,
        locals: &[Local],
    ) -> Result<Vec<Declaration>, AllocError>
        ensures context { OnOk result (context_of self.new ≡ behind_locals (context_of self.old) (trees.locals_of locals.now)) }
        ensures faults { OnOk result (self.new.first ≡ earliest self.old.first (locals_faults (context_of self.old) (trees.locals_of locals.now))) }
        ensures loops { self.new.loops ≡ self.old.loops }
        ensures value { IfOk result (λ r. map declaration r.items ≡ declarations_of (context_of self.old) (trees.locals_of locals.now)) }
    {
        let mut declarations = Vec::new(alloc);
        'each: for local in locals {
            declarations.push(self.local(alloc, local)?)?;
        }
        Ok(declarations)
    }

    /// Resolves a variable that the head of a `for` declares.
    #[tactic(auto, using(crate::proofs::Earliest::earliest_append))]
    fn counter(&mut self, alloc: Global, name: Name, value: &tree::Expr) -> Result<Stmt, AllocError>
        ensures context { OnOk result (context_of self.new ≡ with_variable (context_of self.old) name) }
        ensures faults { OnOk result (self.new.first
            ≡ earliest self.old.first (beginning_faults (context_of self.old)
            (Some (trees.Declares name (trees.expression value.now))))) }
        ensures loops { self.new.loops ≡ self.old.loops }
        ensures value { IfOk result (λ r. Then (statement r) Nothing
            ≡ beginning_of (context_of self.old) (Some (trees.Declares name (trees.expression value.now)))) }
    {
        let number = self.frame.cells;
        self.variable(name)?;
        let value = expression(alloc, &self.table, value, &mut self.first)?;
        let mut declarations = Vec::new(alloc);
        declarations.push(Declaration::Value(name.at, number, value))?;
        Ok(Stmt::Declare(declarations))
    }

    /// Resolves the first part of the head of a `for`: a row of one statement or of none.
    pub fn beginning(
        &mut self,
        alloc: Global,
        beginning: &Option<Beginning>,
    ) -> Result<Vec<Stmt>, AllocError>
        ensures context { OnOk result (context_of self.new ≡ behind_beginning (context_of self.old) (trees.optional_beginning beginning.now)) }
        ensures faults { OnOk result (self.new.first
            ≡ earliest self.old.first (beginning_faults (context_of self.old)
            (trees.optional_beginning beginning.now))) }
        ensures loops { self.new.loops ≡ self.old.loops }
        ensures value { IfOk result (λ r. statements r.items ≡ beginning_of (context_of self.old) (trees.optional_beginning beginning.now)) }
    {
        match beginning {
            Some(Beginning::Declares(name, value)) => {
                row_of_one(alloc, self.counter(alloc, *name, value)?)
            }
            Some(Beginning::Assigns(tree)) => {
                row_of_one(
                    alloc,
                    assignment(alloc, &self.table, tree, &mut self.first)?,
                )
            }
            None => Ok(Vec::new(alloc)),
        }
    }

    /// Declares a parameter. A word is in the frame's next cell.
    #[tactic(auto, using(crate::proofs::Earliest::earliest_append))]
    fn parameter(&mut self, parameter: Parameter) -> Result<(), AllocError>
        ensures context { OnOk result (context_of self.new ≡ with_parameter (context_of self.old) parameter) }
        ensures faults { OnOk result (self.new.first ≡ earliest self.old.first (parameter_faults (context_of self.old) parameter)) }
        ensures loops { self.new.loops ≡ self.old.loops }
    {
        let is_within = self.has_room();
        match parameter {
            Parameter::Variable(name) => {
                note_unless(
                    is_within,
                    NameErrorKind::OverLimit,
                    name.at,
                    &mut self.first,
                );
                self.variable(name)
            }
            Parameter::Reducer(reducer) => {
                let kind = monoid(&self.table, reducer, &mut self.first);
                let place = reducer.name.at;
                note_unless(is_within, NameErrorKind::OverLimit, place, &mut self.first);
                let number = number_of(self.given.len())?;
                let meaning = Meaning::Reducer(Home::Given(number), kind);
                self.table.declare(reducer.name, meaning, &mut self.first)?;
                self.given.push(kind.unwrap_or(MonoidKind::Add))?;
                Ok(())
            }
        }
    }

    /// Tells whether one more parameter is within the limit.
    fn has_room(&self) -> bool
        ensures { result ≡ nat_lt (self.now.frame.cells + length self.now.given.items) MAX_PARAMETERS }
    {
        let cells = self.frame.cells as usize;
        cells < MAX_PARAMETERS && self.given.len() < MAX_PARAMETERS - cells
    }

    /// Declares the parameters of a function.
    pub fn parameters(&mut self, parameters: &[Parameter]) -> Result<(), AllocError>
        ensures context { OnOk result (context_of self.new ≡ with_parameters (context_of self.old) parameters.now) }
        ensures faults { OnOk result (self.new.first ≡ earliest self.old.first (parameters_faults (context_of self.old) parameters.now)) }
        ensures loops { self.new.loops ≡ self.old.loops }
    {
        'each: for parameter in parameters {
            self.parameter(*parameter)?;
        }
        Ok(())
    }
}
