//! Resolving statements.

ghost use Rattle.std.specs.Prelude.{◌≡◌, ◌<◌, List, [], ◌∷◌, ◌++◌, OnOk, IfOk, true, false, Some, None, length, map, option_map, slice_set};
ghost use Rattle.cilk_syntax.specs.Trees as trees;
ghost use Rattle.cilk_program.specs.Programs.{expression, invoke as invoked, loop, optional, statement, statements};
ghost use Rattle.cilk_program.specs.Syntax as syntax;
ghost use Rattle.cilk_program.specs.Syntax.{For, Invokes, Nothing, Return, Set, Then, Update};
ghost use Rattle.cilk_names.specs.Names.{Scope};
ghost use Rattle.cilk_names.specs.Contexts.{ahead, behind, behind_row, behind_scope, in_body, inside, keeps_heading};
ghost use Rattle.cilk_names.specs.Faults.{earliest, reducer_faults, written_faults};
ghost use Rattle.cilk_names.specs.Misnamings.{call_faults, expression_faults, gives_what_it_returns, head_faults};
ghost use Rattle.cilk_names.specs.Misnamings.{optional_assignment_faults, return_faults, row_faults, same_faults, statement_faults};
ghost use Rattle.cilk_names.specs.Pass.{expression_of, invoke_of, loops_of, optional_of, optional_row, or_empty, row_loops, row_of, statement_of};
ghost use Rattle.cilk_names.specs.Sights.{reducer, variable};
ghost use Rattle.cilk_names.specs.Tables.{names_of};
ghost use Rattle.cilk_names.specs.States.{context_of};

use crate::calls::call;
use crate::expressions::{assignment, expression, optional, part};
use crate::kind::{Misnaming, NameErrorKind};
use crate::scene::{Frame, Resolver, number_of, row_of_one};
use crate::sights::{note_unless, reducer, written};
use crate::table::{Meaning, Table, bytes_of};
use cilk_program::program::{Body, Loop};
use cilk_program::syntax::{Expr, Invoke, Stmt};
use cilk_syntax::tree;
use cilk_syntax::tree::{Bounds, Head, Name, ReturnType};
use cilk_types::invocation::Invocation;
use std::alloc::{AllocError, Global};

/// Tells whether reducers may still be declared after a statement.
fn keeps_heading(tree: &tree::Stmt, heading: bool) -> bool
    ensures { result ≡ keeps_heading (trees.statement tree.now) heading }
{
    match tree {
        tree::Stmt::Reducer(_) => heading,
        _ => false,
    }
}

/// Tells whether a `return` has a value exactly if its function returns one.
fn gives_what_it_returns(returns: ReturnType, value: &Option<Box<tree::Expr>>) -> bool
    ensures { result ≡ gives_what_it_returns returns (trees.optional value.now) }
{
    match (returns, value) {
        (ReturnType::Int, Some(_)) | (ReturnType::Void, None) => true,
        (ReturnType::Int, None) | (ReturnType::Void, Some(_)) => false,
    }
}

/// Resolves a `return` at a place of the text.
#[tactic(auto, using(crate::proofs::Earliest::earliest_append))]
fn returned(
    alloc: Global,
    table: &Table,
    returns: ReturnType,
    place: usize,
    value: &Option<Box<tree::Expr>>,
    first: &mut Option<Misnaming>,
) -> Result<Stmt, AllocError>
    ensures faults { OnOk result (first.new ≡ earliest first.old (return_faults (names_of table.now) returns place (trees.optional value.now))) }
    ensures value { IfOk result (λ r. statement r ≡ Return (optional_of (names_of table.now) (trees.optional value.now))) }
{
    let is_outside = table.level == 0;
    note_unless(is_outside, NameErrorKind::ReturnInLoop, place, first);
    let gives = gives_what_it_returns(returns, value);
    note_unless(gives, NameErrorKind::WrongKind, place, first);
    Ok(Stmt::Return(place, optional(alloc, table, value, first)?))
}

/// Resolves the step of a `for`: a row of one statement or of none.
fn step(
    alloc: Global,
    table: &Table,
    tree: &Option<tree::Assignment>,
    first: &mut Option<Misnaming>,
) -> Result<Vec<Stmt>, AllocError>
    ensures faults { OnOk result (first.new ≡ earliest first.old (optional_assignment_faults (names_of table.now) (trees.optional_assignment tree.now))) }
    ensures value { IfOk result (λ r. statements r.items ≡ optional_row (names_of table.now) (trees.optional_assignment tree.now)) }
{
    match tree {
        Some(tree) => row_of_one(alloc, assignment(alloc, table, tree, first)?),
        None => Ok(Vec::new(alloc)),
    }
}

/// Makes a call statement of a function named at a place of the text, or an empty statement if there
/// is no call.
fn invoke(at: usize, invoke: Option<Invoke>) -> Stmt
    ensures { statement result ≡ or_empty (option_map invoked invoke) Invokes }
{
    match invoke {
        Some(invoke) => Stmt::Invoke(invoke),
        None => Stmt::Empty(at),
    }
}

/// Resolves a call statement, with the variable for its result.
fn invoked(
    alloc: Global,
    table: &Table,
    how: Invocation,
    tree: &tree::Call,
    first: &mut Option<Misnaming>,
) -> Result<Stmt, AllocError>
    ensures faults { OnOk result (first.new ≡ earliest first.old (call_faults (names_of table.now) false (trees.call tree.now))) }
    ensures value { IfOk result (λ r. statement r ≡ or_empty (invoke_of (names_of table.now) how (trees.call tree.now) None) Invokes) }
{
    let call = call(alloc, table, how, tree, false, None, first)?;
    Ok(invoke(tree.name.at, call))
}

/// Resolves a call whose result is assigned to a variable.
#[tactic(auto, using(crate::proofs::Earliest::earliest_append))]
fn assigned(
    alloc: Global,
    table: &Table,
    name: Name,
    how: Invocation,
    tree: &tree::Call,
    first: &mut Option<Misnaming>,
) -> Result<Stmt, AllocError>
    ensures faults { OnOk result (first.new ≡ earliest first.old
        (written_faults (names_of table.now) name ++ call_faults (names_of table.now) true (trees.call tree.now))) }
    ensures value { IfOk result (λ r. statement r
        ≡ or_empty (invoke_of (names_of table.now) how (trees.call tree.now) (variable (names_of table.now) name))
        Invokes) }
{
    let place = written(table, name, first);
    let call = call(alloc, table, how, tree, true, place, first)?;
    Ok(invoke(tree.name.at, call))
}

/// Resolves an `update` of a reducer.
#[tactic(auto, using(crate::proofs::Earliest::earliest_append))]
fn update(
    alloc: Global,
    table: &Table,
    name: Name,
    value: &tree::Expr,
    first: &mut Option<Misnaming>,
) -> Result<Stmt, AllocError>
    ensures faults { OnOk result (first.new ≡ earliest first.old
        (reducer_faults (names_of table.now) name ++ expression_faults (names_of table.now)
        (trees.expression value.now))) }
    ensures value { IfOk result (λ r. statement r
        ≡ or_empty (reducer (names_of table.now) name)
        (λ x. Update x (expression_of (names_of table.now) (trees.expression value.now)))) }
{
    let reducer = reducer(table, name, first);
    let value = expression(alloc, table, value, first)?;
    match reducer {
        Some(reducer) => Ok(Stmt::Update(name.at, reducer, value)),
        None => Ok(Stmt::Empty(name.at)),
    }
}

/// Resolves a `set` of a reducer.
#[tactic(auto, using(crate::proofs::Earliest::earliest_append))]
fn set(
    alloc: Global,
    table: &Table,
    name: Name,
    value: &tree::Expr,
    first: &mut Option<Misnaming>,
) -> Result<Stmt, AllocError>
    ensures faults { OnOk result (first.new ≡ earliest first.old
        (reducer_faults (names_of table.now) name ++ expression_faults (names_of table.now)
        (trees.expression value.now))) }
    ensures value { IfOk result (λ r. statement r
        ≡ or_empty (reducer (names_of table.now) name)
        (λ x. Set x (expression_of (names_of table.now) (trees.expression value.now)))) }
{
    let reducer = reducer(table, name, first);
    let value = expression(alloc, table, value, first)?;
    match reducer {
        Some(reducer) => Ok(Stmt::Set(name.at, reducer, value)),
        None => Ok(Stmt::Empty(name.at)),
    }
}

/// Makes a `for` of these parts at a place of the text.
fn for_of(
    at: usize,
    beginning: Vec<Stmt>,
    test: Option<Box<Expr>>,
    step: Vec<Stmt>,
    body: Box<Stmt>,
) -> Stmt
    ensures { statement result ≡ For (statements beginning.items) (optional test) (statements step.items) (statement body.value) }
{
    Stmt::For(at, beginning, test, step, body)
}

/// Makes a `while` at a place of the text: a `for` with a condition alone.
fn while_of(alloc: Global, at: usize, test: Expr, body: Box<Stmt>) -> Result<Stmt, AllocError>
    ensures { IfOk result (λ r. statement r ≡ For Nothing (Some (expression test)) Nothing (statement body.value)) }
{
    let test = Some(Box::new(alloc, test)?);
    Ok(for_of(at, Vec::new(alloc), test, Vec::new(alloc), body))
}

/// Notes a fault unless two names in a head are equal.
fn same(table: &Table, name: Name, other: Name, first: &mut Option<Misnaming>)
    ensures { first.new ≡ earliest first.old (same_faults (names_of table.now) name other) }
{
    let is_same = bytes_of(table.text, other) == bytes_of(table.text, name);
    note_unless(is_same, NameErrorKind::WrongKind, other.at, first);
}

/// Resolves the bounds of a `cilk_for`. Its variable isn't known in them.
#[tactic(auto, using(crate::proofs::Earliest::earliest_append))]
fn bounds(
    alloc: Global,
    table: &Table,
    head: &Bounds,
    first: &mut Option<Misnaming>,
) -> Result<(Box<Expr>, Box<Expr>), AllocError>
    ensures faults { OnOk result (first.new ≡ earliest first.old (head_faults (names_of table.now) (trees.bounds head.now))) }
    ensures low { IfOk result (λ r. expression r.0.value ≡ (let b = trees.bounds head.now in expression_of (names_of table.now) b.low)) }
    ensures high { IfOk result (λ r. expression r.1.value ≡ (let b = trees.bounds head.now in expression_of (names_of table.now) b.high)) }
{
    let low = part(alloc, table, &head.low, first)?;
    same(table, head.variable, head.tested, first);
    let high = part(alloc, table, &head.high, first)?;
    same(table, head.variable, head.stepped, first);
    Ok((low, high))
}

/// The context outside a parallel loop's body: the loop's place in the text, the frame, the number of
/// enclosing loop bodies, and the loop's number.
#[derive(Clone, Copy)]
struct Outside {
    at: usize,
    frame: Frame,
    level: u32,
    number: u32,
}

impl Resolver<'_> {
    /// Opens a scope in which no reducer may be declared.
    fn open(&mut self, alloc: Global) -> Result<(), AllocError>
        ensures context { OnOk result (context_of self.new ≡ inside (context_of self.old)) }
        ensures same { (self.new.loops ≡ self.old.loops) × (self.new.first ≡ self.old.first) }
    {
        self.frame.heading = false;
        self.table.open(alloc)
    }

    /// Ends the function's reducer declarations at any other statement.
    fn reach(&mut self, tree: &tree::Stmt)
        ensures context { context_of self.new ≡ ahead (context_of self.old) (trees.statement tree.now) }
        ensures same { (self.new.loops ≡ self.old.loops) × (self.new.first ≡ self.old.first) }
    {
        self.frame.heading = keeps_heading(tree, self.frame.heading);
    }

    /// Closes the innermost scope.
    fn close(&mut self)
        ensures context { (outer : List Scope) (inner : Scope) → (let n = names_of self.old.table in n.outer) ≡ outer ++ inner ∷ [] → context_of self.new ≡ record (context_of self.old) { names = record (names_of self.old.table) { inner = inner; outer = outer } } }
        ensures same { (self.new.loops ≡ self.old.loops) × (self.new.first ≡ self.old.first) }
    {
        self.table.close();
    }

    /// Enters the body of a parallel loop with this variable at a place of the text, and reserves the
    /// loop's place in the list of loops.
    fn enter(&mut self, alloc: Global, at: usize, name: Name) -> Result<Outside, AllocError>
        ensures context { OnOk result (context_of self.new ≡ in_body (context_of self.old) name) }
        ensures first { OnOk result (self.new.first ≡ self.old.first) }
        ensures loops { IfOk result (λ o. (p : syntax.Loop) × (map loop self.new.loops.items ≡ map loop self.old.loops.items ++ p ∷ [])) }
        ensures outside { IfOk result (λ o. (o.frame ≡ self.old.frame) × (o.level ≡ self.old.table.level) × (o.number ≡ length self.old.loops.items)) }
    {
        let outside = Outside {
            at,
            frame: self.frame,
            level: self.table.level,
            number: number_of(self.loops.len())?,
        };
        let Some(level) = outside.level.checked_add(1) else {
            return Err(AllocError);
        };
        self.table.open(alloc)?;
        self.table.level = level;
        self.table
            .declare(name, Meaning::Turn(level), &mut self.first)?;
        self.loops.push(Loop {
            at,
            within: outside.frame.body,
            cells: 0,
            body: Vec::new(alloc),
        })?;
        self.frame = Frame {
            body: Body::Loop(outside.number),
            returns: outside.frame.returns,
            cells: 1,
            heading: false,
        };
        Ok(outside)
    }

    /// Leaves the body of a parallel loop, and puts the loop in its reserved place.
    fn leave(&mut self, alloc: Global, outside: Outside, body: Box<Stmt>) -> Result<(), AllocError>
        requires { outside.number < length self.old.loops.items }
        ensures context { OnOk result ((outer : List Scope) (inner : Scope) → (let n = names_of self.old.table in n.outer) ≡ outer ++ inner ∷ [] → context_of self.new ≡ record (context_of self.old) { names = record (names_of self.old.table) { inner = inner; outer = outer; level = outside.level }; frame = outside.frame }) }
        ensures first { self.new.first ≡ self.old.first }
        ensures loops { OnOk result (map loop self.new.loops.items ≡ slice_set (map loop self.old.loops.items) outside.number (record { within = outside.frame.body; cells = self.old.frame.cells; body = Then (statement body.value) Nothing })) }
    {
        let row = row_of_one(alloc, Box::into_inner(body))?;
        let index = outside.number as usize;
        self.loops[index] = Loop {
            at: outside.at,
            within: outside.frame.body,
            cells: self.frame.cells,
            body: row,
        };
        self.frame = outside.frame;
        self.table.close();
        self.table.level = outside.level;
        Ok(())
    }

    /// Resolves a `cilk_for`: its bounds, and then its body, which becomes a loop of the program.
    #[cycle(statements)]
    #[tactic(auto, using(crate::proofs::Earliest::earliest_append))]
    fn parallel(
        &mut self,
        alloc: Global,
        at: usize,
        head: &Bounds,
        body: &tree::Stmt,
    ) -> Result<Stmt, AllocError>
        ensures context { OnOk result (context_of self.new
            ≡ behind (context_of self.old) (trees.ParallelFor (trees.bounds head.now) (trees.statement body.now))) }
        ensures faults { OnOk result (self.new.first
            ≡ earliest self.old.first (statement_faults (context_of self.old)
            (trees.ParallelFor (trees.bounds head.now) (trees.statement body.now)))) }
        ensures loops { OnOk result (map loop self.new.loops.items ≡ map loop self.old.loops.items
            ++ loops_of (context_of self.old) (trees.ParallelFor (trees.bounds head.now)
            (trees.statement body.now))) }
        ensures value { IfOk result (λ r. statement r
            ≡ statement_of (context_of self.old) (trees.ParallelFor (trees.bounds head.now)
            (trees.statement body.now))) }
    {
        let (low, high) = bounds(alloc, &self.table, head, &mut self.first)?;
        let outside = self.enter(alloc, at, head.variable)?;
        let body = self.scoped(alloc, body)?;
        self.leave(alloc, outside, body)?;
        Ok(Stmt::ParallelFor(at, low, high, outside.number))
    }

    /// Resolves a `for`, whose head opens a scope.
    #[cycle(statements)]
    #[tactic(auto, using(crate::proofs::Earliest::earliest_append))]
    fn repeated(
        &mut self,
        alloc: Global,
        at: usize,
        head: &Head,
        body: &tree::Stmt,
    ) -> Result<Stmt, AllocError>
        ensures context { OnOk result (context_of self.new
            ≡ behind (context_of self.old) (trees.repetition head.now (trees.statement body.now))) }
        ensures faults { OnOk result (self.new.first
            ≡ earliest self.old.first (statement_faults (context_of self.old)
            (trees.repetition head.now (trees.statement body.now)))) }
        ensures loops { OnOk result (map loop self.new.loops.items ≡ map loop self.old.loops.items
            ++ loops_of (context_of self.old) (trees.repetition head.now (trees.statement body.now))) }
        ensures value { IfOk result (λ r. statement r
            ≡ statement_of (context_of self.old) (trees.repetition head.now (trees.statement body.now))) }
    {
        self.open(alloc)?;
        let row = self.beginning(alloc, &head.beginning)?;
        let test = optional(alloc, &self.table, &head.test, &mut self.first)?;
        let step = step(alloc, &self.table, &head.step, &mut self.first)?;
        let body = self.scoped(alloc, body)?;
        self.close();
        Ok(for_of(at, row, test, step, body))
    }

    /// Resolves a statement in a scope of its own.
    #[cycle(statements)]
    fn scoped(&mut self, alloc: Global, tree: &tree::Stmt) -> Result<Box<Stmt>, AllocError>
        ensures context { OnOk result (context_of self.new
            ≡ behind_scope (context_of self.old) (behind (inside (context_of self.old))
            (trees.statement tree.now))) }
        ensures faults { OnOk result (self.new.first ≡ earliest self.old.first (statement_faults (inside (context_of self.old)) (trees.statement tree.now))) }
        ensures loops { OnOk result (map loop self.new.loops.items ≡ map loop self.old.loops.items
            ++ loops_of (inside (context_of self.old)) (trees.statement tree.now)) }
        ensures value { IfOk result (λ r. statement r.value ≡ statement_of (inside (context_of self.old)) (trees.statement tree.now)) }
    {
        self.open(alloc)?;
        let boxed = Box::new(alloc, self.statement(alloc, tree)?)?;
        self.close();
        Ok(boxed)
    }

    /// Resolves a condition, and the statement under it in a scope of its own.
    #[cycle(statements)]
    #[tactic(auto, using(crate::proofs::Earliest::earliest_append))]
    fn guarded(
        &mut self,
        alloc: Global,
        body: &tree::Stmt,
        test: &tree::Expr,
    ) -> Result<(Expr, Box<Stmt>), AllocError>
        ensures context { OnOk result (context_of self.new
            ≡ behind_scope (context_of self.old) (behind (inside (context_of self.old))
            (trees.statement body.now))) }
        ensures faults { OnOk result (self.new.first
            ≡ earliest self.old.first (expression_faults (names_of self.old.table) (trees.expression test.now)
            ++ statement_faults (inside (context_of self.old)) (trees.statement body.now))) }
        ensures loops { OnOk result (map loop self.new.loops.items ≡ map loop self.old.loops.items
            ++ loops_of (inside (context_of self.old)) (trees.statement body.now)) }
        ensures test { IfOk result (λ r. expression r.0 ≡ expression_of (names_of self.old.table) (trees.expression test.now)) }
        ensures body { IfOk result (λ r. statement r.1.value ≡ statement_of (inside (context_of self.old)) (trees.statement body.now)) }
    {
        let test = expression(alloc, &self.table, test, &mut self.first)?;
        let body = self.scoped(alloc, body)?;
        Ok((test, body))
    }

    /// Resolves a statement and notes faults.
    #[cycle(statements)]
    #[tactic(auto, using(crate::proofs::Earliest::earliest_append))]
    fn statement(&mut self, alloc: Global, tree: &tree::Stmt) -> Result<Stmt, AllocError>
        ensures context { OnOk result (context_of self.new ≡ behind (context_of self.old) (trees.statement tree.now)) }
        ensures faults { OnOk result (self.new.first ≡ earliest self.old.first (statement_faults (context_of self.old) (trees.statement tree.now))) }
        ensures loops { OnOk result (map loop self.new.loops.items ≡ map loop self.old.loops.items
            ++ loops_of (context_of self.old) (trees.statement tree.now)) }
        ensures value { IfOk result (λ r. statement r ≡ statement_of (context_of self.old) (trees.statement tree.now)) }
    {
        match tree {
            tree::Stmt::Empty(at) => Ok(Stmt::Empty(*at)),
            tree::Stmt::Block(at, list) => self.block(alloc, *at, list),
            tree::Stmt::Declare(locals) => Ok(Stmt::Declare(self.locals(alloc, locals)?)),
            tree::Stmt::Reducer(reducer) => {
                self.reducer(*reducer)?;
                Ok(Stmt::Empty(reducer.name.at))
            }
            tree::Stmt::Assign(tree) => assignment(alloc, &self.table, tree, &mut self.first),
            tree::Stmt::Invoke(how, tree) => {
                invoked(alloc, &self.table, *how, tree, &mut self.first)
            }
            tree::Stmt::AssignCall(name, how, tree) => {
                assigned(alloc, &self.table, *name, *how, tree, &mut self.first)
            }
            tree::Stmt::Sync(at) => Ok(Stmt::Sync(*at)),
            tree::Stmt::If(at, test, body) => {
                let (test, body) = self.guarded(alloc, body, test)?;
                Ok(Stmt::If(*at, test, body))
            }
            tree::Stmt::IfElse(at, test, body, other) => {
                let (test, body) = self.guarded(alloc, body, test)?;
                let other = self.scoped(alloc, other)?;
                Ok(Stmt::IfElse(*at, test, body, other))
            }
            tree::Stmt::While(at, test, body) => {
                let (test, body) = self.guarded(alloc, body, test)?;
                while_of(alloc, *at, test, body)
            }
            tree::Stmt::For(at, head, body) => self.repeated(alloc, *at, head, body),
            tree::Stmt::ParallelFor(at, head, body) => self.parallel(alloc, *at, head, body),
            tree::Stmt::Return(place, value) => {
                let returns = self.frame.returns;
                returned(alloc, &self.table, returns, *place, value, &mut self.first)
            }
            tree::Stmt::Print(at, value) => Ok(Stmt::Print(
                *at,
                expression(alloc, &self.table, value, &mut self.first)?,
            )),
            tree::Stmt::Update(name, value) => {
                update(alloc, &self.table, *name, value, &mut self.first)
            }
            tree::Stmt::Set(name, value) => set(alloc, &self.table, *name, value, &mut self.first),
        }
    }

    /// Resolves a block in a scope of its own.
    #[cycle(statements)]
    #[tactic(auto, using(crate::proofs::Blocks::resolved_list))]
    fn block(&mut self, alloc: Global, at: usize, list: &[tree::Stmt]) -> Result<Stmt, AllocError>
        ensures context { OnOk result (context_of self.new ≡ behind (context_of self.old) (trees.Block (trees.statements list.now))) }
        ensures faults { OnOk result (self.new.first
            ≡ earliest self.old.first (statement_faults (context_of self.old)
            (trees.Block (trees.statements list.now)))) }
        ensures loops { OnOk result (map loop self.new.loops.items ≡ map loop self.old.loops.items
            ++ loops_of (context_of self.old) (trees.Block (trees.statements list.now))) }
        ensures value { IfOk result (λ r. statement r ≡ statement_of (context_of self.old) (trees.Block (trees.statements list.now))) }
    {
        self.open(alloc)?;
        let row = self.row(alloc, list)?;
        self.close();
        Ok(Stmt::Block(at, row))
    }

    /// Resolves statements in order and notes faults.
    #[cycle(statements)]
    pub fn row(&mut self, alloc: Global, list: &[tree::Stmt]) -> Result<Vec<Stmt>, AllocError>
        ensures context { OnOk result (context_of self.new ≡ behind_row (context_of self.old) (trees.statements list.now)) }
        ensures faults { OnOk result (self.new.first ≡ earliest self.old.first (row_faults (context_of self.old) (trees.statements list.now))) }
        ensures loops { OnOk result (map loop self.new.loops.items ≡ map loop self.old.loops.items
            ++ row_loops (context_of self.old) (trees.statements list.now)) }
        ensures value { IfOk result (λ r. statements r.items ≡ row_of (context_of self.old) (trees.statements list.now)) }
    {
        let mut row = Vec::new(alloc);
        'each: for tree in list {
            self.reach(tree);
            row.push(self.statement(alloc, tree)?)?;
        }
        Ok(row)
    }
}
