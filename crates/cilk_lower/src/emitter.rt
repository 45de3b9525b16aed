//! Emits statements and bodies, with their call sites.

ghost use Rattle.std.specs.Prelude.{◌≡◌, ◌≤◌, max, map, [], ◌∷◌, ◌++◌, length, IfOk, OnOk};
ghost use Rattle.cilk_lower.specs.declared.code.Instr.{Instr};
ghost use Rattle.cilk_lower.specs.Bodies.{FunctionFits, LoopFits};
ghost use Rattle.cilk_lower.specs.Code.{all_code, all_sites, declaration_code, declaration_sites, declarations_code, declarations_sites, function_code, invoke_code, loop_code, site, SitesFit, stmt_code, stmt_sites};
ghost use Rattle.cilk_lower.specs.Rooms.{declaration_depth, declarations_depth, deepest, deepest_of_all, depths};
ghost use Rattle.cilk_program.specs.Programs.{declaration, expression, function, invoke, loop, optional, statement, statements};
ghost use Rattle.cilk_program.specs.Syntax.{For, If, IfElse};

use crate::bodies::{put_own, put_words};
use crate::code::{EntryPoint, Instr, Site};
use crate::expressions::{emit_value, emit_values};
use crate::put::{
    Listing, begin, begin_else, pass, pass_if_zero, pass_unless_one, put, put_ends, put_halves,
    put_jump,
};
use crate::simple::{
    emit_assign, emit_change, emit_choice, emit_last, emit_parallel, emit_return, emit_step,
    emit_sync, emit_test, end_turn,
};
use cilk_program::given::References;
use cilk_program::program::{Function, Loop};
use cilk_program::syntax::{Declaration, Expr, Invoke, Place, Reducer, Stmt};
use std::alloc::AllocError;

/// The instructions and call sites so far, and the room that the current body needs.
#[derive(Drop)]
pub struct Emitter {
    pub instrs: Listing,
    pub sites: Vec<Site>,
    pub room: usize,
}

impl Emitter {
    /// Emits a function: its words, its reducers and its body.
    pub fn emit_function(&mut self, f: &Function) -> Result<EntryPoint, AllocError>
        requires { FunctionFits f.now }
        ensures code { OnOk result (self.new.instrs.items ≡ self.old.instrs.items ++ function_code (length self.old.sites.items) (function f.now)) }
        ensures sites { let g = function f.now in OnOk result (self.new.sites.items ≡ self.old.sites.items ++ all_sites g.body) }
        ensures place { IfOk result (λ e. e.place ≡ length self.old.instrs.items) }
        ensures room { let g = function f.now in IfOk result (λ e. e.room ≡ deepest_of_all g.body) }
    {
        let place = self.instrs.len();
        put_words(&mut self.instrs, f.at, f.words)?;
        put_own(&mut self.instrs, f.at, f.reducers.as_slice())?;
        self.room = 0;
        self.emit_all(&f.body)?;
        put_ends(&mut self.instrs, f.end)?;
        Ok(EntryPoint {
            place,
            room: self.room,
        })
    }

    /// Emits the body of a `cilk_for`. A frame with one turn runs it, and a frame with several
    /// turns halves them.
    pub fn emit_loop(&mut self, l: &Loop) -> Result<EntryPoint, AllocError>
        requires { LoopFits l.now }
        ensures code { OnOk result (self.new.instrs.items ≡ self.old.instrs.items ++ loop_code (length self.old.sites.items) (loop l.now)) }
        ensures sites { let b = loop l.now in OnOk result (self.new.sites.items ≡ self.old.sites.items ++ all_sites b.body) }
        ensures place { IfOk result (λ e. e.place ≡ length self.old.instrs.items) }
        ensures room { let b = loop l.now in IfOk result (λ e. e.room ≡ deepest_of_all b.body) }
    {
        let place = put_jump(&mut self.instrs, l.at, Instr::SkipUnlessOne(0))?;
        put(&mut self.instrs, l.at, Instr::Turn)?;
        self.room = 0;
        self.emit_all(&l.body)?;
        put_ends(&mut self.instrs, l.at)?;
        pass_unless_one(&mut self.instrs, place);
        put_halves(&mut self.instrs, l.at)?;
        Ok(EntryPoint {
            place,
            room: self.room,
        })
    }

    // The statements of a block or a body.
    #[cycle(statements)]
    fn emit_all(&mut self, row: &[Stmt]) -> Result<(), AllocError>
        requires { SitesFit (all_sites (statements row.now)) }
        ensures code { OnOk result (self.new.instrs.items ≡ self.old.instrs.items ++ all_code (length self.old.sites.items) (statements row.now)) }
        ensures sites { OnOk result (self.new.sites.items ≡ self.old.sites.items ++ all_sites (statements row.now)) }
        ensures room { OnOk result (self.new.room ≡ max self.old.room (deepest_of_all (statements row.now))) }
    {
        'each: for s in row {
            self.emit_stmt(s)?;
        }
        Ok(())
    }

    #[cycle(statements)]
    fn emit_stmt(&mut self, s: &Stmt) -> Result<(), AllocError>
        requires { SitesFit (stmt_sites (statement s.now)) }
        ensures code { OnOk result (self.new.instrs.items ≡ self.old.instrs.items ++ stmt_code (length self.old.sites.items) (statement s.now)) }
        ensures sites { OnOk result (self.new.sites.items ≡ self.old.sites.items ++ stmt_sites (statement s.now)) }
        ensures room { OnOk result (self.new.room ≡ max self.old.room (deepest (statement s.now))) }
    {
        match s {
            Stmt::Empty(at) => begin(&mut self.instrs, *at),
            Stmt::Block(at, row) => {
                begin(&mut self.instrs, *at)?;
                self.emit_all(row)
            }
            Stmt::Declare(row) => self.emit_declarations(row),
            Stmt::Assign(to, e) => emit_assign(&mut self.instrs, &mut self.room, to, e),
            Stmt::Change(op, to, mark, e) => {
                emit_change(&mut self.instrs, &mut self.room, to, *mark, *op, e)
            }
            Stmt::Step(to, n) => emit_step(&mut self.instrs, &mut self.room, to, *n),
            Stmt::Invoke(call) => self.emit_statement_invoke(call),
            Stmt::Sync(at) => emit_sync(&mut self.instrs, *at),
            Stmt::If(at, test, body) => self.emit_if(*at, test, body),
            Stmt::IfElse(at, test, first, second) => self.emit_if_else(*at, test, first, second),
            Stmt::For(at, beginning, test, step, body) => {
                self.emit_for(*at, beginning, test, step, body)
            }
            Stmt::ParallelFor(at, a, b, n) => {
                emit_parallel(&mut self.instrs, &mut self.room, *at, a, b, *n)
            }
            Stmt::Print(at, e) => {
                emit_last(&mut self.instrs, &mut self.room, *at, e, Instr::Print)
            }
            Stmt::Update(at, r, e) => {
                emit_last(&mut self.instrs, &mut self.room, *at, e, Instr::Update(*r))
            }
            Stmt::Set(at, r, e) => {
                emit_last(&mut self.instrs, &mut self.room, *at, e, Instr::Set(*r))
            }
            Stmt::Return(at, e) => emit_return(&mut self.instrs, &mut self.room, *at, e),
        }
    }

    #[cycle(statements)]
    fn emit_if(&mut self, at: usize, test: &Expr, body: &Stmt) -> Result<(), AllocError>
        requires { SitesFit (stmt_sites (If (expression test.now) (statement body.now))) }
        ensures code { OnOk result (self.new.instrs.items ≡ self.old.instrs.items ++ stmt_code (length self.old.sites.items) (If (expression test.now) (statement body.now))) }
        ensures sites { OnOk result (self.new.sites.items ≡ self.old.sites.items ++ stmt_sites (If (expression test.now) (statement body.now))) }
        ensures room { OnOk result (self.new.room ≡ max self.old.room (deepest (If (expression test.now) (statement body.now)))) }
    {
        let skip = emit_choice(&mut self.instrs, &mut self.room, at, test)?;
        self.emit_stmt(body)?;
        pass_if_zero(&mut self.instrs, skip);
        Ok(())
    }

    #[cycle(statements)]
    fn emit_if_else(
        &mut self,
        at: usize,
        test: &Expr,
        first: &Stmt,
        second: &Stmt,
    ) -> Result<(), AllocError>
        requires { SitesFit (stmt_sites (IfElse (expression test.now) (statement first.now) (statement second.now))) }
        ensures code { OnOk result (self.new.instrs.items ≡ self.old.instrs.items ++ stmt_code (length self.old.sites.items) (IfElse (expression test.now) (statement first.now) (statement second.now))) }
        ensures sites { OnOk result (self.new.sites.items ≡ self.old.sites.items ++ stmt_sites (IfElse (expression test.now) (statement first.now) (statement second.now))) }
        ensures room { OnOk result (self.new.room ≡ max self.old.room (deepest (IfElse (expression test.now) (statement first.now) (statement second.now)))) }
    {
        let skip = emit_choice(&mut self.instrs, &mut self.room, at, test)?;
        self.emit_stmt(first)?;
        let jump = begin_else(&mut self.instrs, at, skip)?;
        self.emit_stmt(second)?;
        pass(&mut self.instrs, jump);
        Ok(())
    }

    #[cycle(statements)]
    fn emit_for(
        &mut self,
        at: usize,
        beginning: &[Stmt],
        test: &Option<Box<Expr>>,
        step: &[Stmt],
        body: &Stmt,
    ) -> Result<(), AllocError>
        requires { SitesFit (stmt_sites (For (statements beginning.now) (optional test.now) (statements step.now) (statement body.now))) }
        ensures code { OnOk result (self.new.instrs.items ≡ self.old.instrs.items ++ stmt_code (length self.old.sites.items) (For (statements beginning.now) (optional test.now) (statements step.now) (statement body.now))) }
        ensures sites { OnOk result (self.new.sites.items ≡ self.old.sites.items ++ stmt_sites (For (statements beginning.now) (optional test.now) (statements step.now) (statement body.now))) }
        ensures room { OnOk result (self.new.room ≡ max self.old.room (deepest (For (statements beginning.now) (optional test.now) (statements step.now) (statement body.now)))) }
    {
        begin(&mut self.instrs, at)?;
        self.emit_all(beginning)?;
        emit_test(&mut self.instrs, &mut self.room, at, test)?;
        let start = self.instrs.len();
        self.emit_stmt(body)?;
        self.emit_all(step)?;
        end_turn(&mut self.instrs, &mut self.room, at, test, start)?;
        Ok(())
    }

    // The variables of a declaration, in order.
    fn emit_declarations(&mut self, row: &[Declaration]) -> Result<(), AllocError>
        requires { SitesFit (declarations_sites (map declaration row.now)) }
        ensures code { OnOk result (self.new.instrs.items ≡ self.old.instrs.items ++ (Instr.Tick ∷ declarations_code (length self.old.sites.items) (map declaration row.now))) }
        ensures sites { OnOk result (self.new.sites.items ≡ self.old.sites.items ++ declarations_sites (map declaration row.now)) }
        ensures room { OnOk result (self.new.room ≡ max self.old.room (declarations_depth (map declaration row.now))) }
    {
        begin(&mut self.instrs, first_origin(row))?;
        'each: for d in row {
            self.emit_declaration(d)?;
        }
        Ok(())
    }

    fn emit_declaration(&mut self, d: &Declaration) -> Result<(), AllocError>
        requires { SitesFit (declaration_sites (declaration d.now)) }
        ensures code { OnOk result (self.new.instrs.items ≡ self.old.instrs.items ++ declaration_code (length self.old.sites.items) (declaration d.now)) }
        ensures sites { OnOk result (self.new.sites.items ≡ self.old.sites.items ++ declaration_sites (declaration d.now)) }
        ensures room { OnOk result (self.new.room ≡ max self.old.room (declaration_depth (declaration d.now))) }
    {
        match d {
            Declaration::Zero(at, cell) => put(&mut self.instrs, *at, Instr::Zero(*cell)),
            Declaration::Value(at, cell, e) => {
                emit_value(&mut self.instrs, &mut self.room, e)?;
                put(&mut self.instrs, *at, Instr::Store(Place::Local(0, *cell)))
            }
            Declaration::Invoke(call) => self.emit_invoke(call),
        }
    }

    // A call or spawn that is a whole statement.
    fn emit_statement_invoke(&mut self, call: &Invoke) -> Result<(), AllocError>
        requires { SitesFit (site (invoke call.now) ∷ []) }
        ensures code { OnOk result (self.new.instrs.items ≡ self.old.instrs.items ++ (Instr.Tick ∷ invoke_code (length self.old.sites.items) (invoke call.now))) }
        ensures sites { OnOk result (self.new.sites.items ≡ self.old.sites.items ++ site (invoke call.now) ∷ []) }
        ensures room { let i = invoke call.now in OnOk result (self.new.room ≡ max self.old.room (depths i.arguments)) }
    {
        begin(&mut self.instrs, call.at)?;
        self.emit_invoke(call)
    }

    // The arguments of a call or spawn, and its call site.
    fn emit_invoke(&mut self, call: &Invoke) -> Result<(), AllocError>
        requires { SitesFit (site (invoke call.now) ∷ []) }
        ensures code { OnOk result (self.new.instrs.items ≡ self.old.instrs.items ++ invoke_code (length self.old.sites.items) (invoke call.now)) }
        ensures sites { OnOk result (self.new.sites.items ≡ self.old.sites.items ++ site (invoke call.now) ∷ []) }
        ensures room { let i = invoke call.now in OnOk result (self.new.room ≡ max self.old.room (depths i.arguments)) }
    {
        emit_values(&mut self.instrs, &mut self.room, &call.arguments)?;
        put(&mut self.instrs, call.at, Instr::Invoke(self.sites.len()))?;
        put(&mut self.instrs, call.at, Instr::Resume)?;
        self.sites.push(site_of(call))?;
        Ok(())
    }
}

// The byte that the first of these declarations comes from.
fn first_origin(row: &[Declaration]) -> usize {
    match row.first() {
        Some(Declaration::Zero(at, _)) => *at,
        Some(Declaration::Value(at, _, _)) => *at,
        Some(Declaration::Invoke(call)) => call.at,
        None => 0,
    }
}

fn site_of(call: &Invoke) -> Site
    requires { length call.now.reducers.items ≤ 16 }
    ensures { result ≡ site (invoke call.now) }
{
    Site {
        how: call.how,
        function: call.function,
        words: call.arguments.len(),
        reducers: references(&call.reducers),
        result: call.result,
    }
}

// The reducers are inserted at the front, so the last one comes first.
fn references(reducers: &[Reducer]) -> References
    requires { length reducers.now ≤ 16 }
    ensures { result ≡ reducers.now }
{
    let mut references = References::new();
    'each: for i in 0..reducers.len() {
        references.put(reducers[reducers.len() - 1 - i]);
    }
    references
}
