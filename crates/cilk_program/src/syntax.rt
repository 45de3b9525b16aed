//! Statements and expressions whose names are resolved.
//!
//! Each has the byte of the text that it comes from, which tells where a run reads, writes or stops:
//! of an operator its mark, of a variable, an element or a reducer its name, of a call its first
//! byte, and of other statements their first byte.

ghost use Rattle.cilk_types.specs.Word.{IsWord};

use cilk_monoid::kind::MonoidKind;
use cilk_types::compound::Compound;
use cilk_types::invocation::Invocation;

/// A binary operator that evaluates both operands.
#[derive(Clone, Copy)]
pub enum Operator {
    Add,
    Subtract,
    Multiply,
    Divide,
    Remainder,
    Less,
    LessEqual,
    Greater,
    GreaterEqual,
    Equal,
    NotEqual,
}

/// The place of a variable, as a frame sees it.
#[derive(Clone, Copy, PartialEq, Eq)]
pub enum Place {
    /// A global cell, counted from 0 in order of declaration.
    Global(u32),
    /// A cell of the frame that is the given number of static links up, then the cell's index from
    /// 0. 0 links is the frame itself.
    Local(u32, u32),
}

/// A global array: its first cell and its length.
#[derive(Clone, Copy)]
pub struct Array {
    pub first: u32,
    pub length: u32,
}

/// The place of a reducer, as a frame sees it.
#[derive(Clone, Copy, PartialEq, Eq)]
pub enum ReducerPlace {
    /// A global reducer, counted from 0 in order of declaration.
    Global(u32),
    /// A reducer that a frame created: the number of static links up to that frame, then the index
    /// from 0.
    Own(u32, u32),
    /// A reducer that a frame was given by its caller: the number of static links up to that frame,
    /// then the index from 0.
    Given(u32, u32),
}

/// A reducer and its monoid.
#[derive(Clone, Copy, PartialEq, Eq)]
pub struct Reducer {
    pub place: ReducerPlace,
    pub kind: MonoidKind,
}

/// A number literal. Its type guarantees that it is a word.
#[derive(Clone, Copy)]
pub struct Literal {
    pub value: i64,
    ghost word: { IsWord value },
}

/// An expression.
pub enum Expr {
    Number(usize, Literal),
    Variable(usize, Place),
    /// The array element at an index, which is checked against the array's length.
    Element(usize, Array, Box<Expr>),
    Negate(usize, Box<Expr>),
    Not(usize, Box<Expr>),
    Binary(usize, Operator, Box<Expr>, Box<Expr>),
    /// Evaluates the right side only if the left isn't 0.
    And(usize, Box<Expr>, Box<Expr>),
    /// Evaluates the right side only if the left is 0.
    Or(usize, Box<Expr>, Box<Expr>),
    /// The number of a reducer's view.
    Value(usize, Reducer),
    /// The input number at an index from 0.
    Input(usize, Box<Expr>),
    /// The count of input numbers.
    InputCount(usize),
}

impl Drop for Expr {
    fn drop(self) {
        match self {
            Expr::Number(_, _) => {}
            Expr::Variable(_, _) => {}
            Expr::Element(_, _, _index) => {}
            Expr::Negate(_, _inner) => {}
            Expr::Not(_, _inner) => {}
            Expr::Binary(_, _, _left, _right) => {}
            Expr::And(_, _left, _right) => {}
            Expr::Or(_, _left, _right) => {}
            Expr::Value(_, _) => {}
            Expr::Input(_, _index) => {}
            Expr::InputCount(_) => {}
        }
    }
}

/// The target of an assignment.
pub enum Target {
    Variable(usize, Place),
    Element(usize, Array, Box<Expr>),
}

impl Drop for Target {
    fn drop(self) {
        match self {
            Target::Variable(_, _) => {}
            Target::Element(_, _, _index) => {}
        }
    }
}

/// A call or spawn of a function: its index, its word and reducer arguments in order, and the
/// variable that receives the result.
pub struct Invoke {
    pub at: usize,
    pub how: Invocation,
    pub function: u32,
    pub arguments: Vec<Expr>,
    pub reducers: Vec<Reducer>,
    pub result: Option<Place>,
}

impl Drop for Invoke {
    fn drop(self) {
        let Invoke {
            at: _,
            how: _,
            function: _,
            arguments: _arguments,
            reducers: _reducers,
            result: _,
        } = self;
    }
}

/// One variable of a declaration, by its index among the frame's cells.
pub enum Declaration {
    /// The variable becomes 0.
    Zero(usize, u32),
    Value(usize, u32, Expr),
    /// The child writes its result. The declaration itself writes nothing.
    Invoke(Invoke),
}

impl Drop for Declaration {
    fn drop(self) {
        match self {
            Declaration::Zero(_, _) => {}
            Declaration::Value(_, _, _value) => {}
            Declaration::Invoke(_invoke) => {}
        }
    }
}

/// A statement. Each variant is at most 88 bytes: a list has room for the largest one at each of its
/// statements, so what is larger is in a box.
pub enum Stmt {
    /// Does nothing. A local reducer's declaration is empty too: the reducer is created when its
    /// frame begins.
    Empty(usize),
    Block(usize, Vec<Stmt>),
    Declare(Vec<Declaration>),
    Assign(Target, Expr),
    /// A compound assignment, with the place of its mark.
    Change(Compound, Target, usize, Expr),
    /// Adds 1 for `++`, -1 for `--`.
    Step(Target, i64),
    Invoke(Invoke),
    Sync(usize),
    If(usize, Expr, Box<Stmt>),
    IfElse(usize, Expr, Box<Stmt>, Box<Stmt>),
    /// A `for`: its initial statements, its condition (true if absent), its step and its body. A
    /// `while` has only a condition and a body.
    For(usize, Vec<Stmt>, Option<Box<Expr>>, Vec<Stmt>, Box<Stmt>),
    /// A `cilk_for` from the first bound up to, but not including, the second, and the loop's index
    /// in the program.
    ParallelFor(usize, Box<Expr>, Box<Expr>, u32),
    Print(usize, Expr),
    Update(usize, Reducer, Expr),
    Set(usize, Reducer, Expr),
    /// Returns a value, or 0 if there is none.
    Return(usize, Option<Box<Expr>>),
}

impl Drop for Stmt {
    fn drop(self) {
        match self {
            Stmt::Empty(_) => {}
            Stmt::Block(_, _list) => {}
            Stmt::Declare(_list) => {}
            Stmt::Assign(_target, _value) => {}
            Stmt::Change(_, _target, _, _value) => {}
            Stmt::Step(_target, _) => {}
            Stmt::Invoke(_invoke) => {}
            Stmt::Sync(_) => {}
            Stmt::If(_, _test, _body) => {}
            Stmt::IfElse(_, _test, _then, _other) => {}
            Stmt::For(_, _first, _test, _step, _body) => {}
            Stmt::ParallelFor(_, _from, _to, _) => {}
            Stmt::Print(_, _value) => {}
            Stmt::Update(_, _, _value) => {}
            Stmt::Set(_, _, _value) => {}
            Stmt::Return(_, _value) => {}
        }
    }
}
