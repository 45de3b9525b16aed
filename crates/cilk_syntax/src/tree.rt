//! The syntax tree of a program text, and the grammar.
//!
//! A [`Tree`] owns the text, and a [`Name`] is a range of its bytes, so names need no memory of
//! their own. Lists are `Vec`s, and each expression is in a box of its own, so a statement is small
//! and is dropped in few steps. `specs/Trees.antt` has the same trees as plain data, without their
//! layout in memory; the grammar and the scope rules are defined on it.
//!
//! ```text
//! program = { item }
//! item    = "int" glob {"," glob} ";" | reducer
//!         | ("int"|"void") NAME "(" params ")" block
//! glob    = NAME [ "=" ["-"] NUMBER ] | NAME "[" NUMBER "]"
//! reducer = "int" "cilk_reducer" "(" NAME ")" NAME ";"
//! params  = [ "void" | param {"," param} ]
//! param   = "int" NAME | "int" "cilk_reducer" "(" NAME ")" NAME
//! block   = "{" {stmt} "}"
//! stmt    = block | ";" | "int" loc {"," loc} ";" | reducer
//!         | assign ";" | ["cilk_spawn"] call ";"
//!         | NAME "=" ["cilk_spawn"] call ";" | "cilk_sync" ";"
//!         | "if" "(" expr ")" stmt [ "else" stmt ]
//!         | "while" "(" expr ")" stmt
//!         | "for" "(" [ "int" NAME "=" expr | assign ] ";"
//!           [expr] ";" [assign] ")" stmt
//!         | "cilk_for" "(" "int" NAME "=" expr ";" NAME "<" expr ";"
//!           ( NAME "++" | "++" NAME | NAME "+=" "1" ) ")" stmt
//!         | "return" [expr] ";" | "print" "(" expr ")" ";"
//!         | ("update"|"set") "(" NAME "," expr ")" ";"
//! loc     = NAME [ "=" ( expr | ["cilk_spawn"] call ) ]
//! assign  = place ("="|"+="|"-="|"*=") expr | place ("++"|"--")
//!         | ("++"|"--") place
//! place   = NAME [ "[" expr "]" ]
//! call    = NAME "(" [ expr {"," expr} ] ")"
//! expr    = levels, weakest first, left to right: || ; && ; == != ;
//!           < <= > >= ; + - ; * / % ; unary - ! ; primary
//! primary = NUMBER | place | "(" expr ")" | "value" "(" NAME ")"
//!         | "input" "(" expr ")" | "input_count" "(" ")"
//! ```
//!
//! An `else` belongs to the nearest `if`. Directly after the `=` of the statement `NAME = ..` or of
//! a `loc`, a name and a parenthesis begin a call. No other expression has that parenthesis.
//!
//! Statements and parts of expressions are nested at most 64 deep. Each enclosing statement counts
//! one, and so does each pair of parentheses or brackets, each `input(` and each unary operator of
//! an expression. The parentheses of calls, `if`, `while`, `for`, `print`, `update`, `set` and
//! `value` don't count. An expression has at most 256 operators, including those of its groups and
//! indexes. An argument, and the index of an element that is written, are expressions of their own.
//!
//! ```text
//! int g = -7;    // Item::Globals([GlobalVariable::Variable(name, Initializer::Negative(7))])
//! ```

ghost use Rattle.std.specs.Prelude.{◌≡◌};
ghost use Rattle.cilk_syntax.specs.Trees;

use cilk_types::compound::Compound;
use cilk_types::invocation::Invocation;
use cilk_types::word::neg;

/// A name: the bytes `at..end` of the text.
#[derive(Clone, Copy)]
pub struct Name {
    pub at: usize,
    pub end: usize,
}

/// A unary operator.
#[derive(Clone, Copy)]
pub enum UnaryOperator {
    Negate,
    Not,
}

/// A binary operator.
#[derive(Clone, Copy)]
pub enum BinaryOperator {
    Or,
    And,
    Equal,
    NotEqual,
    Less,
    LessEqual,
    Greater,
    GreaterEqual,
    Add,
    Subtract,
    Multiply,
    Divide,
    Remainder,
}

/// The return type of a function.
#[derive(Clone, Copy)]
pub enum ReturnType {
    Int,
    Void,
}

/// A reducer that is declared or is a parameter: the name of its monoid, and its own name.
#[derive(Clone, Copy)]
pub struct Reducer {
    pub monoid: Name,
    pub name: Name,
}

/// An expression. `Element` is an element of an array, `Group` an expression in parentheses,
/// `Value` the value of a reducer, and `Input` the input number at a place. Numbers, operators and
/// inputs have the place of their first byte.
pub enum Expr {
    Number(usize, i64),
    Variable(Name),
    Element(Name, Box<Expr>),
    Group(Box<Expr>),
    Unary(usize, UnaryOperator, Box<Expr>),
    Binary(usize, BinaryOperator, Box<Expr>, Box<Expr>),
    Value(Name),
    Input(usize, Box<Expr>),
    InputCount(usize),
}

impl Drop for Expr {
    fn drop(self) {
        match self {
            Expr::Number(_, _) => {}
            Expr::Variable(_) => {}
            Expr::Element(_, _index) => {}
            Expr::Group(_inner) => {}
            Expr::Unary(_, _, _right) => {}
            Expr::Binary(_, _, _left, _right) => {}
            Expr::Value(_) => {}
            Expr::Input(_, _index) => {}
            Expr::InputCount(_) => {}
        }
    }
}

/// An argument of a call, with the place of its first byte.
#[derive(Drop)]
pub struct Argument {
    pub at: usize,
    pub value: Box<Expr>,
}

/// A call: the name of the function, and the arguments in order. `at` is the place of its first
/// byte, which is that of its `cilk_spawn` if it has one.
pub struct Call {
    pub at: usize,
    pub name: Name,
    pub arguments: Vec<Argument>,
}

impl Drop for Call {
    fn drop(self) {
        let Call {
            at: _,
            name: _,
            arguments: _arguments,
        } = self;
    }
}

/// The target of an assignment: a variable, or an element of an array.
pub enum Lvalue {
    Variable(Name),
    Element(Name, Box<Expr>),
}

impl Drop for Lvalue {
    fn drop(self) {
        match self {
            Lvalue::Variable(_) => {}
            Lvalue::Element(_, _at) => {}
        }
    }
}

/// An assignment: `=`, a compound one (`+=`, `-=`, `*=`) with the place of its mark, `++`, or `--`.
pub enum Assignment {
    Set(Lvalue, Box<Expr>),
    Compound(usize, Compound, Lvalue, Box<Expr>),
    Increment(Lvalue),
    Decrement(Lvalue),
}

impl Drop for Assignment {
    fn drop(self) {
        match self {
            Assignment::Set(_target, _value) => {}
            Assignment::Compound(_, _, _target, _value) => {}
            Assignment::Increment(_target) => {}
            Assignment::Decrement(_target) => {}
        }
    }
}

/// The initializer of a local variable: none, an expression, or a call.
pub enum LocalInitializer {
    Absent,
    Value(Box<Expr>),
    Invoke(Invocation, Box<Call>),
}

impl Drop for LocalInitializer {
    fn drop(self) {
        match self {
            LocalInitializer::Absent => {}
            LocalInitializer::Value(_value) => {}
            LocalInitializer::Invoke(_, _call) => {}
        }
    }
}

/// A declaration of a local variable.
#[derive(Drop)]
pub struct Local {
    pub name: Name,
    pub initializer: LocalInitializer,
}

/// The first part of the head of a `for`: `int` and a variable with its value, or an assignment.
pub enum Beginning {
    Declares(Name, Box<Expr>),
    Assigns(Assignment),
}

impl Drop for Beginning {
    fn drop(self) {
        match self {
            Beginning::Declares(_, _value) => {}
            Beginning::Assigns(_assignment) => {}
        }
    }
}

/// The head of a `for`: its three parts.
pub struct Head {
    pub beginning: Option<Beginning>,
    pub test: Option<Box<Expr>>,
    pub step: Option<Assignment>,
}

impl Drop for Head {
    fn drop(self) {
        let Head {
            beginning: _beginning,
            test: _test,
            step: _step,
        } = self;
    }
}

/// The head of a `cilk_for`: `int variable = low; tested < high; stepped++`. The three names must
/// be equal, which names resolution checks and the grammar doesn't.
pub struct Bounds {
    pub variable: Name,
    pub low: Box<Expr>,
    pub tested: Name,
    pub high: Box<Expr>,
    pub stepped: Name,
}

impl Drop for Bounds {
    fn drop(self) {
        let Bounds {
            variable: _,
            low: _low,
            tested: _,
            high: _high,
            stepped: _,
        } = self;
    }
}

/// A statement. Those without a name of their own have the place of their first byte. `AssignCall`
/// assigns a call's result to a variable. Each variant is at most 40 bytes: a list has room for the
/// largest one at each of its statements, so what is larger is in a box.
pub enum Stmt {
    Empty(usize),
    Block(usize, Vec<Stmt>),
    Declare(Vec<Local>),
    Reducer(Reducer),
    Assign(Box<Assignment>),
    Invoke(Invocation, Box<Call>),
    AssignCall(Name, Invocation, Box<Call>),
    Sync(usize),
    If(usize, Box<Expr>, Box<Stmt>),
    IfElse(usize, Box<Expr>, Box<Stmt>, Box<Stmt>),
    While(usize, Box<Expr>, Box<Stmt>),
    For(usize, Box<Head>, Box<Stmt>),
    ParallelFor(usize, Box<Bounds>, Box<Stmt>),
    Return(usize, Option<Box<Expr>>),
    Print(usize, Box<Expr>),
    Update(Name, Box<Expr>),
    Set(Name, Box<Expr>),
}

impl Drop for Stmt {
    fn drop(self) {
        match self {
            Stmt::Empty(_) => {}
            Stmt::Block(_, _body) => {}
            Stmt::Declare(_locals) => {}
            Stmt::Reducer(_) => {}
            Stmt::Assign(_assignment) => {}
            Stmt::Invoke(_, _call) => {}
            Stmt::AssignCall(_, _, _call) => {}
            Stmt::Sync(_) => {}
            Stmt::If(_, _test, _then) => {}
            Stmt::IfElse(_, _test, _then, _other) => {}
            Stmt::While(_, _test, _body) => {}
            Stmt::For(_, _head, _body) => {}
            Stmt::ParallelFor(_, _bounds, _body) => {}
            Stmt::Return(_, _value) => {}
            Stmt::Print(_, _value) => {}
            Stmt::Update(_, _value) => {}
            Stmt::Set(_, _value) => {}
        }
    }
}

/// The initializer of a global variable: none, `= n`, or `= -n`.
#[derive(Clone, Copy)]
pub enum Initializer {
    Absent,
    Number(i64),
    Negative(i64),
}

impl Initializer {
    /// Returns the value that the variable has as a run begins.
    pub fn value(self) -> i64
        ensures { result ≡ Trees.opening_value self }
    {
        match self {
            Initializer::Absent => 0,
            Initializer::Number(value) => value,
            Initializer::Negative(value) => neg(value),
        }
    }
}

/// A global variable, or a global array with its length.
#[derive(Clone, Copy)]
pub enum GlobalVariable {
    Variable(Name, Initializer),
    Array(Name, i64),
}

/// A parameter of a function: a word, or a reducer.
#[derive(Clone, Copy)]
pub enum Parameter {
    Variable(Name),
    Reducer(Reducer),
}

/// An item: a line of global variables, a global reducer, or a function with the place of the brace
/// that closes it.
pub enum Item {
    Globals(Vec<GlobalVariable>),
    Reducer(Reducer),
    Function(ReturnType, Name, Vec<Parameter>, Vec<Stmt>, usize),
}

impl Drop for Item {
    fn drop(self) {
        match self {
            Item::Globals(_variables) => {}
            Item::Reducer(_) => {}
            Item::Function(_, _, _parameters, _body, _) => {}
        }
    }
}

/// A program: its items, and the text that its names refer to.
pub struct Tree {
    pub text: Vec<u8>,
    pub items: Vec<Item>,
}

impl Drop for Tree {
    fn drop(self) {
        let Tree {
            text: _text,
            items: _items,
        } = self;
    }
}
