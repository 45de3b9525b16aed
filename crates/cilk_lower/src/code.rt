//! The code of a program: its instructions, call sites and entry points.

ghost use Rattle.std.specs.Prelude.{◌≡◌, ◌≢◌, ◌<◌, ◌≤◌, ◌^◌, slice_get, unwrap_or, length, None, Some};
ghost use Rattle.cilk_lower.specs.Behaves.{IsCode};
ghost use Rattle.cilk_lower.specs.Code.{ArraysFit, JumpsLand, Lands, ArrayFits, SitesFit, entry_of};

use crate::layout::Layout;
use crate::put::Listing;
use cilk_program::ask::Callee;
use cilk_program::given::References;
use cilk_program::syntax::{Array, Operator, Place, Reducer};
use cilk_types::compound::Compound;
use cilk_types::invocation::Invocation;
use std::marker::Model;

/// An instruction. It makes at most one request. It uses one tick if it is `Tick`, `Push`, `Load`,
/// `LoadElement`, `Negate`, `Not`, `Apply`, `Truth`, `Value`, `Input` or `InputCount`, two if it is
/// `ApplyNumber`, and none otherwise. A forward jump gives the number of instructions that it skips.
#[derive(Clone, Copy)]
pub enum Instr {
    /// Begins a statement.
    Tick,
    /// Pushes a number.
    Push(i64),
    /// Pushes the value at a place.
    Load(Place),
    /// Replaces the index on top by the value of that element.
    LoadElement(Array),
    /// Pushes the value at a place, without a tick.
    LoadUncounted(Place),
    /// Pushes the value of the element whose index is on top, and keeps the index. Uses no tick.
    FetchElement(Array),
    /// Pops a value into a place.
    Store(Place),
    /// Pops a value and the index below it, and writes the value to that element.
    StoreElement(Array),
    /// Writes 0 to a cell of the frame.
    Zero(u32),
    /// Replaces an old value and the value above it by their combination, without a tick.
    Combine(Compound),
    /// Adds a number to the top, without a tick.
    AddNumber(i64),
    /// Negates the top.
    Negate,
    /// Replaces the top by 1 if it is 0, else by 0.
    Not,
    /// Applies an operator to the two topmost values. The right operand is on top.
    Apply(Operator),
    /// Does what a `Push` of a number and the `Apply` that follows do, and continues after it.
    ApplyNumber(Operator, i64),
    /// Replaces the top by 0 if it is 0, else by 1.
    Truth,
    /// Pushes the number of a reducer's view.
    Value(Reducer),
    /// Replaces the index on top by that input number.
    Input,
    /// Pushes the count of input numbers.
    InputCount,
    /// Pops a value and prints it.
    Print,
    /// Creates a reducer, whose view is its monoid's unit.
    Create(Reducer),
    /// Pops a value, and combines a reducer's view with it on the right.
    Update(Reducer),
    /// Pops a value, and replaces a reducer's view by that of this value alone.
    Set(Reducer),
    /// Writes the frame's n-th word to its n-th cell.
    Word(u32),
    /// Writes the frame's single turn to the loop's variable.
    Turn,
    /// Calls or spawns by the n-th call site, with the words on the stack.
    Invoke(usize),
    /// Calls the frame of all turns of a loop between the two bounds on the stack. If there are
    /// none, continues after the `Resume` that follows.
    CallLoop(u32),
    /// Spawns the first half of the frame's turns.
    SpawnHalf,
    /// Calls the second half of the frame's turns.
    CallHalf,
    /// Resumes the frame after a child.
    Resume,
    /// Pops a value, and skips n instructions if it is 0.
    JumpIfZero(usize),
    /// Skips n instructions if the frame has several turns.
    SkipUnlessOne(usize),
    /// Skips n instructions.
    Jump(usize),
    /// Goes back n instructions.
    JumpBack(usize),
    /// Pops a value, and goes back n instructions unless it is 0.
    JumpBackUnlessZero(usize),
    /// Pops a value, and keeps it as the frame's result.
    SetResult,
    /// Waits for the children that the frame spawned.
    Sync,
    /// Writes the result to the caller's variable, if the caller takes one.
    GiveResult,
    /// Ends the frame with its result.
    End,
}

/// Whether the answer to a request is pushed onto the frame's stack.
#[derive(Clone, Copy)]
pub enum Owed {
    Nothing,
    Word,
}

/// The place where a body's frame begins, and its room for operands.
#[derive(Clone, Copy)]
pub struct EntryPoint {
    pub place: usize,
    pub room: usize,
}

/// A call site: call or spawn, the function's index, how many words on the stack are its arguments,
/// the reducers that it is given, and the variable that receives the result.
#[derive(Drop)]
pub struct Site {
    pub how: Invocation,
    pub function: u32,
    pub words: usize,
    pub reducers: References,
    pub result: Option<Place>,
}

/// The code of a well-named program. Each jump stays within the instructions, each array's cells
/// fit in `u32`, and each call site has at most 16 words and 16 reducers. Each instruction has the
/// byte of the text that it comes from: at the begin of a function's frame that of the function's
/// name, and 0 where a global reducer is created.
pub struct Code {
    instrs: Vec<Instr>,
    origins: Vec<usize>,
    sites: Vec<Site>,
    root: EntryPoint,
    functions: Vec<EntryPoint>,
    loops: Vec<EntryPoint>,
    layout: Layout,
}

// A separate function, so that a proof follows one call where a code is dropped.
impl Drop for Code {
    fn drop(self) {
        let Code {
            instrs: _instrs,
            origins: _origins,
            sites: _sites,
            root: _,
            functions: _functions,
            loops: _loops,
            layout: _layout,
        } = self;
    }
}

impl Model for Code {
    ghost use Rattle.cilk_lower.specs.Behaves.{IsCode};
    ghost use Rattle.cilk_lower.specs.Code.{CodeView, JumpsLand, ArraysFit, SitesFit};

    ghost Value = { CodeView };

    ghost view = { λ c. record { instrs = c.instrs.items; sites = c.sites.items; root = c.root; functions = c.functions.items; loops = c.loops.items; layout = c.layout } };

    ghost invariant = { λ c. (JumpsLand c.instrs.items × ArraysFit c.instrs.items) × SitesFit c.sites.items × IsCode (record { instrs = c.instrs.items; sites = c.sites.items; root = c.root; functions = c.functions.items; loops = c.loops.items; layout = c.layout }) };
}

impl Code {
    /// Makes a code of its parts.
    pub(crate) fn new(
        instrs: Listing,
        sites: Vec<Site>,
        root: EntryPoint,
        functions: Vec<EntryPoint>,
        loops: Vec<EntryPoint>,
        layout: Layout,
    ) -> Code
        requires jumps { JumpsLand instrs.items }
        requires arrays { ArraysFit instrs.items }
        requires sites_fit { SitesFit sites.items }
        requires is_code { IsCode (record { instrs = instrs.items; sites = sites.items; root = root; functions = functions.items; loops = loops.items; layout = layout }) }
        ensures { result ≡ record { instrs = instrs.items; sites = sites.items; root = root; functions = functions.items; loops = loops.items; layout = layout } }
    {
        let (instrs, origins) = instrs.into_parts();
        Code {
            instrs,
            origins,
            sites,
            root,
            functions,
            loops,
            layout,
        }
    }

    /// States that this is the code of a well-named program.
    pub fn laws(&self)
        ensures { IsCode self.now }
    {
        let _root = self.root;
    }

    /// Returns the program's opening values, and the cells and reducers of each frame.
    pub fn layout(&self) -> &Layout
        ensures { result.now ≡ self.now.layout }
    {
        &self.layout
    }

    /// Returns whether the program has neither a reducer nor a `print`.
    pub fn plain(&self) -> bool
        ensures { result ≡ self.now.layout.plain }
    {
        self.layout.plain
    }

    /// Returns the entry point of a callee's frame.
    pub fn entry(&self, callee: &Callee) -> EntryPoint
        ensures { result ≡ entry_of self.now callee.now }
    {
        match callee {
            Callee::Root => self.root,
            Callee::Function(call) => self.function_entry(call.function),
            Callee::Loop(part) => self.loop_entry(part.number),
        }
    }

    /// Returns the entry point of a function's frame, or the root's if there is no such function.
    pub fn function_entry(&self, number: u32) -> EntryPoint
        ensures { result ≡ unwrap_or (slice_get self.now.functions number) self.now.root }
    {
        entry_at(&self.functions, number, self.root)
    }

    /// Returns the entry point of a loop's frames, or the root's if there is no such loop.
    pub fn loop_entry(&self, number: u32) -> EntryPoint
        ensures { result ≡ unwrap_or (slice_get self.now.loops number) self.now.root }
    {
        entry_at(&self.loops, number, self.root)
    }

    /// Returns the number of instructions.
    pub fn len(&self) -> usize
        ensures { result ≡ length self.now.instrs }
    {
        self.instrs.len()
    }

    /// Returns the byte of the text that an instruction comes from, by the instruction's place in the
    /// code; 0 if there is no such instruction.
    pub fn origin(&self, place: usize) -> usize {
        match self.origins.get(place) {
            Some(origin) => *origin,
            None => 0,
        }
    }

    /// Returns the instructions in order.
    pub fn instrs(&self) -> &[Instr]
        ensures { result.now ≡ self.now.instrs }
    {
        &self.instrs
    }

    /// Returns the instruction at a place. The caller passes [`Code::instrs`], so that it fetches
    /// the slice only once for many instructions.
    #[tactic(auto, using(crate::proofs::Lands::lands_there, crate::proofs::Arrays::fits_there))]
    pub fn at<'a>(&self, instrs: &'a [Instr], place: usize) -> &'a Instr
        requires instrs { instrs.now ≡ self.now.instrs }
        requires there { slice_get self.now.instrs place ≢ None }
        ensures value { slice_get self.now.instrs place ≡ Some result.now }
        ensures lands { Lands self.now.instrs place result.now }
        ensures arrays { ArrayFits result.now }
        ensures small { place < 2 ^ 63 }
        ensures fits { length self.now.instrs < 2 ^ 63 }
    {
        // For the proof only: the borrow brings in the invariant of the instructions.
        let _ = &self.instrs;
        there(instrs, place)
    }

    /// Returns the call site with this index.
    pub fn site(&self, number: usize) -> &Site
        requires { slice_get self.now.sites number ≢ None }
        ensures value { slice_get self.now.sites number ≡ Some result.now }
        ensures few { result.now.words ≤ 16 }
    {
        site_at(&self.sites, number)
    }
}

fn entry_at(entries: &[EntryPoint], number: u32, root: EntryPoint) -> EntryPoint
    ensures { result ≡ unwrap_or (slice_get entries.now number) root }
{
    match entries.get(number as usize) {
        Some(entry) => *entry,
        None => root,
    }
}

fn there(instrs: &[Instr], place: usize) -> &Instr
    requires { slice_get instrs.now place ≢ None }
    ensures value { slice_get instrs.now place ≡ Some result.now }
    ensures small { place < 2 ^ 63 }
{
    &instrs[place]
}

fn site_at(sites: &[Site], number: usize) -> &Site
    requires { slice_get sites.now number ≢ None }
    ensures { slice_get sites.now number ≡ Some result.now }
{
    &sites[number]
}
