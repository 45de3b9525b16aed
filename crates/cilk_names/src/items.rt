//! Resolving the items of a text: global variables, global reducers and functions.

ghost use Rattle.std.specs.Prelude.{◌≡◌, List, [], ◌∷◌, ◌++◌, OnOk, IfOk, true, length, map};
ghost use Rattle.cilk_syntax.specs.Trees as trees;
ghost use Rattle.cilk_program.specs.Programs.{function, loop, statements};
ghost use Rattle.cilk_names.specs.Names.{Scope, declare, monoid_at, opened};
ghost use Rattle.cilk_names.specs.Globals.{array_cells, behind_global, behind_item, behind_items, behind_line, zeros};
ghost use Rattle.cilk_names.specs.Faults.{again_faults, earliest, monoid_faults, unless};
ghost use Rattle.cilk_names.specs.Misnamings.{global_faults, item_faults, items_faults, line_faults};
ghost use Rattle.cilk_names.specs.Pass.{item_functions, item_loops, items_functions, items_loops};
ghost use Rattle.cilk_names.specs.Tables.{names_of};
ghost use Rattle.cilk_names.specs.States.{context_of, known_of};
ghost use Rattle.cilk_names.specs.declared.kind.NameErrorKind.TheVariants.{OverLimit};

use crate::kind::NameErrorKind;
use crate::limits::{MAX_FUNCTIONS, MAX_GLOBALS, MAX_REDUCERS};
use crate::scene::{Frame, Resolver, counted, number_of};
use crate::sights::{monoid, note_unless};
use crate::table::{Home, Meaning, bytes_of};
use cilk_monoid::kind::MonoidKind;
use cilk_program::program::{Body, Function, GlobalReducer};
use cilk_program::syntax::{Array, Stmt};
use cilk_syntax::tree;
use cilk_syntax::tree::{GlobalVariable, Initializer, Item, Name, Parameter, ReturnType};
use cilk_types::sequence::Sequence;
use cilk_types::word_list::WordList;
use std::alloc::{AllocError, Global};
use std::mem;

/// The state of the pass over a text's items: the context at the next item, the loops and the first
/// fault so far, the opening values of the global cells, the global reducers and the functions.
#[derive(Drop)]
pub(crate) struct Pass<'a> {
    pub scene: Resolver<'a>,
    pub openings: WordList,
    pub shared: Vec<GlobalReducer>,
    pub functions: Vec<Function>,
}

/// Returns the number of cells for an array after `count` global cells: 0 if the length isn't
/// positive, or if there is no room.
fn array_cells(count: usize, length: i64) -> usize
    ensures { result ≡ array_cells count length }
{
    let Ok(length) = usize::try_from(length) else {
        return 0;
    };
    if length > MAX_GLOBALS || count > MAX_GLOBALS - length {
        0
    } else {
        length
    }
}

/// Appends `count` zeros to the opening values.
fn push_zeros(openings: &mut WordList, count: usize) -> Result<(), AllocError>
    ensures { OnOk result (openings.new ≡ openings.old ++ zeros count) }
{
    'each: for _index in 0..count {
        openings.push(0)?;
    }
    Ok(())
}

impl Resolver<'_> {
    /// Declares a name between items.
    fn declare(&mut self, name: Name, meaning: Meaning) -> Result<(), AllocError>
        ensures names { OnOk result (names_of self.new.table ≡ declare (names_of self.old.table) name meaning) }
        ensures faults { OnOk result (self.new.first ≡ earliest self.old.first (again_faults (names_of self.old.table) name)) }
        ensures same { (self.new.loops ≡ self.old.loops) × (self.new.reducers ≡ self.old.reducers) }
    {
        self.table.declare(name, meaning, &mut self.first)
    }

    /// Notes that a limit is exceeded, unless `is_within` holds.
    fn limit(&mut self, is_within: bool, place: usize)
        ensures faults { self.new.first ≡ earliest self.old.first (unless is_within OverLimit place) }
        ensures same { (self.new.table ≡ self.old.table) × (self.new.loops ≡ self.old.loops) × (self.new.reducers ≡ self.old.reducers) }
    {
        note_unless(is_within, NameErrorKind::OverLimit, place, &mut self.first);
    }

    /// Declares a global reducer with this number, and returns its monoid, if its name is known.
    #[tactic(auto, using(crate::proofs::Earliest::earliest_append))]
    fn shared(
        &mut self,
        reducer: tree::Reducer,
        number: u32,
    ) -> Result<Option<MonoidKind>, AllocError>
        ensures names { OnOk result (names_of self.new.table
            ≡ declare (names_of self.old.table) reducer.name
            (Meaning.Reducer (Home.Global number) (monoid_at (names_of self.old.table) reducer))) }
        ensures kind { IfOk result (λ k. k ≡ monoid_at (names_of self.old.table) reducer) }
        ensures faults { OnOk result (self.new.first
            ≡ earliest self.old.first (monoid_faults (names_of self.old.table) reducer
            ++ again_faults (names_of self.old.table) reducer.name)) }
        ensures same { (self.new.loops ≡ self.old.loops) × (self.new.reducers ≡ self.old.reducers) }
    {
        let kind = monoid(&self.table, reducer, &mut self.first);
        let meaning = Meaning::Reducer(Home::Global(number), kind);
        self.table.declare(reducer.name, meaning, &mut self.first)?;
        Ok(kind)
    }

    /// Enters a function. Its parameters are in the scope of its body.
    fn begin(&mut self, alloc: Global, number: u32, returns: ReturnType) -> Result<(), AllocError>
        ensures context { OnOk result (context_of self.new ≡ record { names = opened (names_of self.old.table); frame = record { body = Body.Function number; returns = returns; cells = 0; heading = true }; given = []; own = []; reducers = self.old.reducers; loops = length self.old.loops.items }) }
        ensures same { OnOk result ((self.new.loops ≡ self.old.loops) × (self.new.first ≡ self.old.first)) }
    {
        self.table.open(alloc)?;
        self.frame = Frame {
            body: Body::Function(number),
            returns,
            cells: 0,
            heading: true,
        };
        self.given = Vec::new(alloc);
        self.own = Vec::new(alloc);
        Ok(())
    }

    /// Leaves a function that has `words` parameters that are words. Its name is at `at`, and the brace
    /// that closes it at `end`.
    fn end(&mut self, alloc: Global, at: usize, end: usize, words: u32, body: Vec<Stmt>) -> Function
        ensures names { (outer : List Scope) (inner : Scope) → (let n = names_of self.old.table in n.outer) ≡ outer ++ inner ∷ [] → names_of self.new.table ≡ record (names_of self.old.table) { inner = inner; outer = outer } }
        ensures same { (self.new.loops ≡ self.old.loops) × (self.new.first ≡ self.old.first) × (self.new.reducers ≡ self.old.reducers) }
        ensures made { function result ≡ record { words = words; given = self.old.given.items; cells = self.old.frame.cells; reducers = self.old.own.items; body = statements body.items } }
    {
        self.table.close();
        let given = mem::replace(&mut self.given, Vec::new(alloc));
        let own = mem::replace(&mut self.own, Vec::new(alloc));
        Function {
            at,
            end,
            words,
            given: Sequence::new(given),
            cells: self.frame.cells,
            reducers: Sequence::new(own),
            body,
        }
    }
}

impl Pass<'_> {
    /// Declares a global variable or array in the next cells.
    fn global(&mut self, variable: GlobalVariable) -> Result<(), AllocError>
        ensures known { OnOk result (known_of self.new ≡ behind_global (known_of self.old) variable) }
        ensures faults { OnOk result (self.new.scene.first ≡ earliest self.old.scene.first (global_faults (known_of self.old) variable)) }
        ensures same { OnOk result ((self.new.functions ≡ self.old.functions) × (self.new.scene.loops ≡ self.old.scene.loops)) }
    {
        match variable {
            GlobalVariable::Variable(name, initializer) => self.word(name, initializer),
            GlobalVariable::Array(name, length) => self.array(name, length),
        }
    }

    /// Declares a global variable in the next cell.
    #[tactic(auto, using(crate::proofs::Earliest::earliest_append, crate::proofs::Lists::append_nothing))]
    fn word(&mut self, name: Name, initializer: Initializer) -> Result<(), AllocError>
        ensures known { OnOk result (known_of self.new ≡ behind_global (known_of self.old) (GlobalVariable.Variable name initializer)) }
        ensures faults { OnOk result (self.new.scene.first
            ≡ earliest self.old.scene.first (global_faults (known_of self.old)
            (GlobalVariable.Variable name initializer))) }
        ensures same { OnOk result ((self.new.functions ≡ self.old.functions) × (self.new.scene.loops ≡ self.old.scene.loops)) }
    {
        let count = self.openings.len();
        self.scene
            .declare(name, Meaning::Global(number_of(count)?))?;
        let is_within = count < MAX_GLOBALS;
        self.scene.limit(is_within, name.at);
        if is_within {
            self.openings.push(initializer.value())?;
        }
        Ok(())
    }

    /// Declares a global array, whose elements are the next cells.
    #[tactic(auto, using(crate::proofs::Earliest::earliest_append))]
    fn array(&mut self, name: Name, length: i64) -> Result<(), AllocError>
        ensures known { OnOk result (known_of self.new ≡ behind_global (known_of self.old) (GlobalVariable.Array name length)) }
        ensures faults { OnOk result (self.new.scene.first
            ≡ earliest self.old.scene.first
            (global_faults (known_of self.old) (GlobalVariable.Array name length))) }
        ensures same { OnOk result ((self.new.functions ≡ self.old.functions) × (self.new.scene.loops ≡ self.old.scene.loops)) }
    {
        let count = self.openings.len();
        let cells = array_cells(count, length);
        let array = Array {
            first: number_of(count)?,
            length: number_of(cells)?,
        };
        self.scene.declare(name, Meaning::Array(array))?;
        self.scene.limit(cells != 0, name.at);
        push_zeros(&mut self.openings, cells)?;
        Ok(())
    }

    /// Declares a line of global variables.
    fn globals(&mut self, variables: &[GlobalVariable]) -> Result<(), AllocError>
        ensures known { OnOk result (known_of self.new ≡ behind_line (known_of self.old) variables.now) }
        ensures faults { OnOk result (self.new.scene.first ≡ earliest self.old.scene.first (line_faults (known_of self.old) variables.now)) }
        ensures same { OnOk result ((self.new.functions ≡ self.old.functions) × (self.new.scene.loops ≡ self.old.scene.loops)) }
    {
        'each: for variable in variables {
            self.global(*variable)?;
        }
        Ok(())
    }

    /// Declares a global reducer.
    #[tactic(auto, using(crate::proofs::Earliest::earliest_append))]
    fn reducer(&mut self, alloc: Global, reducer: tree::Reducer) -> Result<(), AllocError>
        ensures known { OnOk result (known_of self.new ≡ behind_item (known_of self.old) (trees.Item.Reducer reducer)) }
        ensures faults { OnOk result (self.new.scene.first ≡ earliest self.old.scene.first (item_faults (known_of self.old) (trees.Item.Reducer reducer))) }
        ensures same { OnOk result ((self.new.functions ≡ self.old.functions) × (self.new.scene.loops ≡ self.old.scene.loops)) }
    {
        let number = number_of(self.shared.len())?;
        let kind = self.scene.shared(reducer, number)?;
        let is_within = self.scene.reducers < MAX_REDUCERS;
        self.scene.limit(is_within, reducer.name.at);
        self.scene.reducers = counted(MAX_REDUCERS, self.scene.reducers);
        let name = Vec::from_slice(alloc, bytes_of(self.scene.table.text, reducer.name))?;
        self.shared.push(GlobalReducer {
            name: Sequence::new(name),
            kind: kind.unwrap_or(MonoidKind::Add),
        })?;
        Ok(())
    }

    /// Declares a function and resolves its body, which the brace at `end` closes.
    #[tactic(auto, using(crate::proofs::Earliest::earliest_append))]
    fn function(
        &mut self,
        alloc: Global,
        returns: ReturnType,
        name: Name,
        parameters: &[Parameter],
        body: &[tree::Stmt],
        end: usize,
    ) -> Result<(), AllocError>
        ensures known { OnOk result (known_of self.new
            ≡ behind_item (known_of self.old) (trees.Function returns name parameters.now
            (trees.statements body.now))) }
        ensures faults { OnOk result (self.new.scene.first
            ≡ earliest self.old.scene.first (item_faults (known_of self.old)
            (trees.Function returns name parameters.now (trees.statements body.now)))) }
        ensures functions { OnOk result (map function self.new.functions.items
            ≡ map function self.old.functions.items ++ item_functions (known_of self.old)
            (trees.Function returns name parameters.now (trees.statements body.now))) }
        ensures loops { OnOk result (map loop self.new.scene.loops.items ≡ map loop self.old.scene.loops.items
            ++ item_loops (known_of self.old) (trees.Function returns name parameters.now
            (trees.statements body.now))) }
    {
        let count = self.functions.len();
        let number = number_of(count)?;
        self.scene.declare(name, Meaning::Function(number))?;
        let is_within = count < MAX_FUNCTIONS;
        self.scene.limit(is_within, name.at);
        self.scene.begin(alloc, number, returns)?;
        self.scene.parameters(parameters)?;
        let words = self.scene.frame.cells;
        let body = self.scene.row(alloc, body)?;
        let function = self.scene.end(alloc, name.at, end, words, body);
        self.functions.push(function)?;
        Ok(())
    }

    /// Resolves one more item.
    #[tactic(auto, using(crate::proofs::Lists::append_nothing))]
    fn item(&mut self, alloc: Global, item: &Item) -> Result<(), AllocError>
        ensures known { OnOk result (known_of self.new ≡ behind_item (known_of self.old) (trees.item item.now)) }
        ensures faults { OnOk result (self.new.scene.first ≡ earliest self.old.scene.first (item_faults (known_of self.old) (trees.item item.now))) }
        ensures functions { OnOk result (map function self.new.functions.items
            ≡ map function self.old.functions.items ++ item_functions (known_of self.old) (trees.item item.now)) }
        ensures loops { OnOk result (map loop self.new.scene.loops.items ≡ map loop self.old.scene.loops.items
            ++ item_loops (known_of self.old) (trees.item item.now)) }
    {
        match item {
            Item::Globals(variables) => {
                self.globals(variables)?;
                Ok(())
            }
            Item::Reducer(reducer) => {
                self.reducer(alloc, *reducer)?;
                Ok(())
            }
            Item::Function(returns, name, parameters, body, end) => {
                self.function(alloc, *returns, *name, parameters, body, *end)?;
                Ok(())
            }
        }
    }

    /// Resolves all items.
    pub fn items(&mut self, alloc: Global, items: &[Item]) -> Result<(), AllocError>
        ensures known { OnOk result (known_of self.new ≡ behind_items (known_of self.old) (trees.items_of items.now)) }
        ensures faults { OnOk result (self.new.scene.first ≡ earliest self.old.scene.first (items_faults (known_of self.old) (trees.items_of items.now))) }
        ensures functions { OnOk result (map function self.new.functions.items
            ≡ map function self.old.functions.items ++ items_functions (known_of self.old)
            (trees.items_of items.now)) }
        ensures loops { OnOk result (map loop self.new.scene.loops.items ≡ map loop self.old.scene.loops.items
            ++ items_loops (known_of self.old) (trees.items_of items.now)) }
    {
        'each: for item in items {
            self.item(alloc, item)?;
        }
        Ok(())
    }
}
