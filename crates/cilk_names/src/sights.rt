//! Look-ups: what a name refers to as a variable, an array, a reducer or a function.

ghost use Rattle.std.specs.Prelude.{◌≡◌};
ghost use Rattle.cilk_names.specs.Faults.{array_faults, earliest, function_faults, monoid_faults, name_faults, reducer_faults, unless, variable_faults, written_faults};
ghost use Rattle.cilk_names.specs.Names.{meaning, monoid_at};
ghost use Rattle.cilk_names.specs.Sights.{array, array_of, called, function_of, is_reducer_of, is_same, is_turn, place_of, reducer, reducer_of, reducer_place, variable};
ghost use Rattle.cilk_names.specs.Tables.{names_of};

use crate::kind::{Misnaming, NameErrorKind};
use crate::table::{Home, Meaning, Table, bytes_of};
use cilk_monoid::kind::MonoidKind;
use cilk_program::syntax::{Array, Place, Reducer, ReducerPlace};
use cilk_syntax::tree;
use cilk_syntax::tree::Name;

impl Home {
    /// Returns where the frame of a body in `level` loop bodies finds the reducer.
    fn place(self, level: u32) -> ReducerPlace
        ensures { result ≡ reducer_place level self }
    {
        match self {
            Home::Global(number) => ReducerPlace::Global(number),
            Home::Own(number) => ReducerPlace::Own(level, number),
            Home::Given(number) => ReducerPlace::Given(level, number),
        }
    }
}

impl Meaning {
    /// Returns where a variable is, seen from a body in `level` loop bodies.
    fn place(self, level: u32) -> Option<Place>
        ensures { result ≡ place_of level self }
    {
        match self {
            Meaning::Global(number) => Some(Place::Global(number)),
            Meaning::Local(home, number) => {
                Some(Place::Local(level.saturating_sub(home), number))
            }
            Meaning::Turn(home) => Some(Place::Local(level.saturating_sub(home), 0)),
            Meaning::Array(_) | Meaning::Reducer(_, _) | Meaning::Function(_) => None,
        }
    }

    /// Tells whether it is the variable of a parallel loop.
    fn is_turn(self) -> bool
        ensures { result ≡ is_turn self }
    {
        match self {
            Meaning::Turn(_) => true,
            Meaning::Global(_)
            | Meaning::Array(_)
            | Meaning::Local(_, _)
            | Meaning::Reducer(_, _)
            | Meaning::Function(_) => false,
        }
    }

    /// Returns the array, if it is one.
    fn array(self) -> Option<Array>
        ensures { result ≡ array_of self }
    {
        match self {
            Meaning::Array(array) => Some(array),
            Meaning::Global(_)
            | Meaning::Local(_, _)
            | Meaning::Turn(_)
            | Meaning::Reducer(_, _)
            | Meaning::Function(_) => None,
        }
    }

    /// Returns the reducer, seen from a body in `level` loop bodies. A reducer with an unknown
    /// monoid counts as a sum.
    fn reducer(self, level: u32) -> Option<Reducer>
        ensures { result ≡ reducer_of level self }
    {
        match self {
            Meaning::Reducer(home, kind) => Some(Reducer {
                place: home.place(level),
                kind: kind.unwrap_or(MonoidKind::Add),
            }),
            Meaning::Global(_)
            | Meaning::Array(_)
            | Meaning::Local(_, _)
            | Meaning::Turn(_)
            | Meaning::Function(_) => None,
        }
    }

    /// Tells whether it is a reducer of this monoid; an unknown monoid equals none.
    fn is_reducer_of(self, kind: Option<MonoidKind>) -> bool
        ensures { result ≡ is_reducer_of kind self }
    {
        match self {
            Meaning::Reducer(_, own) => is_same(own, kind),
            Meaning::Global(_)
            | Meaning::Array(_)
            | Meaning::Local(_, _)
            | Meaning::Turn(_)
            | Meaning::Function(_) => false,
        }
    }

    /// Returns the number of the function, if it is one.
    fn function(self) -> Option<u32>
        ensures { result ≡ function_of self }
    {
        match self {
            Meaning::Function(number) => Some(number),
            Meaning::Global(_)
            | Meaning::Array(_)
            | Meaning::Local(_, _)
            | Meaning::Turn(_)
            | Meaning::Reducer(_, _) => None,
        }
    }
}

/// Tells whether two monoids are known and equal.
#[tactic(auto, using(cilk_monoid::proofs::SameKinds::kind_itself))]
fn is_same(first: Option<MonoidKind>, second: Option<MonoidKind>) -> bool
    ensures { result ≡ is_same first second }
{
    match (first, second) {
        (Some(first), Some(second)) => first == second,
        (None, _) | (_, None) => false,
    }
}

/// Notes a fault unless `holds` is true.
pub fn note_unless(holds: bool, number: NameErrorKind, place: usize, first: &mut Option<Misnaming>)
    ensures { first.new ≡ earliest first.old (unless holds number place) }
{
    if !holds {
        Misnaming { number, place }.note(first);
    }
}

/// Notes a fault if a name is unknown or `holds` is false.
fn note_name(meaning: Option<Meaning>, holds: bool, place: usize, first: &mut Option<Misnaming>)
    ensures { first.new ≡ earliest first.old (name_faults (λ _. holds) meaning place) }
{
    match meaning {
        Some(_) => note_unless(holds, NameErrorKind::WrongKind, place, first),
        None => note_unless(false, NameErrorKind::Unknown, place, first),
    }
}

/// Looks up a variable, or notes a fault and returns none.
pub fn variable(table: &Table, name: Name, first: &mut Option<Misnaming>) -> Option<Place>
    ensures place { result ≡ variable (names_of table.now) name }
    ensures faults { first.new ≡ earliest first.old (variable_faults (names_of table.now) name) }
{
    let meaning = table.meaning(name);
    let place = match meaning {
        Some(meaning) => meaning.place(table.level),
        None => None,
    };
    note_name(meaning, place.is_some(), name.at, first);
    place
}

/// Looks up a variable that is written, and notes a fault if it is that of a parallel loop.
#[tactic(auto, using(crate::proofs::Earliest::earliest_append))]
pub fn written(table: &Table, name: Name, first: &mut Option<Misnaming>) -> Option<Place>
    ensures place { result ≡ variable (names_of table.now) name }
    ensures faults { first.new ≡ earliest first.old (written_faults (names_of table.now) name) }
{
    let place = variable(table, name, first);
    if let Some(meaning) = table.meaning(name) {
        let is_turn = meaning.is_turn();
        note_unless(!is_turn, NameErrorKind::LoopVariable, name.at, first);
    }
    place
}

/// Looks up an array, or notes a fault and returns none.
pub fn array(table: &Table, name: Name, first: &mut Option<Misnaming>) -> Option<Array>
    ensures array { result ≡ array (names_of table.now) name }
    ensures faults { first.new ≡ earliest first.old (array_faults (names_of table.now) name) }
{
    let meaning = table.meaning(name);
    let array = match meaning {
        Some(meaning) => meaning.array(),
        None => None,
    };
    note_name(meaning, array.is_some(), name.at, first);
    array
}

/// Looks up a reducer, or notes a fault and returns none.
pub fn reducer(table: &Table, name: Name, first: &mut Option<Misnaming>) -> Option<Reducer>
    ensures reducer { result ≡ reducer (names_of table.now) name }
    ensures faults { first.new ≡ earliest first.old (reducer_faults (names_of table.now) name) }
{
    let meaning = table.meaning(name);
    let reducer = match meaning {
        Some(meaning) => meaning.reducer(table.level),
        None => None,
    };
    note_name(meaning, reducer.is_some(), name.at, first);
    reducer
}

/// Looks up a reducer that is passed to a parameter of this monoid, or notes a fault at the place.
pub fn given(
    table: &Table,
    name: Name,
    kind: Option<MonoidKind>,
    place: usize,
    first: &mut Option<Misnaming>,
) -> Option<Reducer>
    ensures reducer { result ≡ reducer (names_of table.now) name }
    ensures faults { first.new ≡ earliest first.old (name_faults (is_reducer_of kind) (meaning (names_of table.now) name) place) }
{
    let Some(meaning) = table.meaning(name) else {
        note_name(None, false, place, first);
        return None;
    };
    let is_right = meaning.is_reducer_of(kind);
    note_name(Some(meaning), is_right, place, first);
    meaning.reducer(table.level)
}

/// Looks up the function of a call, or notes a fault and returns none.
pub fn function(table: &Table, name: Name, first: &mut Option<Misnaming>) -> Option<u32>
    ensures function { result ≡ called (names_of table.now) name }
    ensures faults { first.new ≡ earliest first.old (function_faults (names_of table.now) name) }
{
    let meaning = table.meaning(name);
    let function = match meaning {
        Some(meaning) => meaning.function(),
        None => None,
    };
    note_name(meaning, function.is_some(), name.at, first);
    function
}

/// Looks up the monoid of a declared reducer, or notes a fault and returns none.
pub fn monoid(
    table: &Table,
    reducer: tree::Reducer,
    first: &mut Option<Misnaming>,
) -> Option<MonoidKind>
    ensures monoid { result ≡ monoid_at (names_of table.now) reducer }
    ensures faults { first.new ≡ earliest first.old (monoid_faults (names_of table.now) reducer) }
{
    let kind = MonoidKind::named(bytes_of(table.text, reducer.monoid));
    let place = reducer.monoid.at;
    note_unless(kind.is_some(), NameErrorKind::Unknown, place, first);
    kind
}
