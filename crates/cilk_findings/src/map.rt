//! The names that a text declares.

use cilk_program::program::Body;
use cilk_syntax::tree::{Beginning, GlobalVariable, Item, Name, Parameter, Stmt, Tree};
use std::alloc::{AllocError, Global};

/// A function, or the body of a `cilk_for`, whose name is the word `cilk_for`. Holds the names of
/// its frame's cells and of its own reducers, in order.
pub struct BodyMap {
    pub name: Name,
    pub cells: Vec<Name>,
    pub reducers: Vec<Name>,
}

// Written out, so that a proof follows one call where a map is dropped.
impl Drop for BodyMap {
    fn drop(self) {
        let BodyMap {
            name: _name,
            cells: _cells,
            reducers: _reducers,
        } = self;
    }
}

impl BodyMap {
    fn new(alloc: Global, name: Name) -> BodyMap {
        BodyMap {
            name,
            cells: Vec::new(alloc),
            reducers: Vec::new(alloc),
        }
    }
}

/// A global variable, or an array with its length, and its first cell.
#[derive(Clone, Copy)]
pub struct GlobalName {
    pub name: Name,
    pub first: usize,
    pub length: Option<usize>,
}

/// The names of a text: globals, global reducers, functions and loops, each in order.
pub struct TextMap {
    pub globals: Vec<GlobalName>,
    pub reducers: Vec<Name>,
    pub functions: Vec<BodyMap>,
    pub loops: Vec<BodyMap>,
}

// Written out, so that a proof follows one call where a map is dropped.
impl Drop for TextMap {
    fn drop(self) {
        let TextMap {
            globals: _globals,
            reducers: _reducers,
            functions: _functions,
            loops: _loops,
        } = self;
    }
}

impl TextMap {
    /// Maps a text. Functions, loops, cells and reducers have the numbers that `cilk_names` gives
    /// them.
    pub fn of(alloc: Global, tree: &Tree) -> Result<TextMap, AllocError> {
        let mut map = TextMap {
            globals: Vec::new(alloc),
            reducers: Vec::new(alloc),
            functions: Vec::new(alloc),
            loops: Vec::new(alloc),
        };
        map.add_items(alloc, tree)?;
        Ok(map)
    }

    fn add_items(&mut self, alloc: Global, tree: &Tree) -> Result<(), AllocError> {
        for item in tree.items.as_slice() {
            match item {
                Item::Globals(variables) => self.add_globals(variables)?,
                Item::Reducer(reducer) => self.reducers.push(reducer.name)?,
                Item::Function(_, name, parameters, body, _) => {
                    self.add_function(alloc, *name, parameters, body)?;
                }
            }
        }
        Ok(())
    }

    // Adds the variables of a line.
    fn add_globals(&mut self, variables: &[GlobalVariable]) -> Result<(), AllocError> {
        for variable in variables {
            let (name, length) = match *variable {
                GlobalVariable::Variable(name, _) => (name, None),
                GlobalVariable::Array(name, length) => (name, usize::try_from(length).ok()),
            };
            let first = match self.globals.last() {
                Some(last) => last.first.saturating_add(last.length.unwrap_or(1)),
                None => 0,
            };
            self.globals.push(GlobalName {
                name,
                first,
                length,
            })?;
        }
        Ok(())
    }

    // Adds a function, with the loops in it.
    fn add_function(
        &mut self,
        alloc: Global,
        name: Name,
        parameters: &[Parameter],
        statements: &[Stmt],
    ) -> Result<(), AllocError> {
        let body = Body::Function(u32::try_from(self.functions.len()).unwrap_or(u32::MAX));
        self.functions.push(BodyMap::new(alloc, name))?;
        for parameter in parameters {
            if let Parameter::Variable(name) = parameter {
                self.add_cell(body, *name)?;
            }
        }
        self.add_all(alloc, body, statements)
    }

    // Adds what the statements of a body declare.
    #[cycle(statements)]
    fn add_all(&mut self, alloc: Global, body: Body, list: &[Stmt]) -> Result<(), AllocError> {
        for statement in list {
            self.add(alloc, body, statement)?;
        }
        Ok(())
    }

    // Adds what a statement of a body declares. That of a `cilk_for` is of a body of its own.
    #[cycle(statements)]
    fn add(&mut self, alloc: Global, body: Body, statement: &Stmt) -> Result<(), AllocError> {
        match statement {
            Stmt::Block(_, list) => self.add_all(alloc, body, list),
            Stmt::Declare(locals) => {
                for local in locals {
                    self.add_cell(body, local.name)?;
                }
                Ok(())
            }
            Stmt::Reducer(reducer) => {
                if let Some(map) = self.body_mut(body) {
                    map.reducers.push(reducer.name)?;
                }
                Ok(())
            }
            Stmt::If(_, _, inner) => self.add(alloc, body, inner),
            Stmt::IfElse(_, _, inner, other) => {
                self.add(alloc, body, inner)?;
                self.add(alloc, body, other)
            }
            Stmt::While(_, _, inner) => self.add(alloc, body, inner),
            Stmt::For(_, head, inner) => {
                if let Some(Beginning::Declares(name, _)) = &head.beginning {
                    self.add_cell(body, *name)?;
                }
                self.add(alloc, body, inner)
            }
            Stmt::ParallelFor(at, bounds, inner) => {
                let end = at.saturating_add(8);
                let turn = Body::Loop(u32::try_from(self.loops.len()).unwrap_or(u32::MAX));
                self.loops.push(BodyMap::new(alloc, Name { at: *at, end }))?;
                self.add_cell(turn, bounds.variable)?;
                self.add(alloc, turn, inner)
            }
            _ => Ok(()),
        }
    }

    fn add_cell(&mut self, body: Body, name: Name) -> Result<(), AllocError> {
        if let Some(map) = self.body_mut(body) {
            map.cells.push(name)?;
        }
        Ok(())
    }

    fn body_mut(&mut self, body: Body) -> Option<&mut BodyMap> {
        match body {
            Body::Function(number) => self.functions.get_mut(number as usize),
            Body::Loop(number) => self.loops.get_mut(number as usize),
        }
    }

    /// Returns the map of a body, if the text has that body.
    pub fn body(&self, body: Body) -> Option<&BodyMap> {
        match body {
            Body::Function(number) => self.functions.get(number as usize),
            Body::Loop(number) => self.loops.get(number as usize),
        }
    }

    /// Returns the last global whose first cell isn't after this cell.
    pub fn global(&self, cell: usize) -> Option<GlobalName> {
        let mut found = None;
        for global in &self.globals {
            if global.first <= cell {
                found = Some(*global);
            }
        }
        found
    }
}
