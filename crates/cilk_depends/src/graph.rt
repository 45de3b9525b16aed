//! Sets of positions of the input, as nodes of a graph.

use std::alloc::{AllocError, Global};

/// The most unions. Past it, positions that meet in a word decide.
pub const MAX_UNIONS: usize = 4_000_000;

/// A set of positions: 0 is the empty one, then each position has a node, then each union.
pub type Node = u32;

/// What a number decides.
#[derive(Clone, Copy, PartialEq, Eq)]
pub enum What {
    Condition,
    Index,
    Divisor,
    Input,
    Bound,
    /// Too many words come from this number to tell.
    Lost,
}

// How many kinds of what a number decides there are.
const KINDS: usize = 6;

/// A place of the text at which numbers decide: its byte, that of its statement, what they decide there, the
/// position of the first of them, and how many decide there and at no earlier place.
#[derive(Clone, Copy)]
pub struct Place {
    pub at: usize,
    pub statement: usize,
    pub what: What,
    pub first: usize,
    pub count: usize,
}

/// A place in the code: the byte of the text, and that of the statement.
#[derive(Clone, Copy)]
pub struct Spot {
    pub at: usize,
    pub statement: usize,
}

/// The sets, the positions that decide, and where.
#[derive(Drop)]
pub struct Graph {
    unions: Vec<(Node, Node)>,
    // For each union, whether all of its positions decide.
    is_done: Vec<bool>,
    // For each position, whether it decides or was fixed.
    decides: Vec<bool>,
    // How many positions neither decide nor were fixed.
    open: usize,
    places: Vec<Place>,
    // For each byte of the text, the place that was noted last there, and for each place the one noted
    // before it at its byte, both from 1; 0 for none.
    latest: Vec<usize>,
    earlier: Vec<usize>,
    waiting: Vec<Node>,
}

impl Graph {
    /// Begins with the positions that are fixed. They count as none.
    pub fn new(alloc: Global, fixed: &[bool]) -> Result<Graph, AllocError> {
        let mut open: usize = 0;
        for is_fixed in fixed {
            if !*is_fixed {
                open = open.saturating_add(1);
            }
        }
        Ok(Graph {
            unions: Vec::new(alloc),
            is_done: Vec::new(alloc),
            decides: fixed.to_vec(alloc)?,
            open,
            places: Vec::new(alloc),
            latest: Vec::new(alloc),
            earlier: Vec::new(alloc),
            waiting: Vec::new(alloc),
        })
    }

    /// Returns the positions that decide or were fixed, and the places.
    pub fn into_parts(self) -> (Vec<bool>, Vec<Place>) {
        let Graph {
            unions: _unions,
            is_done: _is_done,
            decides,
            open: _,
            places,
            latest: _latest,
            earlier: _earlier,
            waiting: _waiting,
        } = self;
        (decides, places)
    }

    /// Returns whether each position decides or was fixed.
    pub fn all_decide(&self) -> bool {
        self.open == 0
    }

    /// Returns the set of one position, or the empty set if it decides.
    pub fn of_position(&self, position: usize) -> Node {
        self.undecided(numbered(position.saturating_add(1)))
    }

    // The set, or the empty one if all its positions decide.
    fn undecided(&self, node: Node) -> Node {
        if node == 0 {
            return 0;
        }
        let place = node.saturating_sub(1) as usize;
        let is_done = match self.decides.get(place) {
            Some(decides) => *decides,
            None => match self.is_done.get(place.saturating_sub(self.decides.len())) {
                Some(is_done) => *is_done,
                None => true,
            },
        };
        if is_done { 0 } else { node }
    }

    /// Returns the union of two sets, for a word made at this spot.
    pub fn union(&mut self, one: Node, other: Node, spot: Spot) -> Result<Node, AllocError> {
        let one = self.undecided(one);
        let other = self.undecided(other);
        if one == 0 || one == other {
            return Ok(other);
        }
        if other == 0 {
            return Ok(one);
        }
        if self.unions.len() >= MAX_UNIONS {
            self.decide(one, spot, What::Lost)?;
            self.decide(other, spot, What::Lost)?;
            return Ok(0);
        }
        self.unions.push((one, other))?;
        self.is_done.push(false)?;
        Ok(numbered(self.decides.len().saturating_add(self.unions.len())))
    }

    /// All positions of a set decide at this spot.
    pub fn decide(&mut self, node: Node, spot: Spot, what: What) -> Result<(), AllocError> {
        if node == 0 {
            return Ok(());
        }
        self.waiting.clear();
        self.waiting.push(node)?;
        for _step in 0..u64::MAX {
            let Some(node) = self.waiting.pop() else {
                break;
            };
            if self.undecided(node) == 0 {
                continue;
            }
            let place = node.saturating_sub(1) as usize;
            if let Some(decides) = self.decides.get_mut(place) {
                *decides = true;
                self.open = self.open.saturating_sub(1);
                self.note(place, spot, what)?;
                continue;
            }
            let place = place.saturating_sub(self.decides.len());
            if let Some(is_done) = self.is_done.get_mut(place) {
                *is_done = true;
            }
            if let Some((one, other)) = self.unions.get(place).copied() {
                self.waiting.push(one)?;
                self.waiting.push(other)?;
            }
        }
        Ok(())
    }

    // Notes that a position decides at a place.
    fn note(&mut self, position: usize, spot: Spot, what: What) -> Result<(), AllocError> {
        let latest = self.latest.get(spot.at).copied().unwrap_or(0);
        if let Some(place) = self.place_of(latest, what) {
            place.first = place.first.min(position);
            place.count = place.count.saturating_add(1);
            return Ok(());
        }
        self.places.push(Place {
            at: spot.at,
            statement: spot.statement,
            what,
            first: position,
            count: 1,
        })?;
        self.earlier.push(latest)?;
        if spot.at >= self.latest.len() {
            self.latest.resize(spot.at.saturating_add(1), 0)?;
        }
        if let Some(kept) = self.latest.get_mut(spot.at) {
            *kept = self.places.len();
        }
        Ok(())
    }

    // The place where this is decided, among one and those noted before it at its byte.
    fn place_of(&mut self, latest: usize, what: What) -> Option<&mut Place> {
        let mut number = latest;
        for _kind in 0..KINDS {
            let place = number.checked_sub(1)?;
            if self.places.get(place)?.what == what {
                return self.places.get_mut(place);
            }
            number = *self.earlier.get(place)?;
        }
        None
    }
}

// The node of a number; more than a node can have is the empty set.
fn numbered(number: usize) -> Node {
    u32::try_from(number).unwrap_or(0)
}
