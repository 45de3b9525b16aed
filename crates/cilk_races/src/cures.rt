//! The cure of a race: a change of the program, a place for a `cilk_sync`, or a choice of both.
//!
//! What is known of a race is a set of facts. The first rule that fits them names the words of the cure.

use crate::pair::{Pair, Race, name_of};
use crate::texts::text;
use crate::uses::{
    NOTHING, Taken, adds, behind_place, filled, has_name, has_part, is_at, kept_by, multiplies,
    semicolon_at, swap_of, takes, text_of,
};
use cilk_findings::partings::{end_of, loop_round, parted_at, statement_of};
use cilk_findings::replay::FrameNote;
use cilk_findings::scene::Scene;
use cilk_messages::reasons::cure_of as cure_of_number;
use cilk_messages::sentence::{Part, Sentence, say};
use cilk_messages::sites::head_kind;
use cilk_messages::tokens::Tokens;
use cilk_syntax::token::Kind;
use cilk_types::invocation::Invocation;
use std::alloc::AllocError;

// The most events of a swap.
const NEAR: usize = 100;

/// A cure, by the names of its words: first one text, then another one, if it has one.
type Way = (&'static str, &'static str);

/// The facts that have to hold and those that must not, and the cure where that is so.
type Rule = (u64, u64, &'static str, &'static str);

// Facts of a read or set reducer: the text sets it, it isn't in turns and is the later event, in what
// isn't spawned and isn't of the function that is, the spawned function is the one around both, the
// monoid adds.
const VIEW: u64 = 1;

const SET: u64 = 1 << 1;

const BEHIND: u64 = 1 << 2;

const RECURSION: u64 = 1 << 3;

const SUM: u64 = 1 << 4;

// Facts of accesses: both are in turns of one loop, the later one is in a function that a turn calls, it
// is in another call of the spawned function or in another spawn, the innermost loop around the spawn
// is around it too, which of them write, and a reducer can take what their statements do; the earlier one
// is in a function that a turn calls.
const TURNS: u64 = 1 << 5;

const CALLED: u64 = 1 << 6;

const BESIDE: u64 = 1 << 7;

const LOOP: u64 = 1 << 8;

const EARLIER: u64 = 1 << 9;

const LATER: u64 = 1 << 10;

const TAKEN: u64 = 1 << 11;

const FIRST_CALLED: u64 = 1 << 32;

// Facts of a variable: it is none of the globals or has no name, the earlier write is the result of a
// spawned call and the later one too, a turn sets it before it reads it, by the head of a `for`, it
// counts what an array has, it is multiplied, and turns read it elsewhere than where they change it.
const LOCAL: u64 = 1 << 12;

const NAMELESS: u64 = 1 << 13;

const SPAWNED: u64 = 1 << 14;

const RESULT: u64 = 1 << 15;

const OWN: u64 = 1 << 16;

const HEAD: u64 = 1 << 17;

const FILLED: u64 = 1 << 18;

const PRODUCT: u64 = 1 << 19;

const RUNNING: u64 = 1 << 20;

// Facts of an array: both statements add to an element, and all writes are of one element; two turns
// swap the same elements, in an inner loop; an `if` asks for the element; the index has the turn; the
// later statement is a spawn; calls work on ranges that overlap, and of different functions; the index
// is a single token.
const ARRAY: u64 = 1 << 21;

const ADDED: u64 = 1 << 22;

const SINGLE: u64 = 1 << 23;

const SWAP: u64 = 1 << 24;

const INNER: u64 = 1 << 25;

const ASKED: u64 = 1 << 26;

const INDEXED: u64 = 1 << 27;

const SPAWN: u64 = 1 << 28;

const RANGES: u64 = 1 << 29;

const OTHER: u64 = 1 << 30;

const NAMED: u64 = 1 << 31;

// A rule without words is for what a reducer takes: where it is declared, and how it takes that.
const RULES: &[Rule] = &[
    (VIEW | TAKEN, 0, "KEPT", ""),
    (VIEW | SET, BEHIND, "OWN_SUM", "OWN_REDUCER"),
    (VIEW | TURNS, 0, "AFTER_LOOP", ""),
    (VIEW | BEHIND, RECURSION, "SYNC", ""),
    (VIEW | RECURSION | SUM, 0, "IN_RECURSION", "OWN_PART"),
    (VIEW | RECURSION, 0, "IN_RECURSION", ""),
    (VIEW | SUM, 0, "IN_PARENT", "OWN_PART"),
    (VIEW, 0, "IN_PARENT", ""),
    (ARRAY | ADDED | SINGLE | TURNS, 0, "SINGLE", "SUM"),
    (
        ARRAY | ADDED | TURNS | CALLED,
        0,
        "CALLED_ROWS",
        "ROWS_ADDED",
    ),
    (ARRAY | ADDED | TURNS, 0, "ROWS", "ROWS_ADDED"),
    (ARRAY | TURNS | SWAP | INNER, 0, "SWAPPED", "SWAPPED_INNER"),
    (ARRAY | TURNS | SWAP, 0, "SWAPPED", "SWAPPED_HALF"),
    (ARRAY | TURNS | ASKED, 0, "CLAIMED", ""),
    (ARRAY | TURNS | CALLED | FIRST_CALLED, 0, "WORK", ""),
    (ARRAY | TURNS | EARLIER | LATER | INDEXED, 0, "APART", ""),
    (ARRAY | TURNS | EARLIER | LATER, 0, "ROW", ""),
    (ARRAY | TURNS, INDEXED, "ORDER", ""),
    (ARRAY | TURNS, EARLIER, "COPIED", ""),
    (ARRAY | TURNS, 0, "FLOW", ""),
    (ARRAY | LOOP | LATER, BESIDE, "WORK", "OR_SYNC"),
    (ARRAY | LOOP, BESIDE | SPAWN, "SYNC", "SECOND_LOOP"),
    (ARRAY, BESIDE, "SYNC", ""),
    (ARRAY | ADDED | SINGLE, 0, "SINGLE", "SUM"),
    (ARRAY | ADDED | RANGES | NAMED, 0, "RANGES", "OR_SYNC"),
    (ARRAY | ADDED, 0, "CALL_ROWS", ""),
    (ARRAY | RANGES | OTHER, 0, "SYNC", "ORDERED"),
    (ARRAY | RANGES, 0, "RANGES", "OR_SYNC"),
    (ARRAY | EARLIER, LATER, "TABLE", "OR_SYNC"),
    (ARRAY, 0, "WORK", "OR_SYNC"),
    (LOCAL | NAMELESS, 0, "SYNC", ""),
    (LOCAL | SPAWNED | RESULT, 0, "RESULTS", "OR_SYNC"),
    (LOCAL | SPAWNED, 0, "SYNC", "RESULT"),
    (OWN | HEAD, 0, "OWN_HEAD", ""),
    (OWN | LOCAL, 0, "OWN", ""),
    (OWN | CALLED, 0, "CALLED_GLOBAL", ""),
    (OWN, 0, "OWN_GLOBAL", ""),
    (FILLED, 0, "FILLED", ""),
    (PRODUCT, 0, "PRODUCT", ""),
    (RUNNING, 0, "RUNNING", ""),
    (TAKEN, 0, "", ""),
    (TURNS | LOCAL, 0, "OWN", ""),
    (TURNS | CALLED, 0, "CALLED_GLOBAL", ""),
    (TURNS, 0, "OWN_GLOBAL", ""),
    (BESIDE, 0, "PASSED", "OR_SYNC"),
    (LOOP | LATER, EARLIER, "PASSED", "OR_SYNC"),
    (0, 0, "SYNC", ""),
];

/// Adds the cure of a race: its number's general one where the run has no pair of events.
pub fn push_cure(
    scene: &Scene<'_>,
    report: &mut String,
    race: Race,
    pair: &Option<Pair>,
) -> Result<(), AllocError> {
    let Some(pair) = pair else {
        return scene.push(report, &say(cure_of_number(race.number)));
    };
    let tokens = Tokens::new(scene.case.alloc, scene.case.text)?;
    push_of(&Site::of(scene, &tokens, *pair, race.later), report)
}

fn push_of(site: &Site<'_, '_>, report: &mut String) -> Result<(), AllocError> {
    let (first, second) = site.way();
    site.push(report, text(first))?;
    site.push(report, text(second))
}

/// Two events of a race, and the tokens of the text.
#[derive(Clone, Copy)]
struct Site<'a, 't> {
    scene: Scene<'a>,
    tokens: &'t Tokens<'a>,
    pair: Pair,
    child: FrameNote,
    /// The name of the variable, array or reducer.
    name: &'a [u8],
    /// The index in the array, and its length.
    index: usize,
    length: usize,
    /// The facts that the frames and events alone tell.
    facts: u64,
    /// The statements of both events.
    later: usize,
    earlier: usize,
    /// The token from which the race's later event comes.
    at: usize,
    /// The child of the common frame that the later event is in, 0 for none, its function, and where it
    /// leaves the common frame.
    branch: usize,
    beside: &'a [u8],
    leaving: usize,
    /// The variable of the loop whose turns race, its first number, and that after its last one.
    variable: &'a [u8],
    low: usize,
    high: usize,
}

/// The facts that hold.
fn sum_of(facts: &[(u64, bool)]) -> u64 {
    let mut sum = 0;
    for &(fact, holds) in facts {
        if holds {
            sum |= fact;
        }
    }
    sum
}

impl<'a, 't> Site<'a, 't> {
    fn of(scene: &Scene<'a>, tokens: &'t Tokens<'a>, pair: Pair, event: usize) -> Site<'a, 't> {
        let at = tokens.number_at(scene.byte_of(event));
        let branch = scene.child_of(pair.common, pair.second).unwrap_or(0);
        let leaving = if branch > 0 {
            scene.note(branch).invoked_at
        } else {
            scene.byte_of(pair.later)
        };
        let (variable, low, high) = turns_of(scene, pair.common);
        let (name, index, length, kind) = named(scene, event);
        Site {
            scene: *scene,
            tokens,
            pair,
            child: scene.note(pair.child),
            name: if kind == VIEW { tokens.word(at) } else { name },
            index,
            length,
            facts: kind | facts_of(scene, &pair, event, branch),
            later: statement_of(tokens, tokens.number_at(scene.byte_of(pair.later))),
            earlier: statement_of(tokens, tokens.number_at(scene.byte_of(pair.earlier))),
            at,
            branch,
            beside: scene.function_of(branch),
            leaving,
            variable,
            low,
            high,
        }
    }

    // The first cure whose rule fits the facts.
    fn way(&self) -> Way {
        let facts = self.facts | self.facts_of_accesses() | self.facts_of_variable();
        for &(needs, bars, first, second) in RULES {
            if facts & needs == needs && facts & bars == 0 {
                return if needs == TAKEN {
                    self.taken_way()
                } else {
                    (first, second)
                };
            }
        }
        ("SYNC", "")
    }

    // What the statements and the array tell.
    fn facts_of_accesses(&self) -> u64 {
        let Site {
            scene,
            tokens,
            facts,
            name,
            later,
            earlier,
            branch,
            ..
        } = *self;
        let is_view = facts & VIEW != 0;
        let is_array = facts & ARRAY != 0;
        let is_added = is_array
            && adds(tokens, later, name).is_some()
            && adds(tokens, earlier, name).is_some();
        let (at, behind) = self.written();
        let place = text_of(tokens, at, behind.saturating_add(1));
        let common = scene.function_of(self.pair.common);
        let called = scene.function_of(self.pair.child);
        sum_of(&[
            (SET, is_view && self.is_set()),
            (RECURSION, is_view && common == called),
            (SUM, is_view && self.monoid() == b"add".as_slice()),
            (LOOP, self.is_in_one_loop()),
            (ADDED, is_added),
            (SINGLE, is_added && self.is_single()),
            (SWAP, is_array && self.is_swap()),
            (INNER, is_array && !self.inner_variable().is_empty()),
            (
                ASKED,
                is_array && facts & TURNS != 0 && !is_added && self.is_asked(place),
            ),
            (
                INDEXED,
                has_name(tokens, at.saturating_add(2), behind, self.variable),
            ),
            (SPAWN, is_at(tokens, later, "cilk_spawn")),
            (
                RANGES,
                is_array && self.is_in_range(self.pair.child) && self.is_in_range(branch),
            ),
            (OTHER, called != self.beside),
            (NAMED, at.saturating_add(3) == behind),
        ])
    }

    // What the uses of a variable tell, and how a reducer takes a variable, or keeps a number.
    fn facts_of_variable(&self) -> u64 {
        let Site {
            tokens,
            facts,
            name,
            later,
            earlier,
            ..
        } = *self;
        if facts & (VIEW | ARRAY) != 0 {
            return if self.taken().is_some() { TAKEN } else { 0 };
        }
        let is_turn = facts & TURNS != 0;
        let (own, is_running) = if is_turn { self.in_loop() } else { (0, false) };
        let is_taken = self.taken_at(later).is_some();
        let was_taken = self.taken_at(earlier).is_some();
        sum_of(&[
            (NAMELESS, name.is_empty()),
            (OWN, own > 0),
            (HEAD, is_at(tokens, own.saturating_sub(2), "for")),
            (FILLED, !filled(tokens, name).is_empty()),
            (
                PRODUCT,
                multiplies(tokens, later, name) || multiplies(tokens, earlier, name),
            ),
            (RUNNING, is_running),
            (
                TAKEN,
                is_taken && was_taken || is_turn && (is_taken || was_taken),
            ),
        ])
    }

    // How a reducer takes what the statements of both events make of a variable, or how it keeps the number
    // for which it is read.
    fn taken(&self) -> Option<Taken<'a>> {
        if self.facts & VIEW != 0 {
            return kept_by(self.tokens, self.at);
        }
        match self.taken_at(self.later) {
            None => self.taken_at(self.earlier),
            taken => taken,
        }
    }

    // How a reducer takes what a statement makes of a variable: of the first or last number in turns
    // it keeps which turn that is.
    fn taken_at(&self, first: usize) -> Option<Taken<'a>> {
        let taken = takes(self.tokens, first, self.name)?;
        let number = taken.amount;
        let (is_once, is_last) = (taken.words == "ONCE", taken.words == "LAST");
        if (is_once || is_last) && self.facts & (TURNS | CALLED) == TURNS {
            let turn = Taken {
                words: "TURN",
                amount: self.variable,
                again: number,
                ..taken
            };
            return Some(if number == self.variable { taken } else { turn });
        }
        let is_alone = self.facts & (TURNS | BESIDE) == 0 && taken.words == "FLAG";
        if is_last || is_once && has_part(number, b"[") || is_alone {
            None
        } else {
            Some(taken)
        }
    }

    // Where a reducer in place of a variable is declared, which a statement changes, and how it takes that.
    fn taken_way(&self) -> Way {
        let (tokens, is_later) = (self.tokens, self.taken_at(self.later).is_some());
        let mut at = if is_later { self.later } else { self.earlier };
        for number in at..tokens.count() {
            if tokens.word(number) == self.name {
                at = number;
                break;
            }
        }
        let declared = match tokens.declaration_of(at) {
            Some((declared, _)) => declared,
            None => 0,
        };
        let mut depth: usize = 0;
        for earlier in 0..declared {
            match tokens.kind(earlier) {
                Some(Kind::OpenBrace) => depth = depth.saturating_add(1),
                Some(Kind::CloseBrace) => depth = depth.saturating_sub(1),
                _ => {}
            }
        }
        let words = match self.taken() {
            Some(taken) => taken.words,
            None => "",
        };
        match depth {
            0 => ("GLOBAL", words),
            1 => ("FIRST", words),
            _ => ("INNER", words),
        }
    }

    // Where a turn of the loop, or the function that turns call, sets a variable before it reads it, 0 if
    // it doesn't, and whether turns read it elsewhere than where they change it.
    fn in_loop(&self) -> (usize, bool) {
        let (tokens, name) = (self.tokens, self.name);
        let is_called = self.facts & (CALLED | FIRST_CALLED) == CALLED | FIRST_CALLED;
        let first = if is_called {
            self.called_token()
        } else {
            self.loop_token()
        };
        let mut set: usize = 0;
        let (mut is_read, mut is_running) = (false, false);
        for number in first..end_of(tokens, first) {
            if tokens.word(number) == name {
                let right = number.saturating_add(2);
                let is_set = is_at(tokens, number.saturating_add(1), "=")
                    && !has_name(tokens, right, semicolon_at(tokens, right), name);
                if is_set && set == 0 && !is_read {
                    set = number;
                }
                is_read = is_read || !is_set;
                if !is_running {
                    let start = statement_of(tokens, number);
                    let is_first = start == number || start.saturating_add(1) == number;
                    is_running = !is_first && takes(tokens, start, name).is_none();
                }
            }
        }
        (if is_read { set } else { 0 }, is_running && !is_called)
    }

    // The token of the function that the later access is in.
    fn called_token(&self) -> usize {
        let frame = self.scene.frame_of(self.pair.later);
        let body = self.scene.note(frame.unwrap_or(self.pair.second)).body;
        self.tokens.number_at(self.scene.named_at(body))
    }

    // The token of the loop whose turns race.
    fn loop_token(&self) -> usize {
        self.tokens.number_at(self.scene.named_at(self.child.body))
    }
}

/// Arrays.
impl<'a> Site<'a, '_> {
    // The name of the written array, and the bracket that ends its index.
    fn written(&self) -> (usize, usize) {
        let tokens = self.tokens;
        let at = if self.facts & (EARLIER | LATER) == EARLIER {
            self.earlier
        } else {
            self.later
        };
        let at = if is_at(tokens, at, "++ --") {
            at.saturating_add(1)
        } else {
            at
        };
        (at, behind_place(tokens, at).saturating_sub(1))
    }

    // Whether two turns swap the same two elements.
    fn is_swap(&self) -> bool {
        let (tokens, name) = (self.tokens, self.name);
        let (Some((one, other)), Some((before, _))) = (
            swap_of(tokens, self.later, name),
            swap_of(tokens, self.earlier, name),
        ) else {
            return false;
        };
        let earlier = self.cells_of(one, other, self.pair.earlier);
        let later = self.cells_of(one, other, self.pair.later);
        match (earlier, later) {
            (Some((a, b)), Some((c, d))) => {
                one == before && (a == c && b == d || a == d && b == c)
            }
            _ => false,
        }
    }

    // The variable of a loop in the turns that is around a swap, if there is one.
    fn inner_variable(&self) -> &'a [u8] {
        let (tokens, scene) = (self.tokens, &self.scene);
        let at = if self.facts & CALLED != 0 {
            let called = scene.around(self.pair.second).0;
            tokens.number_at(scene.note(called).invoked_at)
        } else {
            match swap_of(tokens, self.later, self.name) {
                Some((one, _)) => one,
                None => 0,
            }
        };
        match loop_round(tokens, at) {
            Some(inner) if inner > self.loop_token() => {
                let named = inner.saturating_add(2);
                tokens.word(if is_at(tokens, named, "int") {
                    named.saturating_add(1)
                } else {
                    named
                })
            }
            _ => &[],
        }
    }

    // The two elements that the statements of a swap write, if an event accesses one of them.
    fn cells_of(&self, one: usize, other: usize, index: usize) -> Option<(usize, usize)> {
        for second in index..index.saturating_add(NEAR) {
            if let Some(other) = self.written_at(other, second) {
                for back in 1..NEAR {
                    if let Some(one) = self.written_at(one, second.saturating_sub(back)) {
                        return Some((one, other));
                    }
                }
            }
        }
        None
    }

    // The cell that an event writes by a statement.
    fn written_at(&self, statement: usize, index: usize) -> Option<usize> {
        let at = self.tokens.number_at(self.scene.byte_of(index));
        match self.scene.access(index) {
            Some((cell, true)) if statement_of(self.tokens, at) == statement => Some(cell),
            _ => None,
        }
    }

    // Whether an `if` compares this element of an array with a constant.
    fn is_asked(&self, place: &[u8]) -> bool {
        let tokens = self.tokens;
        for number in 0..tokens.count() {
            let behind = behind_place(tokens, number);
            if tokens.word(number) == self.name
                && matches!(head_kind(tokens, number), Some(Kind::If))
                && text_of(tokens, number, behind) == place
            {
                let compared = tokens.kind_behind(behind);
                return if is_at(tokens, behind, "<") {
                    matches!(compared, Some(Kind::Number(_) | Kind::Minus))
                } else {
                    is_at(tokens, behind, "==") || is_at(tokens, number.saturating_sub(1), "!")
                };
            }
        }
        false
    }

    // Whether the write of the race writes one element alone in all of the run.
    fn is_single(&self) -> bool {
        let (scene, pair) = (&self.scene, &self.pair);
        let written = if self.facts & EARLIER != 0 {
            pair.earlier
        } else {
            pair.later
        };
        let Some((cell, true)) = scene.access(written) else {
            return false;
        };
        let at = scene.byte_of(written);
        for index in 0..scene.run.trace.len() {
            if let Some((other, true)) = scene.access(index)
                && other != cell
                && scene.byte_of(index) == at
            {
                return false;
            }
        }
        true
    }

    // Whether the innermost loop around the spawn is around the later path as well.
    fn is_in_one_loop(&self) -> bool {
        let tokens = self.tokens;
        let leaving = tokens.number_at(self.leaving);
        match loop_round(tokens, tokens.number_at(self.child.invoked_at)) {
            Some(round) => round <= leaving && leaving < end_of(tokens, round),
            None => false,
        }
    }

    // Whether a call has the index between two of its arguments, one after the other.
    fn is_in_range(&self, frame: usize) -> bool {
        let index = i64::try_from(self.index).unwrap_or(i64::MAX);
        for place in 1..self.scene.words_of(frame) {
            let from = self.scene.argument(frame, place.saturating_sub(1));
            if let (Some(from), Some(upto)) = (from, self.scene.argument(frame, place)) {
                if from <= index && index <= upto {
                    return true;
                }
            }
        }
        false
    }
}

/// Reducers.
impl<'a> Site<'a, '_> {
    // The name of the reducer's monoid.
    fn monoid(&self) -> &'a [u8] {
        match self.tokens.declaration_of(self.at) {
            Some((declared, _)) => self.tokens.word_back(declared, 2),
            None => &[],
        }
    }

    // Whether the text sets a reducer with this name.
    fn is_set(&self) -> bool {
        for number in 0..self.tokens.count() {
            if is_at(self.tokens, number, "set")
                && self.tokens.word(number.saturating_add(2)) == self.name
            {
                return true;
            }
        }
        false
    }
}

/// Words.
impl<'a> Site<'a, '_> {
    // Adds words, and what their letters stand for.
    fn push(&self, report: &mut String, words: &str) -> Result<(), AllocError> {
        let mut rest = words;
        for _gap in 0..rest.len() {
            let Some((ahead, behind)) = rest.split_once('{') else {
                break;
            };
            let Some((letter, after)) = behind.split_once('}') else {
                break;
            };
            report.push_str(ahead)?;
            self.scene.push(report, &self.fact(letter.as_bytes()))?;
            rest = after;
        }
        report.push_str(rest)
    }

    // What a letter stands for.
    fn fact(&self, letter: &[u8]) -> Sentence<'a> {
        let [letter] = letter else {
            return say("");
        };
        let (scene, tokens) = (&self.scene, self.tokens);
        let taken = self.taken().unwrap_or(NOTHING);
        let (at, behind) = self.written();
        say("{}").with(match *letter {
            b'y' => return parted_at(scene, tokens, self.child.invoked_at, self.leaving),
            b'a' => return say(taken.form).word(taken.amount),
            b'm' => Part::Text(taken.monoid),
            b'g' => Part::Word(taken.again),
            b'n' => Part::Word(self.name),
            b'i' => Part::Count(self.index),
            b'l' => Part::Count(self.length),
            b'd' => Part::Count(self.length.saturating_mul(2)),
            b't' => Part::Count(self.length.saturating_mul(self.high)),
            b'v' => Part::Word(self.variable),
            b'h' => Part::Count(self.low.saturating_add(self.high) / 2),
            b'w' => Part::Word(self.inner_variable()),
            b'f' => Part::Word(filled(tokens, self.name)),
            b'p' => Part::Word(text_of(tokens, at.saturating_add(2), behind)),
            b'b' => Part::Word(self.beside),
            b'c' => Part::Word(scene.function_of(self.pair.child)),
            b'e' => Part::Word(scene.function_of(self.pair.common)),
            b's' => scene.place(self.child.invoked_at),
            _ => Part::Word(self.monoid()),
        })
    }
}

// The name, index and length of what an event accesses, and of which kind that is.
fn named<'a>(scene: &Scene<'a>, event: usize) -> (&'a [u8], usize, usize, u64) {
    let name = match name_of(scene, event) {
        Some(name) => scene.word(name),
        None => &[],
    };
    let Some((cell, _)) = scene.access(event) else {
        return (name, 0, 0, VIEW);
    };
    match scene.global(cell) {
        Some(array) => {
            let length = array.length.unwrap_or(0);
            let kind = if length > 0 { ARRAY } else { 0 };
            (name, cell.saturating_sub(array.first), length, kind)
        }
        None => (name, 0, 0, LOCAL),
    }
}

// What the frames and events tell.
fn facts_of(scene: &Scene<'_>, pair: &Pair, event: usize, branch: usize) -> u64 {
    let is_turn = pair.is_in_turns(scene);
    let is_result = scene.run.gives_result(pair.later);
    let second = if is_result {
        scene.note(pair.second).parent
    } else {
        pair.second
    };
    let first = scene.frame_of(pair.earlier).unwrap_or(pair.child);
    let turn = scene.around(pair.common).0;
    let beside = scene.note(branch);
    let is_again = branch > 0 && beside.body == scene.note(pair.child).body;
    let is_spawned = branch > 0 && beside.how == Invocation::Spawn;
    sum_of(&[
        (
            BEHIND,
            event == pair.later && !is_turn && !is_spawned && !is_again,
        ),
        (TURNS, is_turn),
        (CALLED, scene.around(second).0 != turn),
        (FIRST_CALLED, scene.around(first).0 != turn),
        (BESIDE, is_spawned || is_again),
        (
            EARLIER,
            matches!(scene.access(pair.earlier), Some((_, true))),
        ),
        (LATER, matches!(scene.access(pair.later), Some((_, true)))),
        (
            SPAWNED,
            scene.is_spawned(pair.beside) && scene.run.gives_result(pair.earlier),
        ),
        (RESULT, is_result),
    ])
}

// The variable of the loop whose turns are in a frame, its first number, and that after its last one.
fn turns_of<'a>(scene: &Scene<'a>, common: usize) -> (&'a [u8], usize, usize) {
    let mut top = common;
    for _level in 0..scene.run.replay.frames.len() {
        match scene.above(top) {
            Some(above) if scene.halves(above) => top = above,
            _ => break,
        }
    }
    let note = scene.note(top);
    let low = usize::try_from(note.low).unwrap_or(0);
    let high = usize::try_from(note.high).unwrap_or(0);
    (scene.turn_variable(note.body), low, high)
}
