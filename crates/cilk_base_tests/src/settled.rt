//! The examples by pseudo-random schedules. A program that `check` accepts has the serial outcome
//! by each schedule, and one with a race has another outcome by some. All programs of `examples/`
//! are here, each whole and with its own input (`tools/tested_examples.py` checks this).

use crate::chance::as_serially;
use crate::examples::{
    COUNTDOWN, EARLY_VALUE, FIRST, INPUTS, INPUTS_INPUT, MONOIDS, OPERATORS, REDUCERS, SPAWNS,
    SQUARES, STATEMENTS, WORDS,
};
use crate::gallery::{
    BFS, BFS_RACY, COLLATZ, FLOYD_WARSHALL, HEAT, HISTOGRAM, KNAPSACK, KNAPSACK_INPUT, LU,
    MANDELBROT, MATRIX_PRODUCT, MERGE_SORT, PREFIX_SUM, QUEENS, QUICKSORT, SIEVE,
};
use crate::playing::{FIB, GIVEN, LIST, LOCAL, PRINTS, RACE, SUM};
use std::alloc::Global;
use std::process::Abort;

const NESTED: &str =
    "int cilk_reducer(append) l; void leaf(int n) { update(l, n); } void node(int n) { if (n > 0) { cilk_spawn \
    node(n - 1); cilk_spawn leaf(n); update(l, 10 * n); cilk_sync; update(l, 100 * n); cilk_spawn node(n - 1); } \
    update(l, 1000 * n); } int main() { cilk_spawn node(3); leaf(7); cilk_sync; return value(l); }";

fn is_settled(rt: &impl Abort, alloc: Global, text: &str, numbers: &str) {
    assert_eq!(rt; as_serially(rt, alloc, text, numbers), 200, "{text}");
}

// Checks programs without input.
fn are_settled(rt: &impl Abort, alloc: Global, texts: &[&str]) {
    for text in texts {
        is_settled(rt, alloc, text, "");
    }
}

#[test]
fn small_programs(rt: HostRuntime) {
    let texts = [
        SUM, LIST, LOCAL, PRINTS, GIVEN, NESTED, FIB, SQUARES, MONOIDS, REDUCERS, SPAWNS,
        STATEMENTS, OPERATORS, WORDS, COUNTDOWN, FIRST,
    ];
    are_settled(&rt, rt.alloc(), &texts);
    is_settled(&rt, rt.alloc(), INPUTS, INPUTS_INPUT);
}

#[test]
fn sorting_and_matrices(rt: HostRuntime) {
    let texts = [
        MERGE_SORT,
        QUICKSORT,
        MATRIX_PRODUCT,
        LU,
        FLOYD_WARSHALL,
        HEAT,
        MANDELBROT,
    ];
    are_settled(&rt, rt.alloc(), &texts);
}

#[test]
fn searches_and_counts(rt: HostRuntime) {
    let texts = [BFS, COLLATZ, HISTOGRAM, QUEENS, SIEVE, PREFIX_SUM];
    are_settled(&rt, rt.alloc(), &texts);
    is_settled(&rt, rt.alloc(), KNAPSACK, KNAPSACK_INPUT);
}

#[test]
fn examples_with_a_race(rt: HostRuntime) {
    for text in [RACE, EARLY_VALUE, BFS_RACY] {
        let count = as_serially(&rt, rt.alloc(), text, "");
        assert!(rt; 0 < count && count < 200, "{count} {text}");
    }
}
