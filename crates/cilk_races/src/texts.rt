//! The words of cures, by their names.

// A line `NAME: WORDS` for each: of a sync, of reducers that take a variable, of variables, of arrays in
// the turns of a loop, of arrays in spawned calls, and of reducers that are read or set. A letter in
// braces stands for
//
// - `y` a place for a `cilk_sync`, `n` the name of the variable, array or reducer, `r` the reducer's monoid;
// - `m` the monoid that takes or keeps a number, `a` the number, `g` the part of a condition that goes
//   away, the variable again, or the number of a turn;
// - `i` the index of the element, `p` the words of the index, `f` the array that a counter fills;
// - `l` the length of the array, `d` twice that, `t` that for each turn;
// - `v` the variable of the loop, `h` half of its turns, `w` the variable of a loop in it;
// - `c` the function that is spawned, `b` the one beside it, `e` the one around both, `s` the spawn.
const TEXTS: &str = "\
SYNC: {y}
OR_SYNC: ; or, with less in parallel, {y}
GLOBAL: let a reducer take it: `int cilk_reducer({m}) {n};` in place of `int {n}`
FIRST: let a reducer take it: `int cilk_reducer({m}) {n};` as the first line of the function, in place of `int {n}`
INNER: move this inner `cilk_for` to a function of its own (or write `for` for it), whose first line is `int cilk_reducer({m}) {n};` and whose last is `return value({n});`
UPDATED: , `update({n}, {a});` here, and `value({n})` where it is read, after the loop or the `cilk_sync`; if what it begins with counts, that is an `update` of its own
COMPARED: , `update({n}, {a});` here without the comparison, and `value({n})` where it is read, after the loop or the `cilk_sync`; if what it begins with counts, that is an `update` of its own; what else the `if` sets, a second loop finds, a `for`, where the number is `value({g})`
MOST: , `update({n}, {a});` here in place of the call, and `value({n})` where it is read, after the loop or the `cilk_sync`; if what it begins with counts, that is an `update` of its own
ONCE: , `update({n}, {a});` here, and `value({n})` where it is read, after the loop or the `cilk_sync`: the first that is found is meant, so leave `{g}` out of the condition; where none is found it is 9223372036854775807; what else is set here is read after the loop, at that turn
LAST: , `update({n}, {a});` here, and `value({n})` where it is read, after the loop: the last that is found is meant; where none is found it is -9223372036854775808
TURN: , `update({n}, {a});` here, without asking for it first: after the loop `value({n})` is the turn that counts, and `{g}` in that turn the number; where none is found it is no turn: below 0 by `max`, past the last one by `min`
FLAG: , `update({n}, {a});` here, `value({n})` where it is read, after the loop or the `cilk_sync`, and `set({g}, ..);` where it gets a number ahead of that, its first one too, which is 0 if none is written
ONCE_FLAG: , `update({n}, {a});` here without asking for it first, `value({n})` where it is read, after the loop or the `cilk_sync`, and `set({g}, ..);` where it gets a number ahead of that, its first one too; an index that is set with it is the first one: `min` keeps it
PRODUCT: no reducer multiplies: let each turn or call leave its factor in an element of its own, and multiply `{n}` by them after the loop or the `cilk_sync`, by a `for`; or split by halves, each call returning its product
SINGLE: let a reducer take it: a global `int cilk_reducer(add) all;` in place of this one element of `{n}`
SUM: , `update(all, {a});` here, and `value(all)` where it is read, after the loop or the `cilk_sync`
OWN: declare `{n}` inside the `cilk_for` of `{v}`, so that each turn has its own; if its number is wanted after the loop, a reducer keeps it: `int cilk_reducer(max) {n};` (or `min`, `add`)
OWN_GLOBAL: declare a variable inside the `cilk_for` of `{v}` in place of the global `{n}`, so that each turn has its own; if its number is wanted after the loop, a reducer keeps it: `int cilk_reducer(max) {n};` (or `min`, `add`)
OWN_HEAD: declare `{n}` inside, so that each turn has its own: `for (int {n} = ..` in place of `for ({n} = ..`, and so for each other variable that a turn sets before it reads it
CALLED_GLOBAL: declare a variable in the function that the loop calls, in place of the global `{n}`; if it goes from call to call, as a seed does, make it a parameter, let the function return the next one, and let each turn begin with one of its own
PASSED: give each call a `{n}` of its own: a parameter, or a variable of the function, which returns what it found
FILLED: `{n}` is the place of `{f}` where the next number goes, and what runs in parallel can't know it: let each turn or call only note what it found, in an element that is its own, and fill `{f}` after the loop or the `cilk_sync` by a `for`; where several find the same, let each element look itself whether it is found (`examples/gallery/bfs.c`)
RUNNING: each turn reads what the turns before it made of `{n}`, so they go in order: write `for` in place of `cilk_for`; the sums of all beginnings can be made in parallel by halves (`examples/gallery/prefix_sum.c`)
RESULT: : what a spawned call leaves in `{n}` is there only then
RESULTS: give each spawned call a variable of its own; or an element of an array, which it writes by its number, a parameter (`docs/FROM-CILK.md`, \"Work arrays\")
ROWS: let each turn add up in a row of its own: `int rows[{t}];`, with `rows[{l} * {v} + {p}]` in place of `{n}[{p}]`
CALLED_ROWS: let each turn add up in a row of its own, whose number is a parameter of this function, `{v}` in the call: `int rows[{t}];`, with `rows[{l} * row + {p}]` in place of `{n}[{p}]`
ROWS_ADDED: ; add the rows up after the loop by a `for`, and where the loop runs again, set them back to 0; for few elements, a reducer each (`examples/gallery/histogram.c`)
CALL_ROWS: let each call add up in a row of its own: `int rows[{d}];` for two calls, with `rows[row + {p}]` in place of `{n}[{p}]`, where `row` is a parameter, 0, {l} and so on, and add the rows up after the `cilk_sync` by a `for`, where they are set back to 0 if the calls come again; for few elements, a reducer each (`examples/gallery/histogram.c`)
ROW: write `for` for this loop, and `cilk_for` for a loop in it whose turns write different elements (it counts up by 1: for `i += step` from `first` to `end` it counts `int k = 0; k < (end - first + step - 1) / step; k++`); or, if this loop only writes `{n}`, give each turn a row of its own, `int {n}[{t}];`, with `{l} * {v}` added to each index, and put the rows together after the loop by a `for`
ORDER: the turns work on what others leave in `{n}`: write `for` for this loop, and `cilk_for` for a loop in it whose turns write different elements (it counts up by 1: for `i += step` from `first` to `end` it counts `int k = 0; k < (end - first + step - 1) / step; k++`)
CLAIMED: let no two turns set one element of `{n}`: let each element look itself whether it is found, and read what was found before from a copy (`examples/gallery/bfs.c`)
APART: let no two turns write one element: mend the index of `{n}[{p}]`, or the bounds of what it is made of; where turns find the same, let each element look itself whether it is found (`examples/gallery/bfs.c`)
SWAPPED: two turns swap the same two elements of `{n}`, there and back: let one turn swap each pair
SWAPPED_INNER: , by an inner loop that begins behind the turn: `for (int {w} = {v} + 1; ..)`
SWAPPED_HALF: , by a loop that ends at the half: `{v} < {h}`
COPIED: copy `{n}` to a second array before the loop, and let the turns read the copy where they read what others write
FLOW: if `{n}[{i}]` as it was before the loop is meant here, copy `{n}` to a second array before the loop, and read the copy; if what the other turn writes is meant, the turns go in order: write `for` (the sums of all beginnings are made in parallel by halves, `examples/gallery/prefix_sum.c`)
RANGES: the parts of `{n}` that two calls of `{c}` work on overlap in `{n}[{i}]`: mend their bounds, so that one of the two alone has that element
ORDERED: : `{b}` works on what the spawned `{c}` does with `{n}`
SECOND_LOOP: ; or, with more in parallel, read `{n}` in a second loop, after the `cilk_sync` behind this one
TABLE: calls in parallel can't fill a table for each other: fill `{n}` before them, in order, by a `for`, and let the calls only read it
WORK: pass what the call has to know as a parameter in place of `{n}`, of several numbers a digit each (`examples/gallery/queens.c`); or give each call a part of `{n}` of its own, whose first place is a parameter
KEPT: a reducer compares by itself, without a read: `int cilk_reducer({m}) {n};`, and `update({n}, {a});` in place of this `if`
OWN_SUM: what one turn or call adds up for itself is a variable: declare `int {n};` there, with `{n} += ..;` in place of `update({n}, ..);` and `{n}` in place of `value({n})`
OWN_REDUCER: ; where an inner `cilk_for` or spawn updates it, a function of its own, whose first line is `int cilk_reducer({r}) {n};`
AFTER_LOOP: read `{n}` after the loop: other turns may still update it here
IN_PARENT: read `{n}` in `{e}`, after the `cilk_sync` that waits for the spawn at {s}
IN_RECURSION: other calls of `{e}` may still update `{n}` here, so read it only in what calls the first `{e}`, after its `cilk_sync`; what a call has to know, as a bound or its depth, is a parameter
OWN_PART: ; what this call alone adds up is for a reducer of its own, whose declaration is the function's first line, and which its children take as a parameter (`int cilk_reducer(add) r`)";

/// Returns the words with this name.
pub fn text(named: &str) -> &'static str {
    for line in TEXTS.lines() {
        if let Some((name, words)) = line.split_once(": ")
            && name == named
        {
            return words;
        }
    }
    ""
}
