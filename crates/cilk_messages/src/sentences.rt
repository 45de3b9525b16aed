//! Hints that are used in more than one case, by their names.

use crate::around::is_among;

// A line `NAME => HINT` for each.
const SENTENCES: &str = "\
REDUCER => a reducer is a global or stands first in its function, with its monoid alone, `int cilk_reducer(add) r;`: add, min, max, append or affine; `update(r, e);` takes a number into it, and `value(r)` reads it
GONE => a reducer has a monoid in place of functions: this one goes away, with all in it
REDUCER_FUNCTIONS => a reducer has a monoid in place of functions, `int cilk_reducer(add) r;` as the first line of its function or as a global: `add` for a sum, `max` or `min` for the greatest or the least; `update(r, e);` takes a number into it, `value(r)` reads it, and the functions that it names go away
REDUCER_ARRAY => there are no arrays of reducers: a reducer for each, or a row of a global array for each block of turns, and the rows added up after the loop
REDUCER_USE => `value(r)` reads a reducer, and `update(r, e)` takes a number into it
REDUCER_ARGUMENT => an argument for a reducer is the bare name of a reducer of the same monoid
REDUCER_OPENS => a reducer opens with the unit of its monoid, 0 for `add`: leave the first value out, or, where it counts, `update(r, v);` takes it in before the loop
VIEW_MEMBERS => `value(r)` reads a reducer, and is one number: of two parts take `1000 * one + other`, and `/` and `%` to part them; of an array, let each block of turns add up in a row of its own of a global one, and add the rows up after the loop (`examples/gallery/histogram.c`)
KEPT => for `if (e > r) r = e;` write `update(r, e);` alone, with `max` as the monoid of `r`, or `min` for the least; elsewhere `value(r)` reads it
UPDATE => `update(r, e)` takes a number into a reducer, and joins it by the reducer's own monoid
CALL => a call stands alone or as the whole right side of a variable's assignment: `x = f(a);`
SPAWN => a spawn stands alone or as the whole right side of a variable's assignment, `x = cilk_spawn f(a);`; for an element the child gets its place, and writes it
HEAD => a `cilk_for` counts up by 1 to a bound that it doesn't reach: `cilk_for (int k = 0; k < n; k++)`; for another step its body works the index out, `int i = 2 * k;`
STEP_HEAD => a `cilk_for` counts up by 1: for `i += step` from `first` to `end` it counts `int k = 0; k < (end - first + step - 1) / step; k++`, and its body begins with `int i = first + step * k;`
UP_TO => a `cilk_for` counts up by 1 to a bound that it doesn't reach: `k < n + 1` stands for `k <= n`
DOWNWARD => a `cilk_for` counts up by 1: for a loop downward its body works the index out, `int i = n - 1 - k;`
STEP_DOWN => a `cilk_for` counts up by 1: for `i -= step` from `first`, while `i > end`, it counts `int k = 0; k < (first - end + step - 1) / step; k++`, and its body begins with `int i = first - step * k;`; `i > end - 1` stands for `i >= end`
DECLARES => a `cilk_for` declares its variable: `cilk_for (int i = 0; i < n; i++)`
ONE_STEP => a `for` head has one variable and one step: the other ones go before the loop, and at the end of its body
STEP => `x++` is a statement of its own, or the last part of a `for` head
PRINT => `print(e);` writes a number on a line of its own; text goes away, and where only text is written, leave the line out, or print a number that stands for it
INPUT => `input(0)` is the first number of the input, as `argv[1]`, and `input_count()` how many there are
PARAMETERS => `main` has no parameters: `input(0)` is the first number of the input, as `argv[1]`, and `input_count()` how many there are
FRACTIONS => `int` is the only type: where the numbers are whole anyway, declare an `int`; else count in thousandths, say, where `a * b / 1000` is the product and `a * 1000 / b` the quotient; they are cut, so a finer unit gives digits nearer to those of `double`, as long as products stay below 2^63
TINY => `int` is the only type: what is less than a thousandth is 0 in thousandths: compare with 0, or with 1
STATIC => a `static` variable of a function keeps its number from call to call: make it a global, `int k = 0;` before the functions
COUNT_DOWN => for `for (int i = n; i-- > 0; )` write `for (int i = n - 1; i >= 0; i--)`
STRUCTURES => there are no structures: an array for each member, or a global variable where there is only one such structure
MEMORY => memory is global arrays, `int a[1000];` before the functions: a call that needs room of its own gets the place in such an array where its part begins
MEMORY_OF_CALLS => memory is global arrays, `int a[1000];` before the functions: a call that needs room of its own gets the place in such an array where its part begins; of few small numbers, one number has a digit for each (`examples/gallery/queens.c`); where each call makes at most n calls, the part at `p` has `n * p + 1 + i` for its call i
ARRAYS => arrays are global, and their length is a number: `int a[1000];` before the functions
ARRAY_PARAMETER => a parameter is no array: pass the place of its first element in a global one
LENGTH => an array's length is a number, and no name or sum: work it out, and write it, as in `int a[1000];`
ONE_INDEX => an array has one index: `a[i * columns + j]`
THREE_INDICES => an array has one index: `a[(i * rows + j) * columns + k]` for `a[i][j][k]`
ZEROS => an array opens with zeros: write its elements in `main`, or read them from the input
POINTER => there are no pointers: one to memory of its own is a global array, `int a[1000];`; else pass the place of an element in one, `sort(first + n)` for `sort(a + n)`, and write `a[p]` for `*p` and `a[p + i]` for `p[i]`; two that are swapped are places in one array of twice the length; one to a single structure goes away
ARROW => there are no pointers and no structures: an array for each member, and an index for the pointer; of a single structure, globals, and no pointer
REFERENCES => there are no references: pass the place of an element in a global array, or return the number
BITS => there are no operators on bits: `x % 2` stands for `x & 1`, and `x % 8` for `x & 7`, where `x` isn't below 0
SHIFT_UP => there are no operators on bits: `x * 8` stands for `x << 3`, and `x = x * 8;` for `x <<= 3;`
SHIFT_DOWN => there are no operators on bits: `x / 8` stands for `x >> 3`, and `x = x / 8;` for `x >>= 3;`, where `x` isn't below 0; below 0 it is `(x - 7) / 8`
DIVIDED => `+=`, `-=` and `*=` are the only such assignments: write `x = x / e` or `x = x % e`; in thousandths a quotient is `x = x * 1000 / e`
ASSIGNMENT => an assignment is a statement of its own, and stands in no expression
LOCKS => there are no locks and no atomics: what turns or calls add up, or the greatest of it, goes to a reducer (`int cilk_reducer(add) r;`); what they find, to an element that each has for itself
LEAST => a global opens with a number: with `-9223372036854775807`, or `main` sets the least one, `-9223372036854775807 - 1`
GREATEST => a global opens with a number: the greatest one is 9223372036854775807
CHOICE => there is no `? :`: write `if` and `else`
LIBRARY => there is no library: write it as a function of whole numbers
LINE_AWAY => leave this line away
LINE_END => `print` ends each line itself: leave this away
MACRO => there is no preprocessor: a function stands for a macro with arguments, `int least(int a, int b) { .. }`, and a variable takes its call, `x = least(a, b);`; in an index or an argument write out what it stands for, `a[i * n + j]`
DEFINITION => there is no preprocessor: in place of `#define N 8` write the number 8 wherever `N` stands; a global `int n = 8;` does too, but not for an array's length
LABELS => there are no labels: a flag in the loop's condition ends it
NO_LINE => there is no preprocessor: leave this line away
BYTES => there is no `sizeof`: count elements, not bytes, and leave `* sizeof(int)` out
FIRST_VALUE => a global opens with a number: write that, or let `main` give it another value
NO_LENGTH => there is no `sizeof`: an array's length is the number that declares it
ONE_TYPE => `int` is the only type
CAST => `int` is the only type, so nothing is cast: leave the type and its parentheses out
CASES => write `if` and `else if`
PROTOTYPE => a function is known in the whole text: leave this line away
FUNCTIONS => a function has at most 16 parameters: let a global array hold what is passed, and pass its first place; a text has at most 1,024 functions: one with a parameter stands for several that nearly agree
RESERVED_NAME => this word is reserved here: take another name
NESTED => functions stand side by side, none inside another: a `}` may be missing ahead";

/// Returns the hint with this name; words that are no name are a hint themselves.
pub fn sentence(named: &str) -> &str {
    row_of(SENTENCES, named.as_bytes()).unwrap_or(named)
}

/// Returns what a table with lines `WORDS => HINT` has for a word.
pub fn row_of(table: &'static str, word: &[u8]) -> Option<&'static str> {
    for line in table.lines() {
        if let Some((words, hint)) = line.split_once(" => ")
            && is_among(words, word)
        {
            return Some(hint);
        }
    }
    None
}
