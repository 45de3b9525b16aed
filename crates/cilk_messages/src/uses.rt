//! Rules for a token that doesn't belong in a statement, a call, a head or an item.

use crate::report::Wanted;
use crate::rules::said;
use crate::sentences::sentence;
use crate::site::Site;
use crate::vocabulary::{NUMBERS, said_of};

/// Returns the advice for a refused token. It may have gaps for the word before, and for what follows the
/// token in its statement.
pub fn of_use(site: &Site<'_, '_>, wanted: &Wanted<'_>) -> Option<&'static str> {
    match said(site, USES) {
        Some("number") => said_of(NUMBERS, site.word()).or(Some(sentence("FIRST_VALUE"))),
        None if wanted.words == "`{`" => Some("a function's body stands between `{` and `}`"),
        None => said(site, UNPAIRED),
        cure => cure,
    }
}

// The end of a text that ends too early, and a mark that closes nothing.
const UNPAIRED: &str = "\
0 ^ ? => a `}` may be missing at the end, or before it
0 ) | in ^ ? => there is a `)` too many, here or ahead";

// A spawn; the declaration of a reducer, a length, and a global's first value; after a reserved word
// that needs another token; a reserved word in place of a name or statement; in the parentheses of
// `print`, `value`, `update` or `set`; calls; heads of loops; pointers; brackets; pairs of marks;
// items; statements; and what is left.
const USES: &str = "\
0 = | -2 cilk_spawn | ended => the call is spawned, not the assignment: `{} = cilk_spawn {};`
0 = | -2 cilk_spawn => ASSIGNMENT
0 [ | in cilk_reducer => REDUCER_ARRAY
0 [ | -5 cilk_reducer => REDUCER_ARRAY
0 , | in cilk_reducer => REDUCER_FUNCTIONS
in cilk_reducer => REDUCER
-5 cilk_reducer => REDUCER
length => LENGTH
0 INT_MIN LONG_MIN LLONG_MIN INT64_MIN | first => LEAST
0 INT_MAX LONG_MAX LLONG_MAX INT64_MAX | first => GREATEST
0 - | -1 9223372036854775807 | first => LEAST
0 ^ { | first => number
-1 print | 0 @ # - => PRINT
-1 update set value | 0 @ => REDUCER_USE
-1 print update set value input input_count => RESERVED_NAME
-1 cilk_sync | 0 ( => `cilk_sync;` stands without parentheses
-1 cilk_spawn => `cilk_spawn` comes before the call of a function: put what is spawned into one
-1 if while => parentheses stand round the condition: `if (e)`, `while (e)`
-1 for cilk_for => parentheses stand round the head of a loop: `for (int i = 0; i < n; i++)`
0 value input input_count | +1 ( | begins => this is a part of an expression: `x = value(r);`, `x = input(k);`
0 value input input_count | -1 int void , => RESERVED_NAME
0 value input input_count | +1 ^ ( => RESERVED_NAME
0 print update set | -1 int void , => RESERVED_NAME
0 , | in print => `print(e);` writes one number: a `print` for each
0 [ | -2 ( | in value update set => REDUCER_ARRAY
in value => REDUCER_USE
0 ) | in update set => REDUCER_USE
-1 ( | in update set => REDUCER_USE
-2 ( | in update set => REDUCER_USE
0 ( | +1 void | +2 ) => nothing is cast: leave `(void)` out, and where no call follows it, the whole statement
0 ( | -1 @ | -2 int void | global no => NESTED
0 ( | -1 @ => CALL
0 + - * / % < <= > >= == != && || [ | of @ | of-1 cilk_spawn => SPAWN
0 + - * / % < <= > >= == != && || [ | of @ => CALL
0 <= | in cilk_for => UP_TO
0 -= | in cilk_for => STEP_DOWN
0 > >= | +4 -= | in cilk_for => STEP_DOWN
0 > >= -- | in cilk_for => DOWNWARD
0 $ | -1 ( | in cilk_for => DECLARES
0 = | in cilk_for => STEP_HEAD
0 ^ { } | -1 += | in cilk_for => STEP_HEAD
0 ^ { } | in cilk_for => HEAD
0 , | in for => ONE_STEP
0 > | -1 - => ARROW
0 - | +1 > => ARROW
0 ) | -1 * => POINTER
0 * | +1 @reducer => REDUCER_USE
0 * | -1 void => there are no pointers, and a reducer needs no functions: `int cilk_reducer(add) r;` has its monoid, one of add, min, max, append and affine
0 * | -1 int | memory => MEMORY
0 * | -1 int ( = ; { } , ) => POINTER
0 * | second => POINTER
0 [ | -1 ] | +2 ] | +3 [ => THREE_INDICES
0 [ | -1 ] => ONE_INDEX
0 = | -1 ] | +1 { => ZEROS
0 = | -1 ] => ASSIGNMENT
0 { | -1 = => ZEROS
0 , | brackets => ONE_INDEX
0 [ | in :function :procedure => ARRAY_PARAMETER
0 [ => ARRAYS
0 ; | -1 ) | of :function :procedure => PROTOTYPE
0 ; | -1 @ | -2 ; { } => a name alone does nothing: leave this statement out, or call it, `f();`
0 < <= | -1 < => SHIFT_UP
0 > >= | -1 > => SHIFT_DOWN
0 < | +1 < <= => SHIFT_UP
0 > | +1 > >= => SHIFT_DOWN
0 / % | +1 = => DIVIDED
0 @ | +1 @ * | in :function :procedure | global => ONE_TYPE
0 @ | in :function :procedure | global => each parameter has its type: `int f(int a, int b)`
0 @ | +1 ( | global | begins | in ^ :function :procedure => a function begins with `int` or `void`
0 @ | +1 @ * | global | begins | in ^ :function :procedure => ONE_TYPE
0 @ | +1 cilk_reducer | global | begins | in ^ :function :procedure => REDUCER
0 cilk_reducer | global | begins | in ^ :function :procedure => REDUCER
0 @ | global | begins | in ^ :function :procedure => a declaration begins with `int`
0 } | global | begins | in ^ :function :procedure => there is a `}` too many, here or ahead
0 ; | global | begins | in ^ :function :procedure => leave this `;` away
0 ? | global | begins | in ^ :function :procedure => statements stand in functions, as in `int main() { .. }`
0 void | -1 ? | begins => NESTED
0 @ | -1 @ | second => ONE_TYPE
0 else | -1 ? => an `else` follows the one statement of its `if`
0 -- | +1 > | in for => COUNT_DOWN
0 ++ -- => STEP
0 , | in ^ ? | global no => there is no comma operator: write two statements, each with its `;`
0 = | in if while => `==` compares: an assignment is a statement of its own, and stands in no expression
0 = += -= *= => ASSIGNMENT
0 cilk_spawn => SPAWN
0 cilk_reducer => REDUCER";
