//! Words of C and OpenCilk that the language lacks, and what to write for each.

use crate::around::is_among;
use crate::sentences::{row_of, sentence};

/// Returns the hint for a word, of a table with lines `WORDS => HINT`.
pub fn said_of(table: &'static str, word: &[u8]) -> Option<&'static str> {
    match row_of(table, word) {
        Some(hint) => Some(sentence(hint)),
        None => None,
    }
}

/// The reserved words that do the same as words of another language.
pub const ALIASES: &str = "\
_Cilk_for parallel_for cilk_parallel_for => cilk_for
_Cilk_spawn spawn => cilk_spawn
_Cilk_sync sync => cilk_sync
elif elseif elsif => else if
fi If IF => if";

/// Returns the cure for any word that the language lacks.
pub fn word_of_c(word: &[u8]) -> Option<&'static str> {
    match other_word(word) {
        None => library_word(word),
        cure => cure,
    }
}

/// Returns the cure for another type, a word of OpenCilk's reducers, or a word before a declaration
/// or a statement.
pub fn other_word(word: &[u8]) -> Option<&'static str> {
    match said_of(OTHER_WORDS, word) {
        None if is_among(LOCK_WORDS, word) => Some(sentence("LOCKS")),
        cure => cure,
    }
}

/// Returns the cure for a constant or a function of C's headers.
pub fn library_word(word: &[u8]) -> Option<&'static str> {
    match said_of(NUMBERS, word) {
        None => said_of(FUNCTIONS, word),
        cure => cure,
    }
}

/// The words that belong to a type or come before one.
pub const TYPE_WORDS: &str =
    "int void const volatile long short int64_t int32_t int16_t int8_t size_t unsigned uint32_t signed uint64_t \
     uint16_t uint8_t char bool _Bool float double auto var let struct union class";

/// The words of locks, of atomic operations and of threads.
pub const LOCK_WORDS: &str =
    "pthread_.. PTHREAD_.. __sync_.. __atomic_.. atomic_.. omp_.. atomic mutex lock_guard unique_lock scoped_lock";

/// Returns the advice for a cast to a type.
pub fn cast_to(word: &[u8]) -> &'static str {
    said_of(CASTS, word).unwrap_or(sentence("CAST"))
}

const CASTS: &str = "\
unsigned char uint8_t uint16_t uint32_t => `int` is the only type, and has a sign: write `x % 256` for `(unsigned char)x`, and `x % 4294967296` for `(unsigned)x`; where that is below 0, add 256 or 4294967296 to it
float double => numbers are whole: leave the cast out; before a division multiply first, `a * 1000 / b` for `(double)a / b` in thousandths
int long short int64_t int32_t size_t => `int` is the only type, and has 64 bits: leave the cast out
void => nothing is cast: leave `(void)` out, and where no call follows it, the whole statement";

// Types, words of reducers, and words before a declaration, a statement or an operand.
const OTHER_WORDS: &str = "\
long short int64_t int32_t int16_t int8_t size_t => `int` is the only type, and has 64 bits
unsigned uint32_t => `int` is the only type; its 64 bits have a sign. What wraps at 32 bits, as the seed of a generator of random numbers, is kept below 2^32 by `%`: `seed = (seed * 1664525 + 1013904223) % 4294967296;`; an `unsigned char` wraps at 256
signed uint64_t uint16_t uint8_t => `int` is the only type; its 64 bits have a sign
char => `int` is the only type; a character is its number
bool _Bool => `int` is the only type; 0 is false, and all else is true
float double => FRACTIONS
auto var let => ONE_TYPE
enum => in place of `enum { N = 8 };` write the number 8 wherever `N` stands; a global `int n = 8;` does too, but not for an array's length
struct union class => STRUCTURES
typedef => `int` is the only type, and needs no other name
REDUCER_VIEW => REDUCER_USE
CILK_C_.. cilk_reducer_.. reducer_op.. cilk_op.. => REDUCER
const => leave `const` out
static => leave `static` out
inline => leave `inline` out
register volatile => leave `register` and `volatile` out
then => leave `then` out
extern => leave the line away: a text is one whole program
using template => LINE_AWAY
do => write `while`, with its body once before it
switch case => CASES
goto => there is no `goto`: a flag in the loop's condition ends it, and an `if` skips what is left
break => there is no `break`: let the loop's condition end it; as a `break` leaves the step of a `for` head out, that goes to the end of the body, under an `if`; that of a `switch` goes away
continue => there is no `continue`: put the rest of the body under an `if`
cilk_scope => there is no `cilk_scope`: leave the word away, and let a `cilk_sync;` end the block
sizeof => NO_LENGTH
and => write `&&`
or => write `||`
not => write `!`
cout => PRINT
cin => INPUT";

/// Constants of C's headers.
pub const NUMBERS: &str = "\
true => 1 is true
false => 0 is false
EXIT_SUCCESS => 0 is success
EXIT_FAILURE => 1, say, is failure
INT_MAX LONG_MAX LLONG_MAX INT64_MAX => the greatest number is 9223372036854775807
INT_MIN LONG_MIN LLONG_MIN INT64_MIN => the least number is `-9223372036854775807 - 1`
NULL => there are no pointers: -1 can stand for no index; a test whether `malloc` gave memory goes away
RAND_MAX => `seed / 65536` is at most 32767";

// Functions of C's library.
const FUNCTIONS: &str = "\
printf fprintf puts putchar perror => PRINT
scanf getchar argv argc atoi atol atof strtol strtoul strtoull => INPUT
malloc calloc realloc => MEMORY
alloca => MEMORY_OF_CALLS
free => arrays are global: leave this call out
rand srand => there is no `rand`: a global `int seed = 1;`, and for each number `seed = (seed * 1103515245 + 12345) % 2147483648;`, of which `seed / 65536` is good; `seed = s;` stands for `srand(s);`
exit abort => a run ends by a `return` of `main` alone
assert => `print` what is to hold, or let the result tell of it
memcpy memmove memset => write element by element, in a loop
__cilkrts_get_nworkers __cilkrts_get_worker_number => a result can't depend on the workers: leave this out, or write a number
clock time => there is no clock: `measure` counts what a run takes
sqrt pow log exp sin cos tan floor ceil round abs labs fabs fmin fmax min max strlen strcmp strcpy strcat qsort toupper tolower isdigit isalpha isspace => LIBRARY";
