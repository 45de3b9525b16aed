//! Accepted programs and the outcomes of their runs.

/// A program that is accepted on some numbers, and the outcome of each run along its plan.
#[derive(Clone, Copy)]
pub struct Case {
    pub text: &'static str,
    /// The input of the certificate.
    pub numbers: &'static str,
    /// The input of the runs.
    pub on: &'static str,
    /// The outcome of a run, in lines.
    pub left: &'static str,
}

/// Two spawned calls read one global, and their results are added.
pub const GETS: &str = "int g = 7; \
    int get() { return g; } \
    int main() { int x; int y; x = cilk_spawn get(); y = cilk_spawn get(); cilk_sync; return x + y; }";

/// A loop with as many turns as the input says.
pub const TURNS: &str = "int a[7]; \
    int main() { int n = input(0); cilk_for (int i = 0; i < n; i++) { a[i] = i; } return a[6]; }";

// Four turns of a loop square four numbers of the input.
const SQUARES: &str = "int a[4]; \
    int main() { cilk_for (int i = 0; i < 4; i++) { a[i] = input(i) * input(i); } return a[0] + a[3]; }";

/// A program without input, and the outcome of each of its runs.
pub type Alone = (&'static str, &'static str);

/// Spawned calls; from the fourth on with reducers: their own, global ones, and those of their
/// caller.
pub const CALLS: [Alone; 6] = [
    (GETS, "cells 7\nresult 14\n"),
    (
        "#include <cilk/cilk.h>\n\
        int fib(int n) { if (n < 2) { return n; } int x; int y; x = cilk_spawn fib(n - 1); \
        y = fib(n - 2); cilk_sync; return x + y; } \
        int main() { int r; r = fib(10); return r; }",
        "cells\nresult 55\n",
    ),
    (
        "void p(int n) { print(n); } \
        int main() { cilk_spawn p(1); cilk_spawn p(2); cilk_spawn p(3); cilk_sync; return 0; }",
        "1\n2\n3\ncells\nresult 0\n",
    ),
    (
        "int f(int n) { int cilk_reducer(add) s; cilk_for (int i = 0; i < n; i++) { update(s, i); } \
        return value(s); } \
        int main() { int x; int y; x = cilk_spawn f(4); y = cilk_spawn f(5); cilk_sync; return x + y; }",
        "cells\nresult 16\n",
    ),
    (
        "int cilk_reducer(add) s; void u(int k) { update(s, k); } \
        int main() { cilk_spawn u(9223372036854775807); cilk_spawn u(1); cilk_spawn u(1); cilk_sync; \
        return value(s); }",
        "reducer -9223372036854775807\ncells\nresult -9223372036854775807\n",
    ),
    (
        "void put(int cilk_reducer(append) l, int x) { update(l, x); } \
        int main() { int cilk_reducer(append) a; cilk_spawn put(a, 1); cilk_spawn put(a, 2); cilk_sync; \
        return value(a); }",
        "cells\nresult 2\n",
    ),
];

/// Loops; from the second on their turns update reducers.
pub const LOOPS: [Alone; 5] = [
    (
        "int t[4]; \
        int main() { cilk_for (int i = 0; i < 2; i++) { cilk_for (int j = 0; j < 2; j++) { \
        t[2 * i + j] = 10 * i + j; } } return t[3]; }",
        "cells 0 1 10 11\nresult 11\n",
    ),
    (
        "int cilk_reducer(add) s; \
        int main() { cilk_for (int i = 1; i < 101; i++) { update(s, i); } return value(s); }",
        "reducer 5050\ncells\nresult 5050\n",
    ),
    (
        "int cilk_reducer(append) l; \
        int main() { cilk_for (int i = 0; i < 5; i++) { update(l, i); } return value(l); }",
        "reducer 0 1 2 3 4\ncells\nresult 5\n",
    ),
    (
        "int cilk_reducer(affine) d; \
        int main() { cilk_for (int i = 1; i < 5; i++) { update(d, i); } return value(d); }",
        "reducer 1234\ncells\nresult 1234\n",
    ),
    (
        "int cilk_reducer(affine) d; \
        int main() { cilk_for (int i = 0; i < 20; i++) { update(d, 9); } return value(d); }",
        "reducer 7766279631452241919\ncells\nresult 7766279631452241919\n",
    ),
];

/// Runs without a spawn.
pub const NUMBERS: [Alone; 4] = [
    ("int main(){return 0;}", "cells\nresult 0\n"),
    (
        "int main() { int m = -9223372036854775807 - 1; print(m / -1); print(m % -1); print(-7 / 2); \
        print(-7 % 2); return m * 2; }",
        "-9223372036854775808\n0\n-3\n-1\ncells\nresult 0\n",
    ),
    (
        "int cilk_reducer(min) m; int main() { return value(m); }",
        "reducer 9223372036854775807\ncells\nresult 9223372036854775807\n",
    ),
    (
        "int cilk_reducer(append) l; \
        int main() { update(l, 4); set(l, 7); update(l, 8); print(value(l)); return 0; }",
        "2\nreducer 7 8\ncells\nresult 0\n",
    ),
];

/// Runs on an input: the certificate's own, or another one on which the run has the same events with
/// other values.
pub const ON_INPUTS: [Case; 6] = [
    Case {
        text: TURNS,
        numbers: "0",
        on: "0",
        left: "cells 0 0 0 0 0 0 0\nresult 0\n",
    },
    Case {
        text: TURNS,
        numbers: "1",
        on: "1",
        left: "cells 0 0 0 0 0 0 0\nresult 0\n",
    },
    Case {
        text: TURNS,
        numbers: "7",
        on: "7",
        left: "cells 0 1 2 3 4 5 6\nresult 6\n",
    },
    Case {
        text: SQUARES,
        numbers: "1 2 3 4",
        on: "1 2 3 4",
        left: "cells 1 4 9 16\nresult 17\n",
    },
    Case {
        text: SQUARES,
        numbers: "1 2 3 4",
        on: "5 6 7 8",
        left: "cells 25 36 49 64\nresult 89\n",
    },
    Case {
        text: "int square(int n) { return n * n; } \
            int main() { int x; int y; int a = input(0); int b = input(1); x = cilk_spawn square(a); \
            y = cilk_spawn square(b); cilk_sync; return x + y; }",
        numbers: "3 4",
        on: "5 -6",
        left: "cells\nresult 61\n",
    },
];

/// Inputs on which the run departs from the plan.
pub const DEPART: [Case; 3] = [
    Case {
        text: SQUARES,
        numbers: "1 2 3 4",
        on: "5 6 7",
        left: "502 46\n",
    },
    Case {
        text: TURNS,
        numbers: "1",
        on: "0",
        left: "502 4\n",
    },
    Case {
        text: TURNS,
        numbers: "1",
        on: "7",
        left: "502 6\n",
    },
];
