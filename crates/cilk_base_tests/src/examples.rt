//! The programs of `examples/` as texts.

pub const REDUCERS: &str =
    "int cilk_reducer(add) total; int cilk_reducer(append) seen; void visit(int cilk_reducer(max) greatest, int n) \
    { update(total, n); update(seen, n); update(greatest, n); } int main() { int cilk_reducer(max) greatest; \
    cilk_for (int i = 1; i < 11; i++) { update(total, i); } cilk_spawn visit(greatest, 5); cilk_spawn \
    visit(greatest, 3); cilk_sync; return value(greatest); }";

pub const SPAWNS: &str =
    "int g; void put(int x) { g = x; } int twice(int x) { return 2 * x; } int main() { int x; cilk_spawn put(5); x \
    = cilk_spawn twice(3); int y = cilk_spawn twice(4); cilk_sync; return g + x + y; }";

pub const STATEMENTS: &str =
    "int a[5]; int sum(int count) { int total = 0; for (int i = 0; i < count; i++) { total += a[i]; } return \
    total; } int main() { int i, product = 1; for (i = 0; i < 5; ++i) { a[i] = i * i; } a[4] -= 6; a[3]--; while \
    (i) { product *= 2; i = i - 1; } int total = sum(5); if (total == 23 && product == 32) print(total); else \
    print(-1); return product; }";

pub const OPERATORS: &str =
    "int low = -3; void nothing(void) { ; return; } int main() { int x = 5; nothing(); { --x; } cilk_for (int i = \
    0; i < 1; ++i) { ; } cilk_for (int i = 0; i < 1; i += 1) { ; } print(x > 3 || low >= 0); print(!(x != 4) && \
    low <= -3); return x; }";

pub const WORDS: &str =
    "int m; int main() { m = -9223372036854775807 - 1; print(m / -1); print(m % -1); print(-7 / 2); print(-7 % 2); \
    return m * 2; }";

pub const COUNTDOWN: &str =
    "int g = 3; int main() { while (g) { print(g); g = g - 1; } return g; }";

pub const SQUARES: &str =
    "int a[8]; int main() { cilk_for (int i = 0; i < 8; i++) { a[i] = i * i; } for (int i = 0; i < 8; i++) { \
    print(a[i]); } return a[7]; }";

pub const MONOIDS: &str =
    "int cilk_reducer(add) sum; int cilk_reducer(min) least; int cilk_reducer(max) greatest; int \
    cilk_reducer(append) list; int cilk_reducer(affine) digits; int main() { set(sum, 100); cilk_for (int i = 1; i \
    < 5; i++) { update(sum, i); update(least, 10 - i); update(greatest, 10 - i); update(list, i * i); \
    update(digits, i); } print(value(list)); return value(sum); }";

pub const FIRST: &str = "int main() { return 0; }";

pub const INPUTS: &str =
    "int i; int sum; int main() { while (i < input_count()) { sum = sum + input(i); i = i + 1; } return sum; }";

pub const EARLY_VALUE: &str =
    "int cilk_reducer(add) sum; void one() { update(sum, 1); } int main() { cilk_spawn one(); int x = value(sum); \
    cilk_sync; return x; }";

// The input of the program with an input.
pub const INPUTS_INPUT: &str = "1 2 3";
