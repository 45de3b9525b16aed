//! Accepted programs: certified by their serial runs, and checked.

use cilk_cert_maker::make::make;
use cilk_cert_text::write::write;
use cilk_checker::accepted::Accepted;
use cilk_checker::judge::program;
use cilk_checker::texts::check;
use cilk_parser::input::parse_input;
use std::alloc::Global;

/// Two spawned calls read one global, and their results are added.
pub const GETS: &str =
    "int g = 7; int get() { return g; } int main() { int x; int y; x = cilk_spawn get(); y = cilk_spawn get(); cilk_sync; return x + y; }";

/// Four turns of a loop square four numbers of the input.
pub const SQUARES: &str =
    "int a[4]; int main() { cilk_for (int i = 0; i < 4; i++) { a[i] = input(i) * input(i); } return a[0] + a[3]; }";

/// A loop with as many turns as the input says.
pub const TURNS: &str =
    "int a[7]; int main() { int n = input(0); cilk_for (int i = 0; i < n; i++) { a[i] = i; } return a[6]; }";

/// Returns the text of the certificate of a program's run on an input, if there is one.
pub fn certificate(alloc: Global, text: &str, numbers: &str) -> Option<Vec<u8>> {
    let program = program(alloc, text.as_bytes()).ok()?;
    let input = parse_input(alloc, numbers.as_bytes()).ok()?;
    let certificate = make(alloc, &program, &input).ok()?;
    write(alloc, &certificate).ok()
}

/// Certifies and checks a program's run on an input.
pub fn accepted(alloc: Global, text: &str, numbers: &str) -> Option<Accepted> {
    let certificate = certificate(alloc, text, numbers)?;
    check(
        alloc,
        text.as_bytes(),
        numbers.as_bytes(),
        certificate.as_slice(),
    )
    .ok()
}
