//! Readers, writers and files that fail: the reply and the status.

use cilk_served::served::{
    Broken, Torn, checked_in_parts, served_over, short_writer, shown, status_with,
};
use std::alloc::Global;
use std::process::Abort;

const PRINTS: &str = "int main(){print(7);return 0;}";

pub const EARLY_READ: &str =
    "int one() { return 1; } int main() { int x; int y; x = cilk_spawn one(); y = x; cilk_sync; return y; }";

pub const FIB: &str =
    "#include <cilk/cilk.h>\nint fib(int n) { if (n < 2) { return n; } int x; int y; x = cilk_spawn fib(n - 1); y \
    = fib(n - 2); cilk_sync; return x + y; } int main() { int r; r = fib(10); return r; }";

#[test]
fn standard_input_that_fails(rt: HostRuntime) {
    for count in 0..PRINTS.len() {
        let mut torn = Torn {
            rest: &PRINTS.as_bytes()[..count],
        };
        let ended = shown(rt.alloc(), &[], b"", b"", &mut torn);
        assert!(rt; ended.is(2, "", "cannot read -\n"), "after {count} bytes");
    }
}

// A call, and what it writes where nothing fails.
#[derive(Clone, Copy)]
struct Call<'a> {
    words: &'a [&'a str],
    program: &'a str,
    certificate: &'a [u8],
    whole: &'a [u8],
}

// Whether the call fails if standard output has room for some bytes, and then fails or takes none.
// A beginning of the text went out.
fn stops_at(alloc: Global, call: Call<'_>, room: usize, fails: bool) -> bool {
    let mut out = short_writer(alloc, room, fails);
    let mut err = Vec::new(alloc);
    let program = call.program.as_bytes();
    let status = status_with(
        alloc,
        call.words,
        program,
        call.certificate,
        &mut out,
        &mut err,
    );
    let taken = out.taken.as_slice();
    status == 2
        && taken.len() == room
        && call.whole.starts_with(taken)
        && err.as_slice() == b"cannot write\n".as_slice()
}

// Whether all goes out where there is room for it, byte by byte.
fn has_room(alloc: Global, call: Call<'_>) -> bool {
    let mut out = short_writer(alloc, call.whole.len(), true);
    let mut err = Vec::new(alloc);
    let program = call.program.as_bytes();
    let status = status_with(
        alloc,
        call.words,
        program,
        call.certificate,
        &mut out,
        &mut err,
    );
    status != 2 && out.taken.as_slice() == call.whole && err.is_empty()
}

fn fails_at_each_byte(rt: &impl Abort, alloc: Global, call: Call<'_>) {
    for room in 0..call.whole.len() {
        assert!(rt; stops_at(alloc, call, room, true), "after {room} bytes");
        assert!(rt; stops_at(alloc, call, room, false), "after {room} bytes");
    }
    assert!(rt; has_room(alloc, call));
}

/// Returns the certificate of a program's run.
pub fn certified(alloc: Global, program: &str) -> Vec<u8> {
    shown(
        alloc,
        &["certify", "program"],
        program.as_bytes(),
        b"",
        &mut Broken,
    )
    .out
}

#[test]
fn standard_output_that_fails(rt: HostRuntime) {
    let made = certified(rt.alloc(), EARLY_READ);
    let certificate = made.as_slice();
    let run: [&str; 2] = ["run", "program"];
    let certify: [&str; 2] = ["certify", "program"];
    let check: [&str; 3] = ["check", "program", "certificate"];
    let calls: [(&[&str], &str, &[u8]); 3] = [
        (&run, PRINTS, b"7\nresult 0\n"),
        (&certify, EARLY_READ, certificate),
        (&check, EARLY_READ, b"refused 311 7 10\n"),
    ];
    for (words, program, whole) in calls {
        let call = Call {
            words,
            program,
            certificate,
            whole,
        };
        fails_at_each_byte(&rt, rt.alloc(), call);
    }
}

// Pieces of a certificate have at most 16,384 bytes.
#[test]
fn a_certificate_in_many_pieces(rt: HostRuntime) {
    let made = certified(rt.alloc(), FIB);
    let call = Call {
        words: &["certify", "program"],
        program: FIB,
        certificate: b"",
        whole: made.as_slice(),
    };
    for room in [16_379, 16_384, 16_389, 32_768] {
        assert!(rt;
            stops_at(rt.alloc(), call, room, true),
            "after {room} bytes"
        );
    }
}

// The number of reads of a certificate's file that have to succeed for it to be accepted.
fn reads_of(rt: &impl Abort, alloc: Global, certificate: &[u8]) -> u64 {
    let mut told = 0;
    for parts in 0..100 {
        let ended = checked_in_parts(alloc, FIB.as_bytes(), certificate, parts);
        if ended.is(2, "", "cannot read certificate\n") {
            told = parts + 1;
        } else {
            assert!(rt; ended.is(0, "accepted\n", ""), "after {parts} parts");
        }
    }
    told
}

// A part has at most 32,768 bytes. One more read finds the file's end.
#[test]
fn a_file_that_fails_at_a_later_part(rt: HostRuntime) {
    let made = certified(rt.alloc(), FIB);
    let told = reads_of(&rt, rt.alloc(), made.as_slice());
    assert_eq!(rt; told, made.len().div_ceil(32_768) as u64 + 1);
}

// Whether the status is this one where standard error takes only some bytes of its text.
fn keeps_status(alloc: Global, text: &str, status: u8, told: &str, room: usize) -> bool {
    let mut err = short_writer(alloc, room, true);
    let mut out = Vec::new(alloc);
    let ended = served_over(alloc, &mut text.as_bytes(), &mut out, &mut err);
    let taken = err.taken.as_slice();
    ended.status == status
        && ended.told == (told.len() <= room)
        && taken.len() == room.min(told.len())
        && told.as_bytes().starts_with(taken)
}

#[test]
fn standard_error_that_fails_changes_no_status(rt: HostRuntime) {
    let cases: [(&str, u8, &str); 3] = [
        ("int main(){return 1/0;}", 3, "fault 201 at 2\n"),
        ("int main(){", 2, "program 103 at 11\n"),
        ("int main(){return 0;}", 0, ""),
    ];
    for (text, status, told) in cases {
        for room in [0, 3, 1000] {
            assert!(rt;
                keeps_status(rt.alloc(), text, status, told, room),
                "{text}"
            );
        }
    }
}
