//! Certificates in pieces, from a device that may fail.

ghost use Rattle.std.specs.Prelude.{◌≡◌};

use crate::failing::{EARLY_READ, FIB, certified};
use cilk_checker::accepted::Accepted;
use cilk_checker::refusal::{Fields, Unaccepted};
use cilk_checker::source::{PullFault, Source};
use cilk_checker::texts::check_from;
use cilk_served::served::checked_in_parts;
use std::alloc::{AllocError, Global};

const EMPTY: &str = "int main(){return 0;}";

const SIZES: [usize; 4] = [1, 2, 7, 4096];

// A number with its places: 0 where a certificate is accepted, 1 where it can't be read.
type Answer = (u16, u64, u64);

// A text in pieces of at most `size` bytes. At its end the device fails, or the text ends.
#[derive(Drop)]
struct Pieces<'a> {
    rest: &'a [u8],
    size: usize,
    breaks: bool,
    last: usize,
    failures: u64,
}

impl<'a> Pieces<'a> {
    fn new(text: &'a [u8], size: usize, breaks: bool) -> Self
        ensures { result.failures ≡ 0 }
    {
        Pieces {
            rest: text,
            size,
            breaks,
            last: 0,
            failures: 0,
        }
    }
}

impl Source for Pieces<'_> {
    ghost use Rattle.std.specs.Prelude.{None};

    ghost failed = { λ p. p.failures };

    ghost remaining = { λ _. None };

    ghost last = { λ p. p.last };

    fn pull(&mut self, into: &mut [u8]) -> Result<usize, PullFault> {
        if self.breaks && self.rest.is_empty() {
            self.failures += 1;
            return Err(PullFault::Device);
        }
        let count = self.rest.len().min(into.len()).min(self.size);
        into[..count].copy_from_slice(&self.rest[..count]);
        self.rest = &self.rest[count..];
        self.last = count;
        Ok(count)
    }

    fn failures(&self) -> u64 {
        self.failures
    }
}

fn told(answer: Result<Accepted, Unaccepted>) -> Answer {
    match answer {
        Ok(_) => (0, 0, 0),
        Err(Unaccepted::Unread) => (1, 0, 0),
        Err(Unaccepted::Refusal(refusal)) => match refusal.fields() {
            Fields::None => (refusal.number(), 0, 0),
            Fields::One(at) => (refusal.number(), at, 0),
            Fields::Two(one, other) => (refusal.number(), one, other),
        },
    }
}

// The answer to a program and a certificate that comes in pieces, and the number of failures.
fn answered(
    alloc: Global,
    program: &str,
    certificate: &[u8],
    size: usize,
    breaks: bool,
) -> (Answer, u64) {
    let mut source = Pieces::new(certificate, size, breaks);
    let answer = told(check_from(alloc, program.as_bytes(), b"", &mut source));
    (answer, source.failures())
}

// A text, where its first part with these bytes is exchanged for others.
fn exchanged(alloc: Global, text: &[u8], old: &[u8], new: &[u8]) -> Result<Vec<u8>, AllocError> {
    for at in 0..text.len() {
        let (front, rest) = text.split_at(at);
        if rest.starts_with(old) {
            let mut made = front.to_vec(alloc)?;
            made.extend_from_slice(new)?;
            made.extend_from_slice(&rest[old.len().min(rest.len())..])?;
            return Ok(made);
        }
    }
    text.to_vec(alloc)
}

// A program, what is exchanged in its certificate, and the answer.
const ROWS: [(&str, &[u8], &[u8], Answer); 7] = [
    (FIB, b"", b"", (0, 0, 0)),
    (FIB, b"result 55\nend\n", b"result 55\nend", (302, 2929, 0)),
    (
        FIB,
        b"result 55\nend\n",
        b"result 55\nend\nx",
        (301, 2930, 0),
    ),
    (
        EARLY_READ,
        b"strand 2 2 3 2\nstrand 3 2 4 2",
        b"strand 2 2 4 2\nstrand 3 2 3 2",
        (306, 2, 0),
    ),
    (EARLY_READ, b"read 0 1 7", b"read 0 1 2", (308, 10, 0)),
    (EARLY_READ, b"result 1", b"result 2", (309, 0, 0)),
    (EMPTY, b"result 0", b"result +0", (301, 9, 0)),
];

#[test]
fn answers_are_of_the_text_alone(rt: HostRuntime) -> Result<(), AllocError> {
    for (program, old, new, wanted) in ROWS {
        let made = certified(rt.alloc(), program);
        let text = exchanged(rt.alloc(), made.as_slice(), old, new)?;
        for size in SIZES {
            let (answer, _) = answered(rt.alloc(), program, text.as_slice(), size, false);
            assert!(rt; answer == wanted, "{program}");
        }
    }
    for size in SIZES {
        assert!(rt; answered(rt.alloc(), EMPTY, b"", size, false) == ((302, 1, 0), 0));
    }
    Ok(())
}

#[test]
fn a_device_that_fails_is_told(rt: HostRuntime) {
    let front = b"cilkcert 2\nsize 3 1 2\nframe 1 0 0\nstrand";
    for size in SIZES {
        assert!(rt; answered(rt.alloc(), EMPTY, front, size, true) == ((1, 0, 0), 1));
    }
}

#[test]
fn nothing_is_read_after_a_malformed_line(rt: HostRuntime) {
    for size in SIZES {
        assert!(rt; answered(rt.alloc(), EMPTY, b"x\n", size, true) == ((301, 1, 0), 0));
    }
    let ended = checked_in_parts(rt.alloc(), EMPTY.as_bytes(), b"x\n", 1);
    assert!(rt; ended.is(4, "refused 301 1\n", ""));
}
