//! The texts of faults.

use cilk_cert_text::fault::CertFault;
use cilk_checker::fault::ProgramFault;
use cilk_checker::refusal::{Refusal, Unaccepted};
use cilk_checker::source::PullFault;
use cilk_commands::files::FileFault;
use cilk_names::fault::{NameErrorKind, NameFault};
use cilk_parser::fault::{SyntaxErrorKind, TextFault};
use cilk_schedule::PlayFault;
use cilk_serial::fault::RunFault;
use cilk_syntax::lexer::{LexErrorKind, LexFault};
use cilk_types::fault::Fault;
use std::alloc::Global;
use std::fmt::Display;
use std::process::Abort;

const TOKENS: [(LexErrorKind, &str); 6] = [
    (LexErrorKind::NotAscii, "a byte over 127"),
    (LexErrorKind::Unclosed, "an unclosed comment"),
    (LexErrorKind::Directive, "an unknown `#` line"),
    (LexErrorKind::Numeral, "no number"),
    (LexErrorKind::NoToken, "no token"),
    (LexErrorKind::TooLarge, "a number over 9223372036854775807"),
];

const TEXTS: [(SyntaxErrorKind, &str); 8] = [
    (SyntaxErrorKind::NotAscii, "a byte over 127"),
    (SyntaxErrorKind::BadToken, "no token"),
    (
        SyntaxErrorKind::Unexpected,
        "an unexpected token, or the end",
    ),
    (
        SyntaxErrorKind::TooDeep,
        "nested too deep, or too many operators",
    ),
    (
        SyntaxErrorKind::TooLarge,
        "a number over 9223372036854775807",
    ),
    (SyntaxErrorKind::TooLong, "the text is too long"),
    (SyntaxErrorKind::BadNumber, "no number of the input"),
    (
        SyntaxErrorKind::TooManyNumbers,
        "too many numbers in the input",
    ),
];

const NAMES: [(NameErrorKind, &str); 9] = [
    (NameErrorKind::Unknown, "an unknown name"),
    (
        NameErrorKind::DeclaredTwice,
        "a name that is declared twice in a scope",
    ),
    (NameErrorKind::WrongCount, "a wrong count of arguments"),
    (NameErrorKind::WrongKind, "a name of the wrong kind"),
    (NameErrorKind::NoMain, "no `int main` without parameters"),
    (
        NameErrorKind::ReturnInLoop,
        "a `return` inside a `cilk_for`",
    ),
    (
        NameErrorKind::LoopVariable,
        "a `cilk_for`'s variable that is written",
    ),
    (
        NameErrorKind::ReducerNotFirst,
        "a reducer that isn't first in a function's body",
    ),
    (NameErrorKind::OverLimit, "past a limit of a program"),
];

const RUNS: [(Fault, &str); 6] = [
    (Fault::DivisionByZero, "division by zero"),
    (Fault::IndexOutside, "index outside the array"),
    (Fault::InputOutside, "input place outside"),
    (Fault::TooManyEvents, "too many events or ticks"),
    (Fault::TooManyFrames, "too many frames"),
    (Fault::TooManyCells, "too many cells"),
];

const CERTIFICATES: [(CertFault, &str); 3] = [
    (
        CertFault::Malformed { line: 7 },
        "malformed certificate at line 7",
    ),
    (
        CertFault::Truncated { line: 7 },
        "truncated certificate at line 7",
    ),
    (CertFault::Memory, "out of memory"),
];

const REFUSALS: [(Refusal, &str); 16] = [
    (
        Refusal::Program(SyntaxErrorKind::BadToken, 3),
        "no token in the program at byte 3",
    ),
    (
        Refusal::Name(NameErrorKind::Unknown, 18),
        "an unknown name in the program at byte 18",
    ),
    (
        Refusal::Input(SyntaxErrorKind::BadNumber, 2),
        "no number of the input in the input at byte 2",
    ),
    (
        Refusal::Malformed { line: 9 },
        "malformed certificate at line 9",
    ),
    (
        Refusal::Truncated { line: 10 },
        "truncated certificate at line 10",
    ),
    (Refusal::Event { at: 7 }, "not the run's event at 7"),
    (Refusal::Stops { at: 16 }, "the run is stopped at 16"),
    (Refusal::Frame { frame: 2 }, "wrong line of frame 2"),
    (Refusal::Strand { strand: 4 }, "wrong frame of strand 4"),
    (
        Refusal::Hebrew { strand: 2 },
        "wrong Hebrew number of strand 2",
    ),
    (Refusal::Class { strand: 4 }, "wrong peer class of strand 4"),
    (
        Refusal::ReadSource { at: 10 },
        "wrong source of the read at 10",
    ),
    (Refusal::Result, "wrong result"),
    (
        Refusal::Race {
            earlier: 7,
            later: 10,
        },
        "a race of 7 and 10",
    ),
    (
        Refusal::ViewRace {
            created: 2,
            used: 10,
        },
        "a view-read race of 2 and 10",
    ),
    (Refusal::Memory, "no memory"),
];

// Whether a fault is shown as this text.
fn shows<D: Display + Drop>(alloc: Global, fault: D, text: &str) -> bool {
    match format!(in alloc; "{fault}") {
        Ok(shown) => shown.as_str() == text,
        Err(_) => false,
    }
}

fn are_shown<D: Display + Copy + Drop>(rt: &impl Abort, alloc: Global, cases: &[(D, &str)]) {
    for (fault, text) in cases {
        assert!(rt; shows(alloc, *fault, text), "{text}");
    }
}

#[test]
fn faults_show_their_kinds(rt: HostRuntime) {
    let alloc = rt.alloc();
    are_shown(&rt, alloc, &TOKENS);
    are_shown(&rt, alloc, &TEXTS);
    are_shown(&rt, alloc, &NAMES);
    are_shown(&rt, alloc, &RUNS);
    are_shown(&rt, alloc, &CERTIFICATES);
    are_shown(&rt, alloc, &REFUSALS);
}

#[test]
fn faults_show_their_places(rt: HostRuntime) {
    let alloc = rt.alloc();
    assert!(rt;
        shows(
            alloc,
            LexFault::At(LexErrorKind::NoToken, 7),
            "no token at byte 7"
        )
    );
    assert!(rt;
        shows(
            alloc,
            TextFault::At(SyntaxErrorKind::BadToken, 7),
            "no token at byte 7"
        )
    );
    assert!(rt;
        shows(
            alloc,
            NameFault::At(NameErrorKind::Unknown, 7),
            "an unknown name at byte 7"
        )
    );
    assert!(rt;
        shows(
            alloc,
            ProgramFault::Text(SyntaxErrorKind::BadToken, 7),
            "no token at byte 7"
        )
    );
    assert!(rt;
        shows(
            alloc,
            ProgramFault::Name(NameErrorKind::Unknown, 7),
            "an unknown name at byte 7"
        )
    );
    let fault = Fault::DivisionByZero;
    assert!(rt;
        shows(
            alloc,
            RunFault::At { fault, at: 7 },
            "division by zero at 7"
        )
    );
    assert!(rt; shows(alloc, PlayFault::Line(7), "too many choices at line 7"));
    let name = Vec::new(alloc);
    assert!(rt; shows(alloc, PlayFault::Stop { fault, name }, "division by zero"));
    assert!(rt; shows(alloc, Unaccepted::Refusal(Refusal::Result), "wrong result"));
}

#[test]
fn failures_show_what_is_wanting(rt: HostRuntime) {
    let alloc = rt.alloc();
    assert!(rt; shows(alloc, LexFault::Memory, "no memory"));
    assert!(rt; shows(alloc, TextFault::Memory, "no memory"));
    assert!(rt; shows(alloc, NameFault::Memory, "no memory"));
    assert!(rt; shows(alloc, ProgramFault::Memory, "no memory"));
    assert!(rt; shows(alloc, RunFault::Memory, "no memory"));
    assert!(rt; shows(alloc, PlayFault::Memory, "no memory"));
    assert!(rt; shows(alloc, FileFault::Memory, "no memory"));
    assert!(rt; shows(alloc, PullFault::Memory, "no memory"));
    assert!(rt; shows(alloc, FileFault::Device, "cannot read"));
    assert!(rt; shows(alloc, PullFault::Device, "cannot read"));
    assert!(rt; shows(alloc, Unaccepted::Unread, "cannot read"));
}
