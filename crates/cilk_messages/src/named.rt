//! The files that an order names.

use crate::sentence::{Part, push_said};
use crate::words::{Order, Origin};
use std::alloc::{AllocError, Global};

/// The files in an order: its program, its input, and its certificate or script.
#[derive(Clone, Copy)]
pub struct Named<'a> {
    pub program: Origin<'a>,
    pub input: Option<&'a str>,
    pub other: &'a str,
}

impl<'a> Named<'a> {
    /// Returns the files in an order. The program of `judge` is its trace.
    pub fn of(order: &Order<'a>) -> Named<'a> {
        let (program, input, other) = match *order {
            Order::Run {
                program: Origin::Standard,
                input,
            } => {
                return Named {
                    program: Origin::Standard,
                    input,
                    other: "",
                };
            }
            Order::Run {
                program: Origin::File(program),
                input,
            }
            | Order::Certify { program, input }
            | Order::Settle { program, input } => (program, input, ""),
            Order::Check {
                program,
                certificate: other,
                input,
            }
            | Order::Play {
                program,
                script: other,
                input,
                ..
            } => (program, input, other),
            Order::Judge { trace, .. } => (trace, None, ""),
        };
        Named {
            program: Origin::File(program),
            input,
            other,
        }
    }

    /// Returns the program's path, or `-` for standard input.
    pub fn file(&self) -> &'a str {
        match self.program {
            Origin::Standard => "-",
            Origin::File(path) => path,
        }
    }
}

/// Returns the hint that the program, or another file, can't be read.
pub fn of_unreadable(alloc: Global, named: &Named<'_>, path: &str) -> Result<String, AllocError> {
    let hint = match named.program {
        _ if path != named.file() =>
            "hint: is `{}` a file that can be read, of at most 268,435,456 bytes?\n",
        Origin::Standard => "hint: the program comes from standard input, which can't be read\n",
        Origin::File(_) => NO_PROGRAM,
    };
    let mut text = String::new(alloc);
    push_said(alloc, &mut text, hint, &[Part::Text(path)])?;
    Ok(text)
}

const NO_PROGRAM: &str =
    "hint: is `{}` a file that can be read? A program has at most 262,144 bytes: a longer one is refused by \
    106, and a file of more than 268,435,456 bytes isn't read\n";
