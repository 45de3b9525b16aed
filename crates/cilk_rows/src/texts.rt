//! The texts in a case's file, by name.
//!
//! Text before the first head is for a reader alone. A head is a line `-- NAME --` or
//! `-- NAME, FORM --`, and the lines after it, up to the next head or the end, are the text of that
//! name. By the form `no LF` its last line has no line feed; in an `escaped` text `\xNN` is a byte,
//! and `\\` a backslash; `escaped, no LF` is both. `tools/case_files.py` writes this form.

ghost use Rattle.std.specs.Prelude.{◌<◌, IfSome};

use crate::folder::File;
use std::alloc::{AllocError, Global};

/// How a text is written in a case's file.
#[derive(Clone, Copy, PartialEq, Eq)]
struct Form {
    is_escaped: bool,
    has_last_lf: bool,
}

// The form of a head that says none.
const PLAIN: Form = Form {
    is_escaped: false,
    has_last_lf: true,
};

/// Returns the form of this name.
fn form_of(word: &str) -> Option<Form> {
    match word {
        "no LF" => Some(Form {
            is_escaped: false,
            has_last_lf: false,
        }),
        "escaped" => Some(Form {
            is_escaped: true,
            has_last_lf: true,
        }),
        "escaped, no LF" => Some(Form {
            is_escaped: true,
            has_last_lf: false,
        }),
        _ => None,
    }
}

/// Returns the name and the form of a head `-- NAME --` or `-- NAME, FORM --`; none for another line.
fn head_of(line: &str) -> Option<(&str, Form)> {
    let head = line.strip_prefix("-- ")?.strip_suffix(" --")?;
    match head.split_once(", ") {
        Some((name, word)) => match form_of(word) {
            Some(form) => Some((name, form)),
            None => None,
        },
        None => Some((head, PLAIN)),
    }
}

/// Returns the value of a hexadecimal digit.
fn digit(byte: u8) -> Option<u8>
    ensures { IfSome result (λ d. d < 16) }
{
    match byte {
        b'0'..=b'9' => Some(byte - b'0'),
        b'a'..=b'f' => Some(byte - b'a' + 10),
        _ => None,
    }
}

/// Returns the byte that `xNN` spells.
fn spelled(escape: &[u8]) -> Option<u8> {
    match escape {
        [b'x', high, low] => match (digit(*high), digit(*low)) {
            (Some(high), Some(low)) => Some(high * 16 + low),
            _ => None,
        },
        _ => None,
    }
}

/// Adds a line to a text; an escape in it is one byte.
fn push_unescaped(bytes: &mut Vec<u8>, line: &[u8]) -> Result<(), AllocError> {
    let mut at = 0;
    for _ in 0..line.len() {
        if at >= line.len() {
            break;
        }
        let rest = &line[at..];
        if rest.len() >= 4
            && rest[0] == b'\\'
            && let Some(byte) = spelled(&rest[1..4])
        {
            bytes.push(byte)?;
            at += 4;
        } else if rest.len() >= 2 && rest[0] == b'\\' && rest[1] == b'\\' {
            bytes.push(b'\\')?;
            at += 2;
        } else {
            bytes.push(rest[0])?;
            at += 1;
        }
    }
    Ok(())
}

/// Ends the last text: its last line loses its LF where the head says so.
fn close(files: &mut Vec<File>, form: Form) {
    if !form.has_last_lf
        && let Some(file) = files.last_mut()
    {
        let _ = file.bytes.pop();
    }
}

/// Returns the texts of a case's file. The lines before the first head are for a reader alone.
pub fn texts(alloc: Global, whole: &str) -> Result<Vec<File>, AllocError> {
    let mut files: Vec<File> = Vec::new(alloc);
    let mut form = PLAIN;
    for line in whole.lines() {
        if let Some((name, next)) = head_of(line) {
            close(&mut files, form);
            form = next;
            let name = String::from_str(alloc, name)?;
            files.push(File {
                name,
                bytes: Vec::new(alloc),
            })?;
        } else if let Some(file) = files.last_mut() {
            if form.is_escaped {
                push_unescaped(&mut file.bytes, line.as_bytes())?;
            } else {
                file.bytes.extend_from_slice(line.as_bytes())?;
            }
            file.bytes.push(b'\n')?;
        }
    }
    close(&mut files, form);
    Ok(files)
}
