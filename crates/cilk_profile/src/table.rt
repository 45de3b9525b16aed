//! The totals of a run as lines of text.

ghost use Rattle.std.specs.Prelude.{◌≡◌, ◌++◌, IfOk, OnOk};
ghost use Rattle.cilk_profile.specs.Table.{decimal_point, hundredths, known_line, parallelism_line, total_line, totals_text};

use crate::totals::Totals;
use itoa::Buffer;
use std::alloc::{AllocError, Global};

/// The separator of names and numbers in a table with columns.
pub const BLANK: u8 = b' ';

/// The separator in a table with commas.
pub const COMMA: u8 = b',';

// `NAME MARK NUMBER`.
fn push_total(text: &mut Vec<u8>, name: &[u8], mark: u8, number: u64) -> Result<(), AllocError>
    ensures { OnOk result (text.new.items ≡ text.old.items ++ total_line name.now mark number) }
{
    let mut buffer = Buffer::new();
    text.extend_from_slice(name)?;
    text.push(mark)?;
    text.extend_from_slice(buffer.format(number).as_bytes())?;
    text.push(b'\n')?;
    Ok(())
}

// The same for a known number, and nothing for an unknown one.
fn push_known(
    text: &mut Vec<u8>,
    name: &[u8],
    mark: u8,
    number: Option<u64>,
) -> Result<(), AllocError>
    ensures { OnOk result (text.new.items ≡ text.old.items ++ known_line name.now mark number) }
{
    match number {
        Some(number) => push_total(text, name, mark, number),
        None => Ok(()),
    }
}

// Work over a span in hundredths, rounded down.
fn hundredths(work: usize, span: u64) -> u128
    ensures { result ≡ hundredths work span }
{
    let work = work as u128 * 100;
    match span {
        0 => 0,
        span => work / u128::from(span),
    }
}

// A number of hundredths, with a point before the last two digits.
fn push_point(text: &mut Vec<u8>, number: u128) -> Result<(), AllocError>
    ensures { OnOk result (text.new.items ≡ text.old.items ++ decimal_point number) }
{
    let mut buffer = Buffer::new();
    text.extend_from_slice(buffer.format(number / 100).as_bytes())?;
    text.push(b'.')?;
    text.extend_from_slice(buffer.format(number / 10 % 10).as_bytes())?;
    text.extend_from_slice(buffer.format(number % 10).as_bytes())
}

// Work over a span, with two digits after the point.
fn push_parallelism(
    text: &mut Vec<u8>,
    name: &[u8],
    mark: u8,
    work: usize,
    span: u64,
) -> Result<(), AllocError>
    ensures { OnOk result (text.new.items ≡ text.old.items ++ parallelism_line name.now mark work span) }
{
    text.extend_from_slice(name)?;
    text.push(mark)?;
    push_point(text, hundredths(work, span))?;
    text.push(b'\n')?;
    Ok(())
}

/// Returns the totals, one to a line, with `mark` before each number: events, ticks if they are
/// known, frames, strands, work, span and parallelism, the burdened span, and the parallelism by that.
/// Parallelism has two digits after the point and is rounded down.
pub fn totals_text(
    alloc: Global,
    mark: u8,
    totals: &Totals,
    ticks: Option<u64>,
) -> Result<Vec<u8>, AllocError>
    ensures { IfOk result (λ text. text.items ≡ totals_text mark totals.now ticks) }
{
    let mut text = Vec::new(alloc);
    push_totals(&mut text, mark, totals, ticks)?;
    Ok(text)
}

fn push_totals(
    text: &mut Vec<u8>,
    mark: u8,
    totals: &Totals,
    ticks: Option<u64>,
) -> Result<(), AllocError>
    ensures { OnOk result (text.new.items ≡ text.old.items ++ totals_text mark totals.now ticks) }
{
    push_total(text, b"events", mark, totals.work as u64)?;
    push_known(text, b"ticks", mark, ticks)?;
    push_total(text, b"frames", mark, totals.frames as u64)?;
    push_total(text, b"strands", mark, totals.strands as u64)?;
    push_total(text, b"work", mark, totals.work as u64)?;
    push_total(text, b"span", mark, totals.span)?;
    push_parallelism(text, b"parallelism", mark, totals.work, totals.span)?;
    push_total(text, b"burdened span", mark, totals.burdened_span)?;
    push_parallelism(
        text,
        b"burdened parallelism",
        mark,
        totals.work,
        totals.burdened_span,
    )
}
