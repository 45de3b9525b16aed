//! What is said of every input that agrees with a program's own at some positions.

ghost use Rattle.std.specs.Prelude.{◌≡◌, ◌++◌, IfOk, OnOk, decimal};
ghost use Rattle.cilk_messages.specs.Claims.{every_text, fixed_text, list_text, numbers_text, with_text};

use itoa::Buffer;
use std::alloc::{AllocError, Global};

/// The most positions that a text shows.
const SHOWN: usize = 20;

/// Which inputs are spoken of: those of as many numbers that have these at these positions.
#[derive(Drop)]
pub struct Claim {
    /// How many numbers the program's own input has.
    pub count: usize,
    /// The positions at which others have to agree with it, from 0 in ascending order, with the number there.
    pub fixed: Vec<(usize, i64)>,
}

fn push_decimal(text: &mut Vec<u8>, value: usize) -> Result<(), AllocError>
    ensures { OnOk result (text.new.items ≡ text.old.items ++ decimal value) }
{
    let mut buffer = Buffer::new();
    text.extend_from_slice(buffer.format(value).as_bytes())
}

fn push_numbers(text: &mut Vec<u8>, count: usize) -> Result<(), AllocError>
    ensures { OnOk result (text.new.items ≡ text.old.items ++ numbers_text count) }
{
    if count == 1 {
        return text.extend_from_slice(b"1 number");
    }
    push_decimal(text, count)?;
    text.extend_from_slice(b" numbers")
}

fn push_fixed(text: &mut Vec<u8>, at: usize, value: i64) -> Result<(), AllocError>
    ensures { OnOk result (text.new.items ≡ text.old.items ++ fixed_text (at, value)) }
{
    let mut buffer = Buffer::new();
    text.push(b' ')?;
    push_decimal(text, at)?;
    text.extend_from_slice(b" is ")?;
    text.extend_from_slice(buffer.format(value).as_bytes())
}

// At most so many positions, the first one after this mark and the others after commas, and how many more
// there are.
fn push_list(
    text: &mut Vec<u8>,
    fixed: &[(usize, i64)],
    first: u8,
    most: usize,
) -> Result<(), AllocError>
    ensures { OnOk result (text.new.items ≡ text.old.items ++ list_text first most fixed.now) }
{
    let mut mark = first;
    let mut left = most;
    let mut rest = fixed;
    'each: while let [(at, value), behind @ ..] = rest {
        if left == 0 {
            text.extend_from_slice(b" .. and ")?;
            push_decimal(text, rest.len())?;
            return text.extend_from_slice(b" more");
        }
        text.push(mark)?;
        push_fixed(text, *at, *value)?;
        mark = b',';
        left -= 1;
        rest = behind;
    }
    Ok(())
}

fn push_with(text: &mut Vec<u8>, fixed: &[(usize, i64)]) -> Result<(), AllocError>
    ensures { OnOk result (text.new.items ≡ text.old.items ++ with_text fixed.now) }
{
    if fixed.is_empty() {
        return Ok(());
    }
    text.extend_from_slice(b" with these")?;
    push_list(text, fixed, b':', SHOWN)?;
    Ok(())
}

/// Adds `every input of N numbers`, and which of them are fixed.
pub fn push_every(text: &mut Vec<u8>, claim: &Claim) -> Result<(), AllocError>
    ensures { OnOk result (text.new.items ≡ text.old.items ++ every_text claim.now) }
{
    text.extend_from_slice(b"every input of ")?;
    push_numbers(text, claim.count)?;
    push_with(text, claim.fixed.as_slice())?;
    Ok(())
}
