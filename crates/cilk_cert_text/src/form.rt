// Whether a line is of a form.

ghost use Rattle.std.specs.Prelude.{◌↔◌, IsTrue};
ghost use Rattle.cilk_cert_text.specs.Certificates.{IsAt, IsEntry, IsNumber, IsValue, NamesReducer};

use crate::line::{Entry, Form, Line, Reducer, Version};

/// Returns true: each number of 32 bits may be in a line.
fn is_number(number: u32) -> bool
    ensures { IsTrue result ↔ IsNumber number }
{
    let _number = number;
    true
}

/// Returns true: each value of 64 bits may be in a line.
fn is_value(value: i64) -> bool
    ensures { IsTrue result ↔ IsValue value }
{
    let _value = value;
    true
}

/// Tells whether the version names a reducer in this way.
fn is_name(version: Version, name: Reducer) -> bool
    ensures { IsTrue result ↔ NamesReducer version name }
{
    match (version, name) {
        (Version::One, Reducer::Number(number)) => is_number(number),
        (Version::Two, Reducer::Place(instance)) => {
            is_number(instance.frame) && is_number(instance.place)
        }
        _ => false,
    }
}

/// Tells whether the version can write the event.
fn is_entry(version: Version, entry: Entry) -> bool
    ensures { IsTrue result ↔ IsEntry version entry }
{
    match entry {
        Entry::Begin { frame } => is_number(frame),
        Entry::Spawn { child } => is_number(child),
        Entry::Call { child } => is_number(child),
        Entry::Resume { parent } => is_number(parent),
        Entry::Sync | Entry::End => true,
        Entry::Read {
            cell,
            value,
            source,
        } => is_number(cell) && is_value(value) && is_number(source),
        Entry::Write { cell, value } => is_number(cell) && is_value(value),
        Entry::Create { reducer } => is_name(version, reducer),
        Entry::Update { reducer, value } => is_name(version, reducer) && is_value(value),
        Entry::Set { reducer, value } => is_name(version, reducer) && is_value(value),
        Entry::Value { reducer, value } => is_name(version, reducer) && is_value(value),
        Entry::Print { value } => is_value(value),
    }
}

/// Tells whether the line is of this form.
pub(crate) fn is_at(form: Form, line: Line) -> bool
    ensures { IsTrue result ↔ IsAt form line }
{
    match (form, line) {
        (Form::Frame(k), Line::Frame { number, frame }) => {
            number == k && is_number(number) && is_number(frame.parent) && is_number(frame.ordinal)
        }
        (Form::Strand(k), Line::Strand { number, strand }) => {
            number == k
                && is_number(number)
                && is_number(strand.frame)
                && is_number(strand.hebrew)
                && is_number(strand.class)
        }
        (Form::Event(version), Line::Event(entry)) => is_entry(version, entry),
        (Form::Result, Line::Result(value)) => is_value(value),
        (Form::End, Line::End) => true,
        _ => false,
    }
}
