//! Calls that no command makes.

ghost use Rattle.std.specs.Prelude.{◌<◌};

use crate::playing::{LIST, LOCAL, PRINTS, code_of, no_input, rounds};
use cilk_cert_text::certificate::Certificate;
use cilk_cert_text::read::{read, read_pieces};
use cilk_cert_text::write::write;
use cilk_lower::code::Code;
use cilk_monoid::fold::fold_pieces;
use cilk_monoid::list::Append;
use cilk_monoid::monoid::Monoid;
use cilk_monoid::view::ListView;
use cilk_schedule::machine::{Machine, play};
use cilk_schedule::naming::ShownEvent;
use cilk_schedule::showing::Shown;
use cilk_scheduler::choice::{Choice, Stop, Told};
use cilk_types::event::Event;
use std::alloc::{AllocError, Global};
use std::process::Abort;

// Certificates of both versions.
const TEXTS: [&[u8]; 3] = [
    b"cilkcert 1\nsize 15 2 6\nframe 1 0 0\nframe 2 1 1\nstrand 1 1 1 0\nstrand 2 2 3 2\nstrand 3 2 4 2\nstrand 4 1 2 4\nstrand 5 1 5 0\nstrand 6 1 6 0\nbegin 1\nwrite 0 0\nwrite 1 0\nspawn 2\nbegin 2\nsync\nwrite 0 1\nend\nresume 1\nread 0 1 7\nwrite 1 1\nsync\nread 1 1 11\nsync\nend\nresult 1\nend\n",
    b"cilkcert 1\nsize 6 0 0\ncreate 1\nupdate 1 -9223372036854775808\nset 1 9223372036854775807\nvalue 1 7\nprint -7\ncall 4294967295\nresult -1\nend\n",
    b"cilkcert 2\nsize 5 0 0\ncreate 1 2\nupdate 1 2 -3\nset 1 2 3\nvalue 1 2 3\nprint 0\nresult 0\nend\n",
];

fn is_written(alloc: Global, certificate: &Certificate, text: &[u8]) -> bool {
    match write(alloc, certificate) {
        Ok(written) => written.as_slice() == text,
        Err(_) => false,
    }
}

fn is_written_again(alloc: Global, text: &[u8]) -> bool {
    match read(alloc, text) {
        Ok(certificate) => is_written(alloc, &certificate, text),
        Err(_) => false,
    }
}

// Reads a text in two pieces, and writes what it read.
fn is_joined_again(alloc: Global, text: &[u8]) -> bool {
    let (front, rest) = text.split_at(text.len().min(5));
    match read_pieces(alloc, &[front, rest]) {
        Ok(certificate) => is_written(alloc, &certificate, text),
        Err(_) => false,
    }
}

#[test]
fn certificates_are_read_and_written(rt: HostRuntime) {
    for text in TEXTS {
        assert!(rt; is_written_again(rt.alloc(), text));
        assert!(rt; is_joined_again(rt.alloc(), text));
    }
}

// Lists, and their product.
const PIECES: [(&[&[i64]], &[i64]); 3] = [
    (&[], &[]),
    (&[&[7]], &[7]),
    (&[&[1], &[], &[2, 3]], &[1, 2, 3]),
];

// The view of these updates.
fn updated(alloc: Global, numbers: &[i64]) -> Result<ListView, AllocError> {
    let mut view = Append::unit(alloc);
    for number in numbers {
        Append::update(alloc, &mut view, *number)?;
    }
    Ok(view)
}

// The views of some lists, a view each.
fn pieces(alloc: Global, lists: &[&[i64]]) -> Result<Vec<ListView>, AllocError> {
    let mut pieces = Vec::new(alloc);
    for numbers in lists {
        pieces.push(updated(alloc, numbers)?)?;
    }
    Ok(pieces)
}

fn is_product(alloc: Global, pieces: Vec<ListView>, numbers: &[i64]) -> bool {
    match fold_pieces::<Append>(alloc, pieces) {
        Ok(product) => product.items.as_slice() == numbers,
        Err(_) => false,
    }
}

#[test]
fn pieces_multiply_in_order(rt: HostRuntime) -> Result<(), AllocError> {
    for (lists, product) in PIECES {
        let pieces = pieces(rt.alloc(), lists)?;
        assert!(rt; is_product(rt.alloc(), pieces, product));
    }
    Ok(())
}

// The three children that print, the last one first: each choice, and how often it is made.
const PRINTS_REVERSED: [(Choice, u32); 10] = [
    (Choice::Run(1), 2),
    (Choice::Steal(2, 0), 1),
    (Choice::Run(2), 2),
    (Choice::Steal(3, 0), 1),
    (Choice::Run(3), 2),
    (Choice::Steal(4, 0), 1),
    (Choice::Run(4), 2),
    (Choice::Run(3), 6),
    (Choice::Run(2), 6),
    (Choice::Run(1), 9),
];

// A list by a `cilk_for` of five turns, the last turn first.
const TURNS_REVERSED: [(Choice, u32); 13] = [
    (Choice::Run(1), 5),
    (Choice::Steal(2, 0), 1),
    (Choice::Run(2), 4),
    (Choice::Steal(3, 0), 1),
    (Choice::Run(3), 4),
    (Choice::Steal(4, 0), 1),
    (Choice::Run(4), 10),
    (Choice::Run(3), 10),
    (Choice::Run(2), 10),
    (Choice::Run(1), 2),
    (Choice::Steal(5, 0), 1),
    (Choice::Run(5), 10),
    (Choice::Run(1), 14),
];

fn choices(alloc: Global, script: &[(Choice, u32)]) -> Result<Vec<Choice>, AllocError> {
    let mut choices = Vec::new(alloc);
    for (choice, count) in script {
        let (choice, count) = (*choice, *count);
        for _ in 0..count {
            choices.push(choice)?;
        }
    }
    Ok(choices)
}

// Whether the second child printed 2.
fn prints_two(shown: &Shown) -> bool {
    matches!(
        shown.events(&[2]),
        Some([
            ShownEvent::Begin,
            _,
            ShownEvent::Read { cell: _, value: 2 },
            ShownEvent::Print { value: 2 },
            ShownEvent::Sync,
            ShownEvent::End,
        ])
    )
}

fn is_in_order(shown: &Shown) -> bool {
    match shown.outcome() {
        Some(outcome) => {
            outcome.output.as_slice() == [1, 2, 3].as_slice()
                && shown.is_joined(&[3])
                && prints_two(shown)
        }
        None => false,
    }
}

fn is_played_in_order(alloc: Global, code: &Code, choices: &[Choice]) -> bool {
    match play(alloc, code, &no_input(alloc), 4, choices) {
        Ok(shown) => is_in_order(&shown),
        Err(_) => false,
    }
}

fn number_of(event: Event) -> Option<i64> {
    match event {
        Event::Update { value, .. } | Event::Print { value } => Some(value),
        _ => None,
    }
}

// The numbers that are printed or put into a reducer, in the order in which these choices do it.
fn numbers(alloc: Global, code: &Code, choices: &[Choice]) -> Result<Vec<i64>, Stop> {
    let input = no_input(alloc);
    let mut machine = Machine::new(alloc, code, &input, 5)?;
    let mut numbers = Vec::new(alloc);
    'choices: for choice in choices {
        if let Told::Did(act) = machine.choose(alloc, *choice)?
            && let Some(number) = number_of(act.event)
            && numbers.push(number).is_err()
        {
            return Err(Stop::Memory);
        }
    }
    Ok(numbers)
}

fn are_made(alloc: Global, code: &Code, choices: &[Choice], wanted: &[i64]) -> bool {
    match numbers(alloc, code, choices) {
        Ok(made) => made.as_slice() == wanted,
        Err(_) => false,
    }
}

#[test]
fn prints_in_reverse(rt: HostRuntime) -> Result<(), AllocError> {
    let choices = choices(rt.alloc(), &PRINTS_REVERSED)?;
    let code = code_of(&rt, rt.alloc(), PRINTS);
    assert!(rt; is_played_in_order(rt.alloc(), &code, choices.as_slice()));
    assert!(rt; are_made(rt.alloc(), &code, choices.as_slice(), &[3, 2, 1]));
    Ok(())
}

#[test]
fn turns_in_reverse(rt: HostRuntime) -> Result<(), AllocError> {
    let choices = choices(rt.alloc(), &TURNS_REVERSED)?;
    let code = code_of(&rt, rt.alloc(), LIST);
    assert!(rt; are_made(rt.alloc(), &code, choices.as_slice(), &[4, 3, 2, 1, 0]));
    Ok(())
}

// The run by rounds of these workers.
fn by_rounds(alloc: Global, code: &Code, workers: u32) -> Result<Shown, Stop>
    requires { 0 < workers }
{
    let input = no_input(alloc);
    let mut machine = Machine::new(alloc, code, &input, workers)?;
    rounds(alloc, &mut machine, workers)?;
    Ok(machine.shown(alloc)?)
}

// Whether the frame at a place has the same name in another run, and its events the same strands.
fn is_named_alike(alloc: Global, one: &Shown, other: &Shown, place: usize) -> bool {
    let Ok(path) = one.path(alloc, place) else {
        return false;
    };
    let path = path.as_slice();
    let Some(elsewhere) = other.place(path) else {
        return false;
    };
    let Some(events) = one.events(path) else {
        return false;
    };
    let are_alike = (0..events.len()).all(|index| one.strand(path, index)
        == other.strand(path, index));
    match other.path(alloc, elsewhere) {
        Ok(name) => are_alike && name.as_slice() == path,
        Err(_) => false,
    }
}

// Whether two runs have the same frames by name, though the second child began at another place in
// each, and the first frame has five strands: its begin, two resumes and two syncs.
fn are_named_alike(alloc: Global, one: &Shown, other: &Shown) -> bool {
    let Some(events) = one.events(&[]) else {
        return false;
    };
    one.frames() == other.frames()
        && one.place(&[2]) != other.place(&[2])
        && one.strand(&[], 0) == Some(1)
        && one.strand(&[], events.len().saturating_sub(1)) == Some(5)
        && one.strand(&[], events.len()).is_none()
        && (0..one.frames()).all(|place| is_named_alike(alloc, one, other, place))
}

fn schedules_name_alike(alloc: Global, code: &Code) -> bool {
    let (Ok(serial), Ok(stolen)) = (by_rounds(alloc, code, 1), by_rounds(alloc, code, 2)) else {
        return false;
    };
    are_named_alike(alloc, &serial, &stolen)
}

#[test]
fn names_by_two_schedules(rt: HostRuntime) {
    let code = code_of(&rt, rt.alloc(), LOCAL);
    assert!(rt; schedules_name_alike(rt.alloc(), &code));
}
