//! The rows of `measure` by function and loop.

use crate::drawing::ended;
use crate::shares::{Share, find_shares};
use crate::totals::Totals;
use cilk_findings::case::Case;
use cilk_findings::fault::CaseFault;
use cilk_findings::scene::Scene;
use cilk_messages::place::{Location, locate};
use cilk_messages::sentence::{Part, Sentence, say};
use cilk_program::program::Body;
use std::alloc::AllocError;

// The heads of the columns of numbers.
const HEADINGS: [&str; 5] = ["frames", "strands", "events", "work", "span"];

/// A table of a run: with columns, or with commas.
#[derive(Clone, Copy)]
pub struct Table<'a> {
    pub scene: Scene<'a>,
    pub commas: bool,
}

/// Adds what a case's run costs besides its totals: a line for each function and loop, after an empty
/// line and a head. The columns are the number of its frames, the strands and events that these
/// frames make themselves, the work from their begin to their end, and the largest span of one frame.
/// Then tables of the spawns and lines on the critical path, and of the speed-up by several workers.
/// Returns the ticks of the run. It has to end without a fault; otherwise the error is
/// [`CaseFault::Unfit`].
pub fn push_tables(
    text: &mut String,
    case: &Case<'_>,
    totals: &Totals,
    commas: bool,
) -> Result<u64, CaseFault> {
    let run = ended(case)?;
    let scene = Scene { case, run: &run };
    Table { scene, commas }.push(totals, text)?;
    Ok(u64::from(run.replay.ticks))
}

impl Table<'_> {
    fn push(&self, totals: &Totals, text: &mut String) -> Result<(), AllocError> {
        self.push_rows(text)?;
        self.push_critical(text)?;
        self.push_speed_ups(totals, text)
    }

    // The functions and loops that ran: functions first, each in the text's order.
    fn push_rows(&self, text: &mut String) -> Result<(), AllocError> {
        let mut shares = Vec::new(self.scene.case.alloc);
        self.push_shares(text, &mut shares)
    }

    fn push_shares(&self, text: &mut String, shares: &mut Vec<Share>) -> Result<(), AllocError> {
        find_shares(&self.scene, shares)?;
        let mut width: usize = 4;
        let mut number: usize = 0;
        for share in shares.as_slice() {
            if share.frames > 0 {
                width = width.max(self.length_of(&title_of(&self.scene, number))?);
            }
            number = number.saturating_add(1);
        }
        text.push('\n')?;
        push_cells(text, "body", &HEADINGS, width, self.commas)?;
        number = 0;
        for share in shares.as_slice() {
            if share.frames > 0 {
                let Share {
                    frames,
                    strands,
                    events,
                    work,
                    span,
                    ..
                } = *share;
                let numbers = [frames, strands, events, work, span];
                self.push_title(text, &title_of(&self.scene, number), width, &numbers)?;
                text.push('\n')?;
            }
            number = number.saturating_add(1);
        }
        Ok(())
    }

    /// Returns the length of a title.
    pub fn length_of(&self, title: &Sentence<'_>) -> Result<usize, AllocError> {
        let mut text = String::new(self.scene.case.alloc);
        self.scene.push(&mut text, title)?;
        Ok(text.len())
    }

    /// Adds the first cell of a line, in a column of this width, and cells with these numbers.
    pub fn push_title(
        &self,
        text: &mut String,
        title: &Sentence<'_>,
        width: usize,
        numbers: &[u64],
    ) -> Result<(), AllocError> {
        let end = text.len().saturating_add(width);
        self.scene.push(text, title)?;
        if !self.commas {
            push_blanks(text, end.saturating_sub(text.len()))?;
        }
        for number in numbers {
            if self.commas {
                write!(text, ",{number}")?;
            } else {
                write!(text, " {number:>9}")?;
            }
        }
        Ok(())
    }
}

/// Adds a line of a table: a name, in a column of this width, and cells.
pub fn push_cells(
    text: &mut String,
    name: &str,
    cells: &[&str],
    width: usize,
    commas: bool,
) -> Result<(), AllocError> {
    text.push_str(name)?;
    if !commas {
        push_blanks(text, width.saturating_sub(name.len()))?;
    }
    for cell in cells {
        if commas {
            text.push(',')?;
        } else {
            push_blanks(text, 9_usize.saturating_sub(cell.len()).saturating_add(1))?;
        }
        text.push_str(cell)?;
    }
    text.push('\n')
}

fn push_blanks(text: &mut String, count: usize) -> Result<(), AllocError> {
    for _blank in 0..count {
        text.push(' ')?;
    }
    Ok(())
}

// The name of the function at a place, or `cilk_for` with where it stands.
fn title_of<'a>(scene: &Scene<'a>, place: usize) -> Sentence<'a> {
    let Some(number) = place.checked_sub(scene.case.map.functions.len()) else {
        let function = Body::Function(u32::try_from(place).unwrap_or(0));
        return say("{}").word(scene.body_name(function));
    };
    let body = Body::Loop(u32::try_from(number).unwrap_or(0));
    title_at(scene, body, scene.named_at(body))
}

/// Returns the name of a body with a place.
pub fn title_at<'a>(scene: &Scene<'a>, body: Body, at: usize) -> Sentence<'a> {
    let Location { line, column } = locate(scene.case.text, at);
    let name = say("{} at {}:{}").word(scene.body_name(body));
    name.count(line).count(column)
}

/// Adds words for one number, or those for a number and a greater one.
pub fn push_range(
    text: &mut String,
    scene: &Scene<'_>,
    words: (&str, &str),
    from: usize,
    upto: usize,
) -> Result<(), AllocError> {
    let words = if from == upto { words.0 } else { words.1 };
    scene.push(text, &say(words).count(from).count(upto))
}

/// Adds what the frames of two events run.
pub fn push_runners(
    text: &mut String,
    scene: &Scene<'_>,
    first: usize,
    last: usize,
) -> Result<(), AllocError> {
    let from = scene.frame_of(first).unwrap_or(0);
    let upto = scene.frame_of(last).unwrap_or(0);
    push_runner(text, scene, from)?;
    if from == upto {
        return Ok(());
    }
    text.push_str(" .. ")?;
    push_runner(text, scene, upto)
}

/// Adds what a frame runs: a call with its arguments, or turns by the loop's variable.
pub fn push_runner(text: &mut String, scene: &Scene<'_>, frame: usize) -> Result<(), AllocError> {
    if !scene.is_of_loop(frame) {
        return scene.push_frame(text, frame);
    }
    let note = scene.note(frame);
    let words = if scene.halves(frame) {
        "turns `{}` = {} to {}"
    } else {
        "turn `{}` = {}"
    };
    let turns = say(words).word(scene.turn_variable(note.body));
    let last = note.high.saturating_sub(1);
    scene.push(
        text,
        &turns.with(Part::Number(note.low)).with(Part::Number(last)),
    )
}
