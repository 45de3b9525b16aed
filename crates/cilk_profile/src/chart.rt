//! Charts as SVG: words, and the marks of scales.

use std::alloc::AllocError;

/// The left end and the width of each chart, and its height. The texts below have them, too.
pub const LEFT: usize = 80;

pub const WIDTH: usize = 680;

pub const HEIGHT: usize = 220;

/// The begin of a picture, up to the file's name. Colours are explicit, so that it is legible on dark pages too.
pub const HEAD: &str =
    "<svg xmlns=\"http://www.w3.org/2000/svg\" viewBox=\"0 0 800 690\" font-family=\"sans-serif\" font-size=\"13\">\n\
    <rect width=\"800\" height=\"690\" fill=\"#ffffff\"/>\n\
    <text x=\"80\" y=\"26\" text-anchor=\"start\" fill=\"#222222\">";

/// The axes of the chart of workers.
pub const WORKERS_AXES: &str = "<path d=\"M80 95 V315 h680\" fill=\"none\" stroke=\"#222222\"/>\n\
    <text x=\"420\" y=\"355\" text-anchor=\"middle\" fill=\"#222222\">workers (P)</text>\n\
    <text x=\"22\" y=\"205\" transform=\"rotate(-90 22 205)\" text-anchor=\"middle\" fill=\"#222222\">speed-up</text>\n";

/// The begins of its curves. Blue and orange are told apart by the colour-blind too.
pub const BOUND: &str = "<path fill=\"none\" stroke=\"#0072b2\" stroke-width=\"2\" d=\"";

pub const ESTIMATE: &str =
    "<path fill=\"none\" stroke=\"#d55e00\" stroke-width=\"2\" stroke-dasharray=\"6 4\" d=\"";

/// What their colours mean.
pub const KEYS: &str =
    "<path fill=\"none\" stroke=\"#0072b2\" stroke-width=\"2\" d=\"M80 68 h30\"/>\n\
    <text x=\"118\" y=\"72\" text-anchor=\"start\" fill=\"#222222\">at most: min(P, parallelism)</text>\n\
    <path fill=\"none\" stroke=\"#d55e00\" stroke-width=\"2\" \
    stroke-dasharray=\"6 4\" d=\"M350 68 h30\"/>\n\
    <text x=\"388\" y=\"72\" text-anchor=\"start\" fill=\"#222222\">\
    low estimate: work / (work / P + 1.7 burdened spans)</text>\n";

/// The words at the chart of steps.
pub const STEPS_WORDS: &str =
    "<text x=\"80\" y=\"390\" text-anchor=\"start\" fill=\"#222222\">events that could be made at the same time (a column shows \
    the most of its steps)</text>\n\
    <text x=\"420\" y=\"680\" text-anchor=\"middle\" fill=\"#222222\">step of the longest chain (the span)</text>\n\
    <text x=\"22\" y=\"530\" transform=\"rotate(-90 22 530)\" text-anchor=\"middle\" fill=\"#222222\">events (logarithmic)</text>\n";

/// The begin and the end of its outline.
pub const OUTLINE: &str = "<path fill=\"#0072b2\" d=\"M80 640";

pub const OUTLINE_END: &str = " H760 V640 Z\"/>\n";

/// Adds a number of hundredths, with a point before two digits unless they are 0.
pub fn push_hundredths(text: &mut String, number: u64) -> Result<(), AllocError> {
    let (whole, rest) = (number / 100, number % 100);
    if rest == 0 {
        write!(text, "{whole}")
    } else {
        write!(text, "{whole}.{rest:02}")
    }
}

/// Adds a mark of the upward scale, in hundredths, with a line across the chart.
pub fn push_level(text: &mut String, y: usize, hundredths: usize) -> Result<(), AllocError> {
    let base = y.saturating_add(4);
    write!(
        text,
        "<path d=\"M80 {y} h680\" stroke=\"#dddddd\"/>\n\
        <text x=\"72\" y=\"{base}\" text-anchor=\"end\" fill=\"#222222\">"
    )?;
    push_hundredths(text, hundredths as u64)?;
    text.push_str("</text>\n")
}

/// Adds a mark of the scale to the right.
pub fn push_column(
    text: &mut String,
    top: usize,
    x: usize,
    number: usize,
) -> Result<(), AllocError> {
    let bottom = top.saturating_add(HEIGHT);
    let base = bottom.saturating_add(20);
    write!(
        text,
        "<path d=\"M{x} {bottom} v5\" stroke=\"#222222\"/>\n\
        <text x=\"{x}\" y=\"{base}\" text-anchor=\"middle\" fill=\"#222222\">{number}</text>\n"
    )
}

/// Adds a file's name without its folders, with what XML or else a string of `dot` can't have as itself.
pub fn push_file(text: &mut String, path: &str, is_xml: bool) -> Result<(), AllocError> {
    for symbol in path.rsplit('/').next().unwrap_or("").chars() {
        let escaped = match symbol {
            '&' if is_xml => "&amp;",
            '<' if is_xml => "&lt;",
            '>' if is_xml => "&gt;",
            '\u{fffe}' | '\u{ffff}' if is_xml => "?",
            '"' if !is_xml => "\\\"",
            '\\' if !is_xml => "\\\\",
            '\0'..='\u{1f}' | '\u{7f}' => "?",
            _ => "",
        };
        text.push_str(escaped)?;
        if escaped.is_empty() {
            text.push(symbol)?;
        }
    }
    Ok(())
}

/// Returns `part` of `whole` on a scale of this length, rounded down and at most its length.
pub fn scaled(part: usize, whole: usize, length: usize) -> usize {
    part.saturating_mul(length)
        .checked_div(whole)
        .unwrap_or(0)
        .min(length)
}
