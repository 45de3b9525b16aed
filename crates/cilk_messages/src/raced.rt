//! The race of a trace, in words: the lines that access the same, and the call between them.

use crate::sentence::{Part, push_said};
use crate::table::Sites;
use std::alloc::{AllocError, Global};

const NO_TABLE: &str =
    "hint: `--sites FILE` gives the file, line and function of each site; a program made by `cilkrec` writes this FILE too, if it records with CILK_SITES=FILE\n";

const APART: &str =
    "hint: put a `cilk_sync` between the spawn and the later access; where both are in turns of one `cilk_for`, \
    or have to run in parallel, give each memory of its own, or let a reducer take what they add up\n";

const VIEWED: &str =
    "reason: not the same strands run in parallel to both, so the schedule decides which updates the view has\n\
    hint: set a reducer and read it before the first spawn, or after the `cilk_sync`\n";

/// A line of a trace: its number and site, the path of its frame, and its deed in words.
#[derive(Clone, Copy)]
pub struct Access<'a> {
    pub number: u32,
    pub site: u32,
    pub frame: &'a str,
    pub deed: &'a str,
}

/// A call, from its `enter` to its `spawned` or `called`.
#[derive(Clone, Copy)]
pub struct CallLines {
    pub site: u32,
    pub first: u32,
    pub last: u32,
}

/// Two accesses that race, the call that is parted from what follows its spawn, which makes the
/// earlier one, and what the table of sites says.
#[derive(Clone, Copy)]
pub struct Raced<'a> {
    pub trace: &'a str,
    /// The file of the table.
    pub table: Option<&'a str>,
    /// Whether there is a table that can't be read.
    pub lacks: bool,
    pub sites: &'a Sites,
    /// Whether the race is a view-read race.
    pub is_of_view: bool,
    pub first: Access<'a>,
    pub second: Access<'a>,
    pub parted: Option<CallLines>,
}

impl Raced<'_> {
    /// Adds the explanation.
    pub fn push(&self, alloc: Global, text: &mut String) -> Result<(), AllocError> {
        let (title, end) = if self.is_of_view {
            (": error 312: a view-read race: ", VIEWED)
        } else {
            (": error 311: a determinacy race: ", APART)
        };
        (&*self).push_line(alloc, text, title, &self.second)?;
        (&*self).push_line(
            alloc,
            text,
            ": note: earlier in the serial run ",
            &self.first,
        )?;
        (&*self).push_places(alloc, text)?;
        text.push_str(end)?;
        push_said(
            alloc,
            text,
            self.hint(),
            &[Part::Text(self.table.unwrap_or(""))],
        )
    }

    // What the table of sites lacks.
    fn hint(&self) -> &'static str {
        match self.table {
            None => NO_TABLE,
            Some(_) if self.lacks => "hint: the table of sites `{}` can't be read\n",
            Some(_) if self.sites.is_empty() =>
                "hint: the table of sites `{}` has none of these sites: is it this trace's, of the same run?\n",
            Some(_) => "",
        }
    }

    // Adds where in the trace the accesses are. For a determinacy race the call comes first that is
    // spawned before the later one.
    fn push_places(&self, alloc: Global, text: &mut String) -> Result<(), AllocError> {
        let p = Part::Count(self.first.number as usize);
        let q = Part::Count(self.second.number as usize);
        let (one, other) = (Part::Text(self.first.frame), Part::Text(self.second.frame));
        match self.parted {
            Some(CallLines { site, first, last }) if !self.is_of_view => {
                let call = Access {
                    number: first,
                    site,
                    frame: "",
                    deed: "the call or turn with the earlier access is spawned",
                };
                (&*self).push_line(alloc, text, ": note: ", &call)?;
                let (first, last) = (Part::Count(first as usize), Part::Count(last as usize));
                push_said(
                    alloc,
                    text,
                    PLACES_AND_CALL,
                    &[p, one, q, other, first, last],
                )
            }
            _ => push_said(alloc, text, PLACES, &[p, one, q, other]),
        }
    }

    // Adds a line: the place of a site in the source, or that of a line in the trace, and the deed.
    fn push_line<'x>(
        &'x self,
        alloc: Global,
        text: &mut String,
        title: &'x str,
        line: &'x Access<'x>,
    ) -> Result<(), AllocError> {
        let (title, deed) = (Part::Text(title), Part::Text(line.deed));
        match self.sites.of(line.site) {
            Some((place, function)) => {
                let parts = [Part::Text(place), title, deed, Part::Text(function)];
                push_said(alloc, text, "{}{}{} here, in `{}`\n", &parts)
            }
            None => {
                let (trace, number) = (Part::Text(self.trace), Part::Count(line.number as usize));
                let parts = [trace, number, title, deed, Part::Count(line.site as usize)];
                push_said(alloc, text, "{}:{}:1{}{} here, at site {}\n", &parts)
            }
        }
    }
}

// Where in the trace the accesses are, and the call.
const PLACES: &str =
    "in the trace: the earlier one is trace line {}, in frame {}, the later one trace line {}, in frame {}\n";

const PLACES_AND_CALL: &str =
    "in the trace: the earlier one is trace line {}, in frame {}, the later one trace line {}, in frame {}; \
    the call is from trace line {} to trace line {}\n";
