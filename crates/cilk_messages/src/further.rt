//! What else a text has that the language has no form for, after the hint for its first fault.

use crate::certain::{Look, form_at, own_words};
use crate::cleaned::cleaned;
use crate::gone::end_of_gone;
use crate::kinds::is_foreign;
use crate::place::{between, line_at, locate};
use crate::rules::fits;
use crate::sentence::{Part, push_said};
use crate::sentences::sentence;
use crate::site::Site;
use crate::tokens::Tokens;
use std::alloc::{AllocError, Global};

// The most forms that are kept, and the most lines that are shown.
const KEPT: usize = 64;

const SHOWN: usize = 20;

/// A form of other languages, where it stands first.
#[derive(Clone, Copy)]
struct Form {
    at: usize,
    length: usize,
    hint: &'static str,
    // How many more there are.
    more: usize,
}

// After each text, and with no hint.
const NO_FORM: Form = Form {
    at: usize::MAX,
    length: 0,
    hint: "",
    more: 0,
};

/// The first fault of a text, whose hint isn't repeated.
#[derive(Clone, Copy)]
pub struct Told<'h> {
    pub at: usize,
    pub hint: &'h str,
}

/// The forms of other languages in a text.
#[derive(Drop)]
pub struct Further<'a, 'h> {
    text: &'a [u8],
    told: Told<'h>,
    // The bytes of the line of the first fault.
    from: usize,
    upto: usize,
    forms: [Form; KEPT],
}

impl<'a, 'h> Further<'a, 'h> {
    fn new(text: &'a [u8], told: Told<'h>) -> Further<'a, 'h> {
        let (line, from) = line_at(text, told.at);
        Further {
            text,
            told,
            from,
            upto: from.saturating_add(line.len()),
            forms: [NO_FORM; KEPT],
        }
    }

    /// Notes a form. Words with one hint are told apart if `by_word`.
    pub fn note(&mut self, at: usize, length: usize, hint: &'static str, by_word: bool) {
        let is_on_line = at >= self.from && at <= self.upto;
        if at == self.told.at || (is_on_line && hint == self.told.hint) {
            return;
        }
        let word = between(self.text, at, at.saturating_add(length));
        for place in 0..KEPT {
            let form = self.forms[place];
            let end = form.at.saturating_add(form.length);
            if form.hint.is_empty() {
                self.forms[place] = Form {
                    at,
                    length,
                    hint,
                    more: 0,
                };
                return;
            }
            if form.hint == hint && (!by_word || between(self.text, form.at, end) == word) {
                self.forms[place].more = form.more.saturating_add(1);
                return;
            }
        }
    }

    // Forgets the forms that stand in a part of the text alone. The others keep their order.
    fn forget(&mut self, from: usize, upto: usize) {
        let mut kept: usize = 0;
        for place in 0..KEPT {
            let form = self.forms[place];
            self.forms[place] = NO_FORM;
            if !(form.at > from && form.at < upto && form.more == 0) && kept <= place {
                self.forms[kept] = form;
                kept = kept.saturating_add(1);
            }
        }
    }

    // The first form from a place on, with this hint or, if that is empty, with any.
    fn first(&self, from: usize, hint: &str) -> Form {
        let mut first = NO_FORM;
        for place in 0..KEPT {
            let form = self.forms[place];
            if form.at >= from && form.at < first.at && (hint.is_empty() || form.hint == hint) {
                first = form;
            }
        }
        first
    }

    fn push_form(&self, alloc: Global, report: &mut String, form: &Form) -> Result<(), AllocError> {
        let line = locate(self.text, form.at).line;
        let word = between(self.text, form.at, form.at.saturating_add(form.length));
        let words = if form.more > 0 {
            "also line {}: `{}` (and {} more): "
        } else {
            "also line {}: `{}`: "
        };
        let head = [Part::Count(line), Part::Word(word), Part::Count(form.more)];
        push_said(alloc, report, words, &head)?;
        let told = if form.hint == self.told.hint {
            self.told.at
        } else {
            self.first(0, form.hint).at
        };
        if told == form.at {
            push_said(alloc, report, "{}\n", &[Part::Text(form.hint)])
        } else {
            let earlier = Part::Count(locate(self.text, told).line);
            push_said(alloc, report, "as at line {}\n", &[earlier])
        }
    }

    fn push(&self, alloc: Global, report: &mut String) -> Result<(), AllocError> {
        let mut from: usize = 0;
        for _line in 0..SHOWN {
            let form = self.first(from, "");
            if form.hint.is_empty() {
                return Ok(());
            }
            self.push_form(alloc, report, &form)?;
            from = form.at.saturating_add(1);
        }
        if self.first(from, "").hint.is_empty() {
            return Ok(());
        }
        report.push_str("and more: mend these first, then call again\n")
    }
}

/// Adds a line for each form of other languages in a text, at the first place of each.
pub fn push_further(
    alloc: Global,
    report: &mut String,
    text: &[u8],
    told: Told<'_>,
) -> Result<(), AllocError> {
    let mut further = Further::new(text, told);
    find(alloc, text, &mut further)?;
    further.push(alloc, report)
}

// The most tokens that are looked at: some looks go back to the first token of a text.
const LOOKED_AT: usize = 20_000;

// Notes the forms of a text. In a text of C++ `<<` and `>>` may be those of a stream.
fn find(alloc: Global, text: &[u8], further: &mut Further<'_, '_>) -> Result<(), AllocError> {
    let rest = cleaned(alloc, text, further)?;
    let tokens = Tokens::new(alloc, rest.as_slice())?;
    let own = own_words(alloc, &tokens)?;
    look_over(&tokens, own.as_slice(), further, is_foreign(text));
    Ok(())
}

// Notes the forms among the tokens, by the names that the text declares.
fn look_over<'a>(
    tokens: &Tokens<'a>,
    own: &[&'a [u8]],
    further: &mut Further<'_, '_>,
    is_foreign: bool,
) {
    let mut look = Look {
        is_word: false,
        upto: 0,
    };
    let mut gone: usize = 0;
    for number in 0..tokens.count().min(LOOKED_AT) {
        if number < gone {
            continue;
        }
        let (place, length) = (tokens.place(number), tokens.word(number).len());
        if let Some(end) = end_of_gone(tokens, number) {
            further.forget(place, tokens.place(end));
            further.note(place, length, sentence("GONE"), false);
            gone = end;
            continue;
        }
        let site = Site {
            tokens,
            number,
            own,
        };
        if let Some(hint) = form_at(&site, &mut look)
            && !(is_foreign && fits(&site, "0 < >"))
        {
            further.note(place, length, hint, look.is_word);
        }
    }
}
