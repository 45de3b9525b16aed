//! Rules that tell what to write, by what stands around a place.
//!
//! A rule is a line `PLACE WORDS | PLACE WORDS => HINT`, whose hint is a text, or the name of one
//! (`sentence`). It fits where at each place stands one of the words, or none of them if they begin
//! with `^`. A place with no words after it is a condition that has to hold; one with `no` after it has
//! not to.

use crate::sentences::sentence;

/// A place of a text that rules ask about.
pub trait Surroundings {
    /// Returns whether one of these words is at a place.
    fn has(&self, place: &str, words: &str) -> bool;
}

/// Returns the hint of the first rule that fits.
pub fn said<'r, S: Surroundings>(site: &S, rules: &'r str) -> Option<&'r str> {
    for rule in rules.lines() {
        if let Some((pattern, hint)) = rule.split_once(" => ")
            && fits(site, pattern)
        {
            return Some(sentence(hint));
        }
    }
    None
}

/// Returns whether all conditions of a rule hold.
pub fn fits<S: Surroundings>(site: &S, pattern: &str) -> bool {
    for condition in pattern.split(" | ") {
        let (place, words) = condition.split_once(' ').unwrap_or((condition, "yes"));
        let is_there = match words.strip_prefix("^ ") {
            Some(others) => !site.has(place, others),
            None => site.has(place, words),
        };
        if !is_there {
            return false;
        }
    }
    true
}
