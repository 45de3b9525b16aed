//! The tokens of a text, and the declarations of its names.
//!
//! The results are right for texts that parse. For others they are a best guess.

use crate::place::between;
use cilk_syntax::lexer::{LexFault, lex};
use cilk_syntax::token::{Kind, Token};
use std::alloc::{AllocError, Global};

/// The tokens of a text, in order. A text with a lexical error has none.
#[derive(Drop)]
pub struct Tokens<'a> {
    pub text: &'a [u8],
    tokens: Vec<Token>,
}

/// The kind that a name is declared as.
#[derive(Clone, Copy)]
pub enum Declared {
    Variable,
    Array,
    Reducer,
    /// A function, with its number of parameters.
    Function { has_result: bool, parameters: usize },
}

impl<'a> Tokens<'a> {
    /// Reads the tokens of a text.
    pub fn new(alloc: Global, text: &'a [u8]) -> Result<Tokens<'a>, AllocError> {
        let tokens = match lex(alloc, text) {
            Ok(tokens) => tokens,
            Err(LexFault::Memory) => return Err(AllocError),
            Err(LexFault::At(_, _)) => Vec::new(alloc),
        };
        Ok(Tokens { text, tokens })
    }

    /// Returns the number of tokens.
    pub fn count(&self) -> usize {
        self.tokens.len()
    }

    /// Returns the kind of the token with this number, from 0.
    pub fn kind(&self, number: usize) -> Option<Kind> {
        match self.tokens.get(number) {
            Some(token) => Some(token.kind),
            None => None,
        }
    }

    /// Returns the bytes of a token, empty if there is no such token.
    pub fn word(&self, number: usize) -> &'a [u8] {
        match self.tokens.get(number) {
            Some(token) => between(self.text, token.at, token.end),
            None => &[],
        }
    }

    /// Returns where a token begins, or the end of the text if there is no such token.
    pub fn place(&self, number: usize) -> usize {
        match self.tokens.get(number) {
            Some(token) => token.at,
            None => self.text.len(),
        }
    }

    /// Returns the number of the first token that begins at a place or after it.
    pub fn number_at(&self, place: usize) -> usize {
        for number in 0..self.tokens.len() {
            if self.tokens[number].at >= place {
                return number;
            }
        }
        self.tokens.len()
    }

    /// Returns the kind of the token after this one.
    pub fn kind_behind(&self, number: usize) -> Option<Kind> {
        self.kind(number.saturating_add(1))
    }

    /// Returns the kind of the token `back` tokens before this one.
    pub fn kind_back(&self, number: usize, back: usize) -> Option<Kind> {
        match number.checked_sub(back) {
            Some(earlier) => self.kind(earlier),
            None => None,
        }
    }

    /// Returns the bytes of the token `back` tokens before this one, empty if there is none.
    pub fn word_back(&self, number: usize, back: usize) -> &'a [u8] {
        match number.checked_sub(back) {
            Some(earlier) => self.word(earlier),
            None => &[],
        }
    }

    /// Returns the kind that this token declares, if it is a name in its declaration.
    pub fn declared(&self, number: usize) -> Option<Declared> {
        if !matches!(self.kind(number), Some(Kind::Name)) {
            return None;
        }
        match self.kind_back(number, 1) {
            Some(Kind::Int) => Some(self.declared_as(number, true)),
            Some(Kind::Void) => Some(self.declared_as(number, false)),
            Some(Kind::Comma) if self.continues_declaration(number) => {
                Some(self.declared_as(number, true))
            }
            Some(Kind::Close) if matches!(self.kind_back(number, 4), Some(Kind::CilkReducer)) => {
                Some(Declared::Reducer)
            }
            _ => None,
        }
    }

    /// Returns the name of the first function `main`, in its declaration.
    pub fn main(&self) -> Option<usize> {
        match self.function_behind(0, b"main") {
            Some((named, _)) => Some(named),
            None => None,
        }
    }

    // The kind that a name is declared as, by the token after it.
    fn declared_as(&self, number: usize, has_result: bool) -> Declared {
        match self.kind_behind(number) {
            Some(Kind::Open) => Declared::Function {
                has_result,
                parameters: self.parts_behind(number),
            },
            Some(Kind::OpenBracket) => Declared::Array,
            _ => Declared::Variable,
        }
    }

    // Whether the comma before a name continues a declaration of variables.
    fn continues_declaration(&self, number: usize) -> bool {
        let mut depth: usize = 0;
        for back in 1..number {
            match self.kind_back(number, back) {
                Some(Kind::Close | Kind::CloseBracket) => depth = depth.saturating_add(1),
                Some(Kind::Open | Kind::OpenBracket) if depth == 0 => return false,
                Some(Kind::Open | Kind::OpenBracket) => depth = depth.saturating_sub(1),
                Some(Kind::Semicolon | Kind::OpenBrace | Kind::CloseBrace) => {
                    let first = self.kind_back(number, back - 1);
                    return matches!(first, Some(Kind::Int));
                }
                _ => {}
            }
        }
        matches!(self.kind(0), Some(Kind::Int))
    }

    /// Returns the number of parts, separated by commas, in the parentheses after a token.
    pub fn parts_behind(&self, number: usize) -> usize {
        let first = number.saturating_add(2);
        let mut depth: usize = 0;
        let mut parts: usize = 1;
        for place in first..self.count() {
            match self.kind(place) {
                Some(Kind::Close) if depth == 0 => {
                    let is_void = matches!(self.kind(first), Some(Kind::Void));
                    let is_empty = first == place || first.saturating_add(1) == place && is_void;
                    return if is_empty { 0 } else { parts };
                }
                Some(Kind::Comma) if depth == 0 => parts = parts.saturating_add(1),
                Some(Kind::Open | Kind::OpenBracket) => depth = depth.saturating_add(1),
                Some(Kind::Close | Kind::CloseBracket) => depth = depth.saturating_sub(1),
                _ => {}
            }
        }
        parts
    }

    /// Returns the declaration of a token's name: the last one before it whose block isn't closed
    /// yet, or a function after it.
    pub fn declaration_of(&self, number: usize) -> Option<(usize, Declared)> {
        let name = self.word(number);
        let mut closed: usize = 0;
        for back in 1..number.saturating_add(1) {
            let earlier = number - back;
            match self.kind(earlier) {
                Some(Kind::CloseBrace) => closed = closed.saturating_add(1),
                Some(Kind::OpenBrace) => closed = closed.saturating_sub(1),
                _ => {}
            }
            if closed == 0 {
                if let Some(declared) = self.declared_by_name(earlier, name) {
                    return Some((earlier, declared));
                }
            }
        }
        self.function_behind(number, name)
    }

    /// Returns the first declaration of a name.
    pub fn first_declared(&self, name: &[u8]) -> Option<usize> {
        for number in 0..self.count() {
            if self.declared_by_name(number, name).is_some() {
                return Some(number);
            }
        }
        None
    }

    // The kind that this token declares, if it has this name.
    fn declared_by_name(&self, number: usize, name: &[u8]) -> Option<Declared> {
        if self.word(number) == name {
            self.declared(number)
        } else {
            None
        }
    }

    // A function that is declared after a token.
    fn function_behind(&self, number: usize, name: &[u8]) -> Option<(usize, Declared)> {
        for later in number..self.count() {
            if let Some(declared) = self.declared_by_name(later, name) {
                if matches!(declared, Declared::Function { .. }) {
                    return Some((later, declared));
                }
            }
        }
        None
    }
}
