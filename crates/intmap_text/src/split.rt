//! A text as lines, and a line as words.
ghost use Rattle.std.specs.Prelude.{◌≡◌, ◌∷◌, [], List, IfSome, IfNone, ◌==◌};
ghost use Rattle.std.specs.Iterator.{YieldsFirstRef, item_count};
ghost use Rattle.std.specs.List.{prefix_len, position_or_len};
ghost use Rattle.intmap_text.specs.Lines.{lines_in, words_in, words_of};

use memchr::memchr;
use std::marker::Model;

/// The lines that are left of a text. A byte 10 ends each line except the last.
#[derive(Drop)]
pub struct Lines<'a> {
    rest: Option<&'a [u8]>,
}

impl<'a> Model for Lines<'a> {
    ghost use Rattle.std.specs.Prelude.{ℕ, List};
    ghost use Rattle.intmap_text.specs.Lines.{lines_left};

    ghost Value = { List (List ℕ) };

    ghost view = { λ lines. lines_left lines.rest };
}

impl<'a> Lines<'a> {
    /// The lines of a text.
    pub fn new(text: &'a [u8]) -> Lines<'a>
        ensures { result ≡ lines_in text.now }
    {
        Lines { rest: Some(text) }
    }
}

impl<'a> Iterator for Lines<'a> {
    type Item = &'a [u8];

    ghost next_gives = { YieldsFirstRef (λ lines. lines) };

    ghost remaining = { item_count (λ lines. lines) };

    fn next(&mut self) -> Option<&'a [u8]> {
        let (line, rest) = first_line(self.rest?);
        self.rest = rest;
        Some(line)
    }
}

/// The first line of a text, and what follows it if a byte 10 ends it.
fn first_line(text: &[u8]) -> (&[u8], Option<&[u8]>)
    ensures ended { IfSome result.1 (λ rest. lines_in text.now ≡ result.0.now ∷ lines_in rest.now) }
    ensures last { IfNone result.1 (lines_in text.now ≡ result.0.now ∷ []) }
{
    let (line, rest) = text.split_at(line_len(text));
    match rest {
        [_, more @ ..] => (line, Some(more)),
        [] => (line, None),
    }
}

/// The number of bytes before the first byte 10.
fn line_len(text: &[u8]) -> usize
    ensures { result ≡ position_or_len (λ b. b == 10) text.now }
{
    memchr(b'\n', text).unwrap_or(text.len())
}

/// The words that are left of a line.
#[derive(Drop)]
pub struct Words<'a> {
    rest: &'a [u8],
}

impl<'a> Model for Words<'a> {
    ghost use Rattle.std.specs.Prelude.{ℕ, List};
    ghost use Rattle.intmap_text.specs.Lines.{words_in};

    ghost Value = { List (List ℕ) };

    ghost view = { λ words. words_in words.rest.now };
}

impl<'a> Words<'a> {
    /// The words of a line. If the line ends with a byte 13, that byte is part of no word.
    pub fn new(line: &'a [u8]) -> Words<'a>
        ensures { result ≡ words_of line.now }
    {
        match line {
            [front @ .., b'\r'] => Words { rest: front },
            _ => Words { rest: line },
        }
    }
}

impl<'a> Iterator for Words<'a> {
    type Item = &'a [u8];

    ghost next_gives = { YieldsFirstRef (λ words. words) };

    ghost remaining = { item_count (λ words. words) };

    fn next(&mut self) -> Option<&'a [u8]> {
        let (word, rest) = first_word(self.rest)?;
        self.rest = rest;
        Some(word)
    }
}

/// The first word of a text, and what follows it.
fn first_word(text: &[u8]) -> Option<(&[u8], &[u8])>
    ensures some { IfSome result (λ p. words_in text.now ≡ p.0.now ∷ words_in p.1.now) }
    ensures none { IfNone result (words_in text.now ≡ []) }
{
    let (_, rest) = text.split_at(space_count(text));
    let (word, rest) = rest.split_at(letter_count(rest));
    if word.is_empty() {
        None
    } else {
        Some((word, rest))
    }
}

/// The number of spaces at the front.
fn space_count(text: &[u8]) -> usize
    ensures { result ≡ prefix_len (λ b. b == 32) text.now }
{
    text.iter().take_while(|byte| **byte == b' ').count()
}

/// The number of bytes before the first space.
fn letter_count(text: &[u8]) -> usize
    ensures { result ≡ position_or_len (λ b. b == 32) text.now }
{
    text.iter().take_while(|byte| **byte != b' ').count()
}
