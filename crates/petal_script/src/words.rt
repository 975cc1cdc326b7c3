//! The words of a line.

ghost use Rattle.std.specs.Prelude.{length, ◌≤◌, ◌==◌, ◌≡◌, ◌∷◌, [], List, ℕ, MatchOption};
ghost use Rattle.std.specs.List.{prefix_len, position_or_len};
ghost use Rattle.petal_script.specs.Text.{words_of, is_blank};
ghost use Rattle.petal_script.specs.Words.{Gives, front_word, no_word, one_word, two_words, three_words, four_words};

use crate::cause::Cause;
use std::marker::Model;

/// The words of a line that are left. Contracts see their list.
#[derive(Drop)]
pub struct Words<'a> {
    rest: &'a [u8],
}

impl<'a> Model for Words<'a> {
    ghost Value = { List (List ℕ) };

    ghost view = { λ w. words_of w.rest.now };

    ghost invariant = { λ w. prefix_len is_blank w.rest.now ≡ 0 };
}

impl<'a> Words<'a> {
    /// The words of a line.
    pub fn of(line: &'a [u8]) -> Words<'a>
        ensures { result ≡ words_of line.now }
    {
        Words {
            rest: trimmed(line),
        }
    }

    /// The next word, where one is left.
    pub fn next(&mut self) -> Option<&'a [u8]>
        ensures { MatchOption result ((self.old ≡ []) × (self.new ≡ [])) (λ word. self.old ≡ word.now ∷ self.new) }
    {
        let (word, rest) = first_word(self.rest)?;
        self.rest = trimmed(rest);
        Some(word)
    }

    /// Whether no word is left.
    #[tactic(auto, using(crate::proofs::Kept::empty_words))]
    pub fn is_empty(&self) -> bool
        ensures { result ≡ (length self.now == 0) }
    {
        self.rest.is_empty()
    }

    /// The next word, which the line has to have.
    pub fn front(&mut self) -> Result<&'a [u8], Cause>
        ensures { Gives (λ word. (word.now, self.new)) result (front_word self.old) }
    {
        self.next().ok_or(Cause::BadLine)
    }

    /// No word is left.
    pub fn none(&mut self) -> Result<(), Cause>
        ensures { Gives (λ _. []) result (no_word self.old) }
    {
        match self.next() {
            None => Ok(()),
            Some(_) => Err(Cause::BadLine),
        }
    }

    /// The only word that is left.
    #[tactic(auto, unfolding(crate::specs::Words::one_word))]
    pub fn one(&mut self) -> Result<&'a [u8], Cause>
        ensures { Gives (λ word. word.now) result (one_word self.old) }
    {
        let a = self.front()?;
        self.none()?;
        Ok(a)
    }

    /// The only two words that are left.
    #[tactic(auto, unfolding(crate::specs::Words::two_words))]
    pub fn two(&mut self) -> Result<(&'a [u8], &'a [u8]), Cause>
        ensures { Gives (λ words. (words.0.now, words.1.now)) result (two_words self.old) }
    {
        let a = self.front()?;
        let b = self.one()?;
        Ok((a, b))
    }

    /// The only three words that are left.
    #[tactic(auto, unfolding(crate::specs::Words::three_words))]
    pub fn three(&mut self) -> Result<(&'a [u8], &'a [u8], &'a [u8]), Cause>
        ensures { Gives (λ words. (words.0.now, words.1.now, words.2.now)) result (three_words self.old) }
    {
        let a = self.front()?;
        let (b, c) = self.two()?;
        Ok((a, b, c))
    }

    /// The only four words that are left.
    #[tactic(auto, unfolding(crate::specs::Words::four_words))]
    pub fn four(&mut self) -> Result<(&'a [u8], &'a [u8], &'a [u8], &'a [u8]), Cause>
        ensures { Gives (λ words. (words.0.now, words.1.now, words.2.now, words.3.now)) result (four_words self.old) }
    {
        let a = self.front()?;
        let (b, c, d) = self.three()?;
        Ok((a, b, c, d))
    }
}

/// The text after the blanks that it begins with.
#[tactic(auto, using(crate::proofs::WordList::words_trimmed, crate::proofs::WordList::none_trimmed))]
fn trimmed(text: &[u8]) -> &[u8]
    ensures words { words_of result.now ≡ words_of text.now }
    ensures none { prefix_len is_blank result.now ≡ 0 }
{
    let (_, rest) = text.split_at(blanks(text));
    rest
}

/// The word at the front of a text that begins with no blank, and the rest.
#[tactic(auto, using(crate::proofs::WordList::first_of_words))]
fn first_word(text: &[u8]) -> Option<(&[u8], &[u8])>
    requires { prefix_len is_blank text.now ≡ 0 }
    ensures { MatchOption result (words_of text.now ≡ []) (λ parts. words_of text.now ≡ parts.0.now ∷ words_of parts.1.now) }
{
    if text.is_empty() {
        return None;
    }
    Some(text.split_at(word_len(text)))
}

fn is_blank(b: u8) -> bool
    ensures { result ≡ is_blank b }
{
    b == b' ' || b == b'\t'
}

#[tactic(auto, using(crate::proofs::Kept::prefix_lens))]
fn blanks(text: &[u8]) -> usize
    ensures value { result ≡ prefix_len is_blank text.now }
    ensures bound { result ≤ length text.now }
{
    text.iter().take_while(|b| is_blank(**b)).count()
}

#[tactic(auto, using(crate::proofs::Kept::prefix_lens))]
fn word_len(text: &[u8]) -> usize
    ensures value { result ≡ position_or_len is_blank text.now }
    ensures bound { result ≤ length text.now }
{
    text.iter().take_while(|b| !is_blank(**b)).count()
}
