//! Words of the command line, copied by a request.
ghost use Rattle.std.specs.Prelude.{◌≡◌, ◌==◌, IfOk, length, map};

use std::alloc::{AllocError, Global};
use std::marker::Model;

/// A word of the command line, unchanged.
#[derive(Debug)]
pub struct LineWord {
    text: String,
}

// Hand-written: a derived drop is expanded wherever a value is dropped, which slows the proofs.
impl Drop for LineWord {
    fn drop(self) {
        let LineWord { text: _ } = self;
    }
}

impl Model for LineWord {
    ghost use Rattle.std.specs.Prelude.{ℕ, List, string_bytes};

    ghost Value = { List ℕ };

    ghost view = { λ word. string_bytes word.text };
}

impl LineWord {
    /// The word of this text. `AllocError`: memory ran out.
    pub fn new(alloc: Global, text: &str) -> Result<LineWord, AllocError>
        ensures { IfOk result (λ word. word ≡ text.now) }
    {
        let text = String::from_str(alloc, text)?;
        Ok(LineWord { text })
    }

    /// The word's text.
    pub fn as_str(&self) -> &str
        ensures { result.now ≡ self.now }
    {
        self.text.as_str()
    }
}

/// What words of the command line are.
#[derive(Clone, Copy, Debug)]
pub enum WordKind {
    /// Texts themselves.
    Text,
    /// Names of files.
    FileName,
}

/// Words of the command line, in their order.
#[derive(Debug)]
pub struct LineWords {
    words: Vec<LineWord>,
}

impl Drop for LineWords {
    fn drop(self) {
        let LineWords { words: _ } = self;
    }
}

impl Model for LineWords {
    ghost use Rattle.std.specs.Prelude.{ℕ, List};

    ghost Value = { List (List ℕ) };

    ghost view = { λ list. list.words.items };
}

impl LineWords {
    /// These texts, each a word. `AllocError`: memory ran out.
    pub fn of(alloc: Global, texts: &[&str]) -> Result<LineWords, AllocError>
        ensures { IfOk result (λ words. words ≡ map (λ text. text.now) texts.now) }
    {
        let mut words = Vec::new(alloc);
        for text in texts {
            words.push(LineWord::new(alloc, text)?)?;
        }
        Ok(LineWords { words })
    }

    /// Whether there are none.
    pub fn is_empty(&self) -> bool
        ensures { result ≡ (length self.now == 0) }
    {
        self.words.is_empty()
    }

    /// The words, in their order.
    pub fn as_slice(&self) -> &[LineWord]
        ensures { result.now ≡ self.now }
    {
        &self.words
    }
}
