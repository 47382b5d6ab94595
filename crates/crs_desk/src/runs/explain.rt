//! What a text spells or why it is refused, and all parts in which two texts differ, explained to a person or a program.
ghost use Rattle.std.specs.Prelude.{◌≡◌, ◌++◌, ◌∷◌, [], IfOk};
ghost use Rattle.crs_desk.specs.ExplainOutput.{same_told};

use crate::runs::text::kind_line;
use crate::{Level, Manner, Telling, TextCommand, kind_of_text};
use crs_explain::{
    StepWord, difference_lines, difference_objects, ordered_parts, refusal_object, refusal_text,
};
use crs_text::Refusal;
use crs_value::{Crs, laws};
use std::alloc::{AllocError, Global};

/// `explain` of one text: `accepted KIND` if it spells a CRS, with status 0, else the refusal, explained over some
/// lines, with status 1; as objects of JSON `{"accepted":"KIND"}`, or the refusal in one.
#[derive(Clone, Copy)]
pub struct ExplainText {
    /// Lines or objects.
    pub how: Manner,
}

impl TextCommand for ExplainText {
    ghost use Rattle.crs_desk.specs.ExplainOutput.{IsExplainOutput};

    ghost Output = { λ s text written status. IsExplainOutput s.how text written status };

    fn output(&self, alloc: Global, text: &[u8]) -> Result<(Vec<u8>, u8), AllocError> {
        let how = self.how;
        match kind_of_text(alloc, text)? {
            Ok(kind) => Ok((kind_line(alloc, how, kind)?, 0)),
            Err(refusal) => {
                let told = Told { how, words: &[] };
                Ok((told.refusal(alloc, b"", text, refusal)?, 1))
            }
        }
    }
}

/// What `explain` writes of two texts: `same`, with status 0, if they spell the same CRS; or, with status 1, a line for
/// each part in which they differ, with both values, or `first` or `second` and the refusal of the first text that
/// spells no CRS, explained; as objects of JSON `{"same":true}`, or an object for each part, or the refusal in one.
/// First come the parts whose path has the first of some words, then the parts with the next, and so on, then the
/// others.
#[derive(Clone, Copy)]
pub struct Told<'t> {
    /// Lines or objects.
    pub how: Manner,
    /// The words of paths whose parts come first.
    pub words: &'t [StepWord],
}

impl Telling for Told<'_> {
    ghost use Rattle.crs_desk.specs.ExplainOutput.{TellsRefusalOf, TellsWhetherSame};

    ghost Refused = { λ s which text written status. TellsRefusalOf s.how which text written status };

    ghost Compared = { λ s level a b written status. TellsWhetherSame s.how s.words.now level a b written status };

    fn refusal(
        self,
        alloc: Global,
        which: &[u8],
        text: &[u8],
        refusal: Refusal,
    ) -> Result<Vec<u8>, AllocError> {
        laws::one_answer();
        match self.how {
            Manner::Lines => {
                let told = refusal_text(alloc, text, refusal)?;
                let mut whole = Vec::from_slice(alloc, which)?;
                whole.extend_from_slice(&told)?;
                Ok(whole)
            }
            Manner::Objects => refusal_object(alloc, which, text, refusal),
        }
    }

    fn comparison<'t>(
        self,
        alloc: Global,
        level: Level,
        a: &Crs<'t>,
        b: &Crs<'t>,
    ) -> Result<(Vec<u8>, u8), AllocError> {
        let Some(parts) = ordered_parts(alloc, a, b, level, self.words)? else {
            return Ok((same_line(alloc, self.how)?, 0));
        };
        match self.how {
            Manner::Lines => Ok((difference_lines(alloc, &parts)?, 1)),
            Manner::Objects => Ok((difference_objects(alloc, &parts)?, 1)),
        }
    }
}

pub(crate) fn same_line(alloc: Global, how: Manner) -> Result<Vec<u8>, AllocError>
    ensures { IfOk result (λ line. line.items ≡ same_told how ++ 10 ∷ []) }
{
    match how {
        Manner::Lines => Vec::from_slice(alloc, b"same\n"),
        Manner::Objects => Vec::from_slice(alloc, b"{\"same\":true}\n"),
    }
}
