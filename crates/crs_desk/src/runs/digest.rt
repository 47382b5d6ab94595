//! The short key of a text: the digest of the bytes by which the text is known.
ghost use Rattle.std.specs.Prelude.{◌≡◌, ◌++◌, ◌∷◌, [], IfOk, MatchResult};
ghost use Rattle.crs_value.specs.Spells.{IsFaultOfText};
ghost use Rattle.crs_desk.specs.DigestOutput.{IsSpelled, hex_digest};

use crate::{Level, Rules, TextCommand, refusal_in, refused_line};
use crs_canon::{Canon, canon};
use crs_rules::canon_under;
use crs_text::Fault;
use sha2::{Digest, Sha256};
use std::alloc::{AllocError, Global};

/// By which bytes a text is known.
#[derive(Clone, Copy)]
pub enum Spelled<'r> {
    /// By its canonical text at a level.
    Canonical(Level),
    /// By its form under rules, at a level.
    Form(Level, &'r Rules),
}

/// `digest`: a line with the SHA-256 of the bytes by which a text is known, in hexadecimal, or its refusal.
#[derive(Clone, Copy)]
pub struct DigestText<'r> {
    /// Which bytes.
    pub by: Spelled<'r>,
}

impl TextCommand for DigestText<'_> {
    ghost use Rattle.crs_desk.specs.DigestOutput.{IsDigestOutput};

    ghost Output = { λ s text written status. IsDigestOutput s.by text written status };

    fn output(&self, alloc: Global, text: &[u8]) -> Result<(Vec<u8>, u8), AllocError> {
        match bytes_of(alloc, text, self.by) {
            Ok(canon) => Ok((digest_line(alloc, canon.bytes())?, 0)),
            Err(fault) => Ok((refused_line(alloc, b"", refusal_in(fault)?)?, 1)),
        }
    }
}

fn bytes_of(alloc: Global, text: &[u8], by: Spelled<'_>) -> Result<Canon, Fault>
    ensures { MatchResult result (λ canon. IsSpelled by.entry text.now canon.bytes) (IsFaultOfText text.now) }
{
    match by {
        Spelled::Canonical(level) => canon(alloc, text, level),
        Spelled::Form(level, rules) => canon_under(alloc, text, level, rules),
    }
}

// The digest of these bytes in hexadecimal, and a line end.
fn digest_line(alloc: Global, bytes: &[u8]) -> Result<Vec<u8>, AllocError>
    ensures { IfOk result (λ line. line.items ≡ hex_digest bytes.now ++ 10 ∷ []) }
{
    let text = hex::encode(alloc, Sha256::digest(bytes))?;
    let mut line = Vec::from_slice(alloc, text.as_bytes())?;
    line.push(b'\n')?;
    Ok(line)
}
