//! Names of what could be at a place, by themselves, listed, and in JSON; names of classes; and words of paths.
ghost use Rattle.std.specs.Prelude.{◌≡◌, ◌++◌, ◌∷◌, [], IfOk, OnOk};
ghost use Rattle.crs_explain.specs.Expectation.{listed};
ghost use Rattle.crs_explain.specs.Expected.{class_names, names_of};
ghost use Rattle.crs_streams.specs.Json.{json_array, json_more, json_text};

use crate::{Made, Pieces};
use crs_shape::{Class, keywords};
use crs_streams::json::append_text;
use crs_text::Keyword;
use std::alloc::Global;
use std::marker::Model;

/// A word of a path, such as `datum`, for an axis only `axis`; inside the crate also a name of what could be at a
/// place.
#[derive(Drop)]
pub struct Name {
    bytes: Vec<u8>,
}

impl Model for Name {
    ghost use Rattle.std.specs.Prelude.{ℕ, List};

    ghost Value = { List ℕ };

    ghost view = { λ n. n.bytes.items };
}

impl Name {
    /// The word, or the name, of these bytes. A word that no path has matches no step. `AllocError`: no memory for it.
    pub fn new(alloc: Global, bytes: &[u8]) -> Made<Name>
        ensures { IfOk result (λ name. name ≡ bytes.now) }
    {
        let bytes = Vec::from_slice(alloc, bytes)?;
        Ok(Name { bytes })
    }

    /// Its bytes.
    pub(crate) fn bytes(&self) -> &[u8]
        ensures { result.now ≡ self.now }
    {
        &self.bytes
    }
}

/// Adds a name behind others.
pub(crate) fn push_name(bytes: &[u8], out: &mut Vec<Name>) -> Made<()>
    ensures { OnOk result (out.new.items ≡ out.old.items ++ bytes.now ∷ []) }
{
    out.push(Name::new(*out.allocator(), bytes)?)?;
    Ok(())
}

/// Appends names with commas between, and an `or` before the last.
pub(crate) fn append_listed(names: &[Name], out: &mut Vec<u8>) -> Made<()>
    ensures { OnOk result (out.new.items ≡ out.old.items ++ listed names.now) }
{
    match names {
        [] => Ok(()),
        [only] => out.extend_from_slice(only.bytes()),
        [first, last] => {
            out.extend_from_slice(first.bytes())?;
            out.extend_from_slice(b" or ")?;
            out.extend_from_slice(last.bytes())
        }
        [first, others @ ..] => {
            out.extend_from_slice(first.bytes())?;
            out.extend_from_slice(b", ")?;
            append_listed(others, out)
        }
    }
}

/// Adds each name to pieces.
pub(crate) fn push_each(names: &[Name], out: &mut Pieces) -> Made<()>
    ensures { OnOk result (out.new ≡ out.old ++ names.now) }
{
    for name in names {
        out.push(name.bytes())?;
    }
    Ok(())
}

/// Appends an array of texts.
pub(crate) fn append_array(names: &[Name], out: &mut Vec<u8>) -> Made<()>
    ensures { OnOk result (out.new.items ≡ out.old.items ++ json_array json_text names.now) }
{
    match names {
        [] => out.extend_from_slice(b"[]"),
        [first, others @ ..] => {
            out.extend_from_slice(b"[")?;
            append_text(first.bytes(), out)?;
            append_more(others, out)?;
            out.extend_from_slice(b"]")
        }
    }
}

// Texts, each after a comma.
fn append_more(names: &[Name], out: &mut Vec<u8>) -> Made<()>
    ensures { OnOk result (out.new.items ≡ out.old.items ++ json_more json_text names.now) }
{
    for name in names {
        out.extend_from_slice(b",")?;
        append_text(name.bytes(), out)?;
    }
    Ok(())
}

/// Adds the names of classes, and the end of the node if it may end.
pub(crate) fn push_names(classes: &[Class], may_end: bool, out: &mut Vec<Name>) -> Made<()>
    ensures { OnOk result (out.new.items ≡ out.old.items ++ names_of classes.now may_end) }
{
    for class in classes {
        push_class(*class, out)?;
    }
    if may_end {
        push_name(b"its closing delimiter", out)?;
    }
    Ok(())
}

// The names of a class: its first keyword, or what it is where it has none.
fn push_class(class: Class, out: &mut Vec<Name>) -> Made<()>
    ensures { OnOk result (out.new.items ≡ out.old.items ++ class_names class) }
{
    if class == Class::Number {
        push_name(b"a number", out)
    } else if class == Class::Text {
        push_name(b"a text in quotes", out)
    } else if class == Class::Word {
        push_name(b"a word", out)
    } else if class == Class::AxisUnit {
        push_two(b"LENGTHUNIT", b"ANGLEUNIT", out)
    } else {
        // A class that is none of these has a keyword.
        let keyword = keywords(class).first().unwrap_or(&Keyword::Id);
        push_name(keyword.spelling(), out)
    }
}

fn push_two(first: &[u8], second: &[u8], out: &mut Vec<Name>) -> Made<()>
    ensures { OnOk result (out.new.items ≡ out.old.items ++ first.now ∷ second.now ∷ []) }
{
    push_name(first, out)?;
    push_name(second, out)
}
