//! What is found at the place of a refusal, and what could be there: as texts, and in a line for a person.
ghost use Rattle.std.specs.Prelude.{◌≡◌, ◌++◌, ◌∷◌, [], IfOk, None, OnOk, codes, filter};
ghost use Rattle.crs_shape.specs.Expected.{may_come};
ghost use Rattle.crs_shape.specs.Keywords.{every_class};
ghost use Rattle.crs_explain.specs.Expectation.{expected_line, listed, node_at, or_nothing};
ghost use Rattle.crs_explain.specs.Expected.{IsExpected, IsExpectedIn, IsShapeExpected, node_word};

use crate::names::{Name, append_listed, push_names};
use crate::place::{found_text, name_text, rest_of, word_at};
use crate::system::{axes_expected, word_expected};
use crate::{Made, Pieces, UNKNOWN_KEYWORD};
use crs_shape::{Class, Expected, classes, expected, nearest};
use crs_streams::append_number;
use crs_text::{Fault, Items, Refusal, laws, read_items};
use std::alloc::Global;
use std::marker::Model;

// A part that a node must have and lacks: the last number of a shape.
const MISSING: u8 = 13;
/// A type of coordinate system or a direction that isn't known.
pub(crate) const UNKNOWN_WORD: u8 = 21;
// More or fewer axes than the dimension.
const AXIS_COUNT: u8 = 25;

/// What is expected, if that is known.
type MadeIfKnown = Made<Option<ExpectedTexts>>;

/// What is found at a place, and the names of what could be there.
#[derive(Drop)]
pub(crate) struct ExpectedTexts {
    /// The keyword of the node in which that is; no bytes if the text is of no class.
    pub(crate) node: Vec<u8>,
    /// Where the node begins.
    pub(crate) place: usize,
    pub(crate) found: Vec<u8>,
    pub(crate) names: Vec<Name>,
    /// The name that was likely meant; no bytes if none is close. No public clause says which.
    pub(crate) meant: Vec<u8>,
}

impl Model for ExpectedTexts {
    ghost use Rattle.crs_explain.specs.Expectation.{Expectation};

    ghost Value = { Expectation };

    ghost view = { λ e. record { node = e.node.items; place = e.place; found = e.found.items; names = e.names.items } };
}

impl ExpectedTexts {
    /// Nothing is found, and nothing is expected.
    pub(crate) fn nothing(alloc: Global) -> ExpectedTexts
        ensures { result ≡ or_nothing None }
    {
        ExpectedTexts {
            node: Vec::new(alloc),
            place: 0,
            found: Vec::new(alloc),
            names: Vec::new(alloc),
            meant: Vec::new(alloc),
        }
    }

    /// Appends the line of what is found and what could be there; nothing if there are no names.
    pub(crate) fn append_line(&self, out: &mut Vec<u8>) -> Made<()>
        ensures { OnOk result (out.new.items ≡ out.old.items ++ expected_line self.now) }
    {
        if self.names.is_empty() {
            return Ok(());
        }
        append_node(&self.node, self.place, out)?;
        append_rest(&self.found, &self.names, out)
    }

    /// Adds that line, the keyword of the node, and what is found to pieces.
    pub(crate) fn push_found(&self, alloc: Global, out: &mut Pieces) -> Made<()>
        ensures { OnOk result (out.new ≡ out.old ++ expected_line self.now ∷ self.now.node ∷ self.now.found ∷ []) }
    {
        let mut line = Vec::new(alloc);
        self.append_line(&mut line)?;
        out.push(&line)?;
        out.push(&self.node)?;
        out.push(&self.found)
    }
}

/// What is expected, or nothing if that isn't known.
pub(crate) fn or_nothing<'e>(
    expected: &'e Option<ExpectedTexts>,
    nothing: &'e ExpectedTexts,
) -> &'e ExpectedTexts
    requires { nothing.now ≡ or_nothing None }
    ensures { result.now ≡ or_nothing expected.now }
{
    expected.as_ref().unwrap_or(nothing)
}

// `: found AXIS, expected CS`, and a line feed.
fn append_rest(found: &[u8], names: &[Name], out: &mut Vec<u8>) -> Made<()>
    ensures { OnOk result (out.new.items ≡ out.old.items
        ++ (codes ": found " ++ found.now ++ codes ", expected " ++ listed names.now ++ 10 ∷ [])) }
{
    out.extend_from_slice(b": found ")?;
    out.extend_from_slice(found)?;
    out.extend_from_slice(b", expected ")?;
    append_listed(names, out)?;
    out.extend_from_slice(b"\n")
}

// `in GEOGCRS at 0`, or `at 0` where there is no keyword.
fn append_node(word: &[u8], place: usize, out: &mut Vec<u8>) -> Made<()>
    ensures { OnOk result (out.new.items ≡ out.old.items ++ node_at word.now place) }
{
    if word.is_empty() {
        out.extend_from_slice(b"at ")?;
        return append_number(place, out);
    }
    out.extend_from_slice(b"in ")?;
    out.extend_from_slice(word)?;
    out.extend_from_slice(b" at ")?;
    append_number(place, out)
}

/// What is expected at a refusal of a text; nothing if that isn't known.
pub(crate) fn expectation(alloc: Global, text: &[u8], refusal: Refusal) -> MadeIfKnown
    ensures { IfOk result (IsExpected text.now refusal) }
{
    laws::one_answer();
    match read_items(alloc, text) {
        Ok(items) => in_items(alloc, text, &items, refusal),
        Err(Fault::Refused(_)) => Ok(None),
        Err(Fault::Memory(error)) => Err(error),
    }
}

// The same of a text that has these items.
fn in_items(alloc: Global, text: &[u8], items: &Items<'_>, refusal: Refusal) -> MadeIfKnown
    ensures { IfOk result (IsExpectedIn text.now refusal items.now) }
{
    let (number, place) = (refusal.number(), refusal.place());
    match number {
        UNKNOWN_KEYWORD..=MISSING => shape_expected(alloc, text, items, place),
        UNKNOWN_WORD => word_expected(alloc, text, items, place).map(Some),
        AXIS_COUNT => axes_expected(alloc, items, place).map(Some),
        _ => Ok(None),
    }
}

// What is expected at the fault of shape that the items have; nothing where they have none.
fn shape_expected(alloc: Global, text: &[u8], items: &Items<'_>, place: usize) -> MadeIfKnown
    ensures { IfOk result (IsShapeExpected text.now place items.now) }
{
    let Some(expected) = expected(items) else {
        return Ok(None);
    };
    let node = node_text(alloc, rest_of(text, expected.place()), expected.parent())?;
    let found = found_text(alloc, rest_of(text, place))?;
    let may_come = classes_in(alloc, &expected)?;
    let mut names = Vec::new(alloc);
    push_names(&may_come, expected.may_end(), &mut names)?;
    let meant = meant_at(alloc, rest_of(text, place), &expected)?;
    Ok(Some(ExpectedTexts {
        node,
        place: expected.place(),
        found,
        names,
        meant,
    }))
}

// The expected keyword that the word nearly is with which these bytes begin; nothing where none is near.
fn meant_at(alloc: Global, there: &[u8], expected: &Expected) -> Made<Vec<u8>> {
    match nearest(word_at(there), expected) {
        Some(keyword) => Vec::from_slice(alloc, keyword.spelling()),
        None => Ok(Vec::new(alloc)),
    }
}

// The keyword of a node, with which these bytes begin; nothing where it is of no class.
fn node_text(alloc: Global, there: &[u8], parent: Option<Class>) -> Made<Vec<u8>>
    ensures { IfOk result (λ node. node.items ≡ node_word parent there.now) }
{
    match parent {
        Some(_) => name_text(alloc, word_at(there)),
        None => Ok(Vec::new(alloc)),
    }
}

// The classes that may come, in the order of the table.
fn classes_in(alloc: Global, expected: &Expected) -> Made<Vec<Class>>
    ensures { IfOk result (λ found. found.items ≡ filter (may_come expected.now) every_class) }
{
    classes()
        .iter()
        .copied()
        .filter(|class| expected.has(*class))
        .collect(alloc)
}
