//! The first refused line of a rules file, shown, with a sentence that says what to write. Only tests say which.
ghost use Rattle.crs_text.specs.Items.{HasId};

use crate::Made;
use crate::excerpt::excerpt;
use crate::hint::glance::front;
use crate::hint::place::{
    BAD_CHARACTER, BAD_NUMBER, NOT_UTF8, OPEN_TEXT, UNEXPECTED, UNEXPECTED_END,
};
use crate::hint::writing::append_capitals;
use crate::names::{Name, push_name};
use crate::place::{first_byte, rest_of};
use crate::rules_file::nodes::{argument_at, is_crs, is_subject, is_unit, node_text};
use crate::system::meant_of;
use crs_rules::{
    NO_STATEMENT, NOT_HERE, OTHER_CLASS, REPEATED, RulesFault, RulesReader, RulesRefusal,
};
use crs_streams::{append_escaped, append_number, first_line};
use crs_text::{ItemId, ItemKind, Items, Keyword, read_items};
use std::alloc::Global;

// A number is out of range.
const NUMBER_RANGE: u8 = 3;

const STATEMENTS: [&str; 3] = ["SAME", "UNCOUNTED", "KIND"];

const WORDS: [&str; 10] = [
    "crsName",
    "baseName",
    "conversionName",
    "axisName",
    "dynamic",
    "anchor",
    "geoidModel",
    "baseUnit",
    "ensemble",
    "axisOrder",
];

// Words for what the level leaves out.
const OF_LEVEL: [&str; 9] = [
    "id",
    "ids",
    "identifier",
    "identifiers",
    "usage",
    "scope",
    "area",
    "remark",
    "remarks",
];

const NODES: [&str; 14] = [
    "DATUM",
    "VDATUM",
    "MEMBER",
    "ELLIPSOID",
    "PRIMEM",
    "METHOD",
    "PARAMETER",
    "GEOIDMODEL",
    "MODEL",
    "AXIS",
    "LENGTHUNIT",
    "ANGLEUNIT",
    "SCALEUNIT",
    "UNIT",
];

const KINDS: [&str; 3] = ["ANGLEUNIT", "LENGTHUNIT", "SCALEUNIT"];

/// The refused line of a rules file with a caret below the place, and a sentence, each with its line feed. `AllocError`: no
/// memory for them.
pub fn rules_refusal_text(alloc: Global, bytes: &[u8], refusal: RulesRefusal) -> Made<Vec<u8>> {
    let mut out = Vec::new(alloc);
    let line = line_at(bytes, refusal.line);
    append_excerpt(line, refusal.place, &mut out)?;
    append_sentence(bytes, line, refusal, &mut out)?;
    out.extend_from_slice(b"\n")?;
    Ok(out)
}

// The line of a number, counted from 1.
fn line_at(bytes: &[u8], number: usize) -> &[u8] {
    let mut left = bytes;
    let mut line: &[u8] = b"";
    for turn in 0..number {
        if left.is_empty() {
            return b"";
        }
        (line, left) = first_line(left);
    }
    line
}

fn append_excerpt(line: &[u8], place: usize, out: &mut Vec<u8>) -> Made<()> {
    if place > line.len() {
        return Ok(());
    }
    out.extend_from_slice(&excerpt(*out.allocator(), line, place)?)
}

fn append_sentence(
    bytes: &[u8],
    line: &[u8],
    refusal: RulesRefusal,
    out: &mut Vec<u8>,
) -> Made<()> {
    let alloc = *out.allocator();
    if refusal.number < NO_STATEMENT {
        return out.extend_from_slice(of_line(alloc, line, refusal).as_bytes());
    }
    let Ok(items) = read_items(alloc, line) else {
        return Ok(());
    };
    match refusal.number {
        NO_STATEMENT => append_statement(&items, out),
        NOT_HERE => append_not_here(line, &items, refusal.place, out),
        OTHER_CLASS => append_other_class(&items, refusal.place, out),
        REPEATED => append_repeated(bytes, line, &items, refusal, out),
        _ => Ok(()),
    }
}

// ---- a line that is no node

fn of_line(alloc: Global, line: &[u8], refusal: RulesRefusal) -> &'static str {
    let there = rest_of(line, refusal.place);
    match refusal.number {
        BAD_CHARACTER => of_character(there, refusal),
        BAD_NUMBER => "This is no number: write one as 0.3048 or 1.5e-3.",
        NUMBER_RANGE => "The number is too large, too small or too long.",
        NOT_UTF8 => "The name isn't UTF-8: save the file as UTF-8.",
        OPEN_TEXT => {
            "The name has no closing quote; a quote inside a name is written twice, and a name ends in its line."
        }
        UNEXPECTED => of_unexpected(alloc, line, refusal.place),
        UNEXPECTED_END if has_bracket(line) => {
            "A statement is one line, and this one is still open at its end: close it, or join the lines."
        }
        UNEXPECTED_END => "A line is SAME[...], UNCOUNTED[...] or KIND[...], or begins with #.",
        _ => "A node has a name, and no nodes inside.",
    }
}

fn of_character(there: &[u8], refusal: RulesRefusal) -> &'static str {
    if refusal.line == 1 && refusal.place == 0 && there.starts_with(b"\xef\xbb\xbf") {
        return "The file begins with a byte order mark: save it as UTF-8 without one.";
    }
    if there.starts_with(b"#") {
        return "A comment has a line of its own.";
    }
    if is_quote(there) {
        return "Names have straight double quotes: \"name\".";
    }
    "Outside a name this character has no meaning here."
}

// Whether another quote than the straight double one is there.
fn is_quote(there: &[u8]) -> bool {
    [
        b"'".as_slice(),
        b"`".as_slice(),
        b"\xe2\x80\x98".as_slice(),
        b"\xe2\x80\x99".as_slice(),
        b"\xe2\x80\x9c".as_slice(),
        b"\xe2\x80\x9d".as_slice(),
        b"\xe2\x80\x9e".as_slice(),
        b"\xc2\xab".as_slice(),
        b"\xc2\xbb".as_slice(),
    ]
    .iter()
    .any(|quote| there.starts_with(quote))
}

fn of_unexpected(alloc: Global, line: &[u8], place: usize) -> &'static str {
    let before = front(line, place).trim_ascii();
    let there = first_byte(rest_of(line, place));
    let last = before.last().copied().unwrap_or(0);
    if before.is_empty() && matches!(there, b',' | b']' | b')') {
        return "A statement is one line, and this continues the line before: join the lines.";
    }
    if !has_bracket(before) {
        return "A line is SAME[...], UNCOUNTED[...] or KIND[...], or begins with #.";
    }
    if read_items(alloc, before).is_ok() {
        return "A line has one statement, and nothing behind it.";
    }
    if matches!(last, b',' | b'[' | b'(') {
        return "A node or a word is missing before this.";
    }
    if matches!(there, b']' | b')') {
        return "The bracket that is open here is closed by its own kind: [...] or (...).";
    }
    "A comma is missing before this."
}

fn has_bracket(line: &[u8]) -> bool {
    line.iter().any(|byte| matches!(*byte, b'[' | b'('))
}

// ---- another keyword

fn append_statement(items: &Items<'_>, out: &mut Vec<u8>) -> Made<()> {
    let root = items.root();
    let keyword = items.keyword(root);
    if is_crs(keyword) {
        return out.extend_from_slice(
            b"This is the text of a CRS; a rules file has statements: SAME[...], UNCOUNTED[...] and KIND[...].",
        );
    }
    if is_subject(keyword) {
        out.extend_from_slice(b"Write a node in a statement: SAME[")?;
        append_capitals(items.raw(root), out)?;
        return out.extend_from_slice(b"[...],...].");
    }
    append_meant(items.raw(root), &STATEMENTS, out)?;
    out.extend_from_slice(b"A statement is SAME[...], UNCOUNTED[...] or KIND[...].")
}

// ---- an item that may not stand there

fn append_not_here(line: &[u8], items: &Items<'_>, place: usize, out: &mut Vec<u8>) -> Made<()> {
    let Some(id) = argument_at(items, place) else {
        return Ok(());
    };
    let statement = items.raw(items.root());
    if statement.eq_ignore_ascii_case(b"UNCOUNTED") {
        return append_no_word(items, id, out);
    }
    if statement.eq_ignore_ascii_case(b"KIND") {
        return append_no_sort(items, id, out);
    }
    match items.kind(id) {
        ItemKind::Node => append_no_node(line, items, id, out),
        ItemKind::Word if is_among(items.raw(id), &WORDS) => {
            append_all(
                &[
                    b"This is a word of UNCOUNTED: write UNCOUNTED[",
                    items.raw(id),
                    b"].",
                ],
                out,
            )
        }
        ItemKind::Word => {
            append_meant(items.raw(id), &NODES, out)?;
            append_nodes(
                b"Write a name in quotes in its node, such as DATUM[\"name\"]; the nodes are ",
                out,
            )
        }
        ItemKind::Text => append_nodes(b"Write which node has this name: ", out),
        ItemKind::Number => append_nodes(b"A number is no node; the nodes are ", out),
    }
}

// A node that is none of a `SAME`.
fn append_no_node(line: &[u8], items: &Items<'_>, id: ItemId, out: &mut Vec<u8>) -> Made<()>
    requires { HasId items.now id }
{
    let keyword = items.keyword(id);
    if is_unit(keyword) {
        return append_no_unit(line, items, id, out);
    }
    if is_subject(keyword) {
        return append_name_alone(line, items, id, out);
    }
    if is_crs(keyword) {
        return out.extend_from_slice(
            b"No SAME has names of CRSs: UNCOUNTED[crsName] leaves them out, and UNCOUNTED[baseName] those of base CRSs.",
        );
    }
    match keyword {
        Some(Keyword::Ensemble) => out.extend_from_slice(
            b"No SAME has ensembles: under UNCOUNTED[ensemble] one counts as the datum of its name, and a member is MEMBER[\"name\"].",
        ),
        Some(Keyword::Conversion) => out.extend_from_slice(
            b"No SAME has names of conversions: UNCOUNTED[conversionName] leaves them out.",
        ),
        Some(Keyword::Anchor | Keyword::AnchorEpoch) => out.extend_from_slice(
            b"No SAME has anchors: UNCOUNTED[anchor] leaves them out.",
        ),
        Some(Keyword::Dynamic | Keyword::FrameEpoch) => out.extend_from_slice(
            b"No SAME has dynamic parts: UNCOUNTED[dynamic] leaves them out.",
        ),
        Some(Keyword::Id | Keyword::Usage | Keyword::Remark | Keyword::Scope | Keyword::Area) =>
            append_of_level(out),
        _ => {
            append_meant(items.raw(id), &NODES, out)?;
            append_nodes(b"A SAME has these nodes: ", out)
        }
    }
}

// `Write only the name: ELLIPSOID["WGS 84"].`
fn append_name_alone(line: &[u8], items: &Items<'_>, id: ItemId, out: &mut Vec<u8>) -> Made<()>
    requires { HasId items.now id }
{
    let Some(name) = name_of(line, items, id) else {
        out.extend_from_slice(b"Write the name in quotes: ")?;
        append_capitals(items.raw(id), out)?;
        return out.extend_from_slice(b"[\"name\"].");
    };
    out.extend_from_slice(b"Write only the name: ")?;
    append_capitals(items.raw(id), out)?;
    out.extend_from_slice(b"[")?;
    append_escaped(name, out)?;
    out.extend_from_slice(b"].")
}

// A unit without a factor that can be one, or with more.
fn append_no_unit(line: &[u8], items: &Items<'_>, id: ItemId, out: &mut Vec<u8>) -> Made<()>
    requires { HasId items.now id }
{
    if name_of(line, items, id).is_none() || items.arg_count(id) < 2 {
        out.extend_from_slice(b"A unit has its name in quotes and its factor: ")?;
        append_capitals(items.raw(id), out)?;
        return out.extend_from_slice(b"[\"name\",factor].");
    }
    if items.arg_count(id) > 2 {
        return out.extend_from_slice(b"Write only the name and the factor of the unit.");
    }
    out.extend_from_slice(b"The factor of a unit is a number above 0.")
}

// ---- an item that is no word of UNCOUNTED

fn append_no_word(items: &Items<'_>, id: ItemId, out: &mut Vec<u8>) -> Made<()>
    requires { HasId items.now id }
{
    let raw = items.raw(id);
    if is_among(raw, &OF_LEVEL) {
        return append_of_level(out);
    }
    if items.kind(id) == ItemKind::Text && is_among(raw, &WORDS) {
        return append_all(&[b"Write the word without quotes: ", raw, b"."], out);
    }
    if items.kind(id) == ItemKind::Node && is_subject(items.keyword(id)) {
        return out.extend_from_slice(
            b"UNCOUNTED takes words; write nodes that count as one in SAME[...].",
        );
    }
    append_meant(raw, &WORDS, out)?;
    append_list(b"The words are ", &WORDS, out)
}

fn append_of_level(out: &mut Vec<u8>) -> Made<()> {
    out.extend_from_slice(b"Identifiers, usages and remarks are left out by --level definition.")
}

// ---- an item that is no kind, or none that has one

fn append_no_sort(items: &Items<'_>, id: ItemId, out: &mut Vec<u8>) -> Made<()>
    requires { HasId items.now id }
{
    if items.arg(items.root(), 0) == Some(id) {
        append_meant(items.raw(id), &KINDS, out)?;
        return out.extend_from_slice(
            b"A KIND begins with ANGLEUNIT, LENGTHUNIT or SCALEUNIT, without brackets.",
        );
    }
    out.extend_from_slice(
        b"After the kind write PARAMETER[\"name\"], with only the name; after ANGLEUNIT also PRIMEM.",
    )
}

// ---- a node of another kind than the first, and one that stood before

fn append_other_class(items: &Items<'_>, place: usize, out: &mut Vec<u8>) -> Made<()> {
    let (Some(first), Some(id)) = (items.arg(items.root(), 0), argument_at(items, place)) else {
        return Ok(());
    };
    out.extend_from_slice(b"A set is of one kind, and the first is ")?;
    append_capitals(items.raw(first), out)?;
    out.extend_from_slice(b": write another SAME for ")?;
    append_capitals(items.raw(id), out)?;
    out.extend_from_slice(b".")
}

fn append_repeated(
    bytes: &[u8],
    line: &[u8],
    items: &Items<'_>,
    refusal: RulesRefusal,
    out: &mut Vec<u8>,
) -> Made<()> {
    let alloc = *out.allocator();
    let Some(id) = argument_at(items, refusal.place) else {
        return Ok(());
    };
    let is_kind = items.raw(items.root()).eq_ignore_ascii_case(b"KIND");
    let front = if is_kind {
        b"KIND[ANGLEUNIT,".as_slice()
    } else {
        b"SAME[".as_slice()
    };
    let statement = [front, node_text(line, items, id), b"]".as_slice()].concat(alloc)?;
    let earlier = first_with(alloc, bytes, &statement)?;
    append_earlier(earlier, refusal.line, out)?;
    out.extend_from_slice(if is_unit(items.keyword(id)) {
        b": write each node once in all statements; a factor counts by its value."
    } else {
        b": write each node once in all statements."
    })
}

// Where the node stood before that is refused in a line.
fn append_earlier(earlier: Option<RulesRefusal>, line: usize, out: &mut Vec<u8>) -> Made<()> {
    let Some(earlier) = earlier else {
        return out.extend_from_slice(b"It is in a line before");
    };
    if earlier.line == line {
        out.extend_from_slice(b"It is in this line before, at ")?;
        return append_number(earlier.place, out);
    }
    out.extend_from_slice(b"It is in line ")?;
    append_number(earlier.line, out)?;
    out.extend_from_slice(b" too")
}

// The first line of a file with the node of a statement: it is refused where the statement was read before.
fn first_with(alloc: Global, bytes: &[u8], statement: &[u8]) -> Made<Option<RulesRefusal>> {
    let mut reader = RulesReader::new(alloc);
    first_read_by(alloc, bytes, statement, &mut reader)
}

fn first_read_by(
    alloc: Global,
    bytes: &[u8],
    statement: &[u8],
    reader: &mut RulesReader,
) -> Made<Option<RulesRefusal>> {
    if reader.read(alloc, statement).is_err() {
        return Ok(None);
    }
    match reader.read(alloc, bytes) {
        Err(RulesFault::Refused(refusal)) => Ok(Some(refusal)),
        Err(RulesFault::Memory(error)) => Err(error),
        Ok(()) => Ok(None),
    }
}

// The name of a node as it is written, with its quotes.
fn name_of<'l>(line: &'l [u8], items: &Items<'_>, id: ItemId) -> Option<&'l [u8]>
    requires { HasId items.now id }
{
    let text = items.arg(id, 0)?;
    if items.kind(text) != ItemKind::Text {
        return None;
    }
    let place = items.place(text);
    line.get(
        place..place
            .saturating_add(items.raw(text).len())
            .saturating_add(2),
    )
}

// ---- words

fn is_among(word: &[u8], words: &[&str]) -> bool {
    words
        .iter()
        .any(|it| it.as_bytes().eq_ignore_ascii_case(word))
}

// `Did you mean SAME? `, or nothing where no word is near.
fn append_meant(word: &[u8], words: &[&str], out: &mut Vec<u8>) -> Made<()> {
    let meant = meant_of(*out.allocator(), word, &names_of(*out.allocator(), words)?)?;
    if meant.is_empty() {
        return Ok(());
    }
    append_all(&[b"Did you mean ", &meant, b"? "], out)
}

fn names_of(alloc: Global, words: &[&str]) -> Made<Vec<Name>> {
    let mut names = Vec::new(alloc);
    for word in words {
        push_name(word.as_bytes(), &mut names)?;
    }
    Ok(names)
}

fn append_nodes(front: &[u8], out: &mut Vec<u8>) -> Made<()> {
    append_list(front, &NODES, out)
}

// Words with commas between them, behind these bytes, and a point.
fn append_list(front: &[u8], words: &[&str], out: &mut Vec<u8>) -> Made<()> {
    let mut separator = front;
    for word in words {
        append_all(&[separator, word.as_bytes()], out)?;
        separator = b", ";
    }
    out.extend_from_slice(b".")
}

fn append_all(parts: &[&[u8]], out: &mut Vec<u8>) -> Made<()> {
    for part in parts {
        out.extend_from_slice(part)?;
    }
    Ok(())
}
