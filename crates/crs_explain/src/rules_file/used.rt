//! Which statements of a rules file match nothing in some texts. Only tests say which.
ghost use Rattle.crs_text.specs.Items.{HasId};

use crate::Made;
use crate::rules_file::nodes::{is_named, is_subject, node_text};
use crs_canon::canon;
use crs_rules::{Rules, RulesFault, RulesReader, canon_under, is_idle, read_rules};
use crs_streams::{append_escaped, append_number, first_line};
use crs_text::{Fault, ItemId, ItemKind, Items, Keyword, read_items};
use crs_value::Level;
use std::alloc::Global;

// Nodes stand in each other no deeper.
const DEPTH: u8 = 16;

/// The canonical texts in which rules are to be used.
#[derive(Drop)]
pub struct Used {
    texts: Vec<Vec<u8>>,
}

impl Used {
    /// No texts.
    pub fn new(alloc: Global) -> Used {
        Used {
            texts: Vec::new(alloc),
        }
    }

    /// Adds the text that some bytes are, or else the text of each line; blank lines are none. How many are refused.
    pub fn add(&mut self, bytes: &[u8]) -> Made<usize> {
        if self.add_text(bytes)? {
            return Ok(0);
        }
        let mut left = bytes;
        let mut refused = 0usize;
        while !left.is_empty() {
            let (line, rest) = first_line(left);
            if !line.trim_ascii().is_empty() && !self.add_text(line)? {
                refused = refused.saturating_add(1);
            }
            left = rest;
        }
        Ok(refused)
    }

    // Adds a text, if it spells a CRS; whether it does.
    fn add_text(&mut self, text: &[u8]) -> Made<bool> {
        let alloc = *self.texts.allocator();
        match canon(alloc, text, Level::Full) {
            Ok(canon) => {
                self.texts.push(canon.into_bytes())?;
                Ok(true)
            }
            Err(Fault::Refused(_)) => Ok(false),
            Err(Fault::Memory(error)) => Err(error),
        }
    }

    /// A line for each statement of a rules file, or part of one, that matches nothing in the texts; none where the file is
    /// refused. Time is linear in the file and in the texts.
    pub fn unmatched(&self, alloc: Global, bytes: &[u8]) -> Made<Vec<u8>> {
        let mut standing = Standing {
            reader: RulesReader::new(alloc),
            has_bare_meridian: false,
        };
        self.unmatched_beside(alloc, bytes, &mut standing)
    }

    fn unmatched_beside(
        &self,
        alloc: Global,
        bytes: &[u8],
        standing: &mut Standing,
    ) -> Made<Vec<u8>> {
        let is_read = self.add_forms(alloc, bytes, false, standing)?
            && self.add_forms(alloc, bytes, true, standing)?;
        if is_read {
            self.tell(alloc, bytes, standing)
        } else {
            Ok(Vec::new(alloc))
        }
    }

    // Adds what stands in the texts' forms under the file's rules without sets, whose nodes the sets are of, or what has no
    // unit in those without kinds. Whether the file is accepted.
    fn add_forms(
        &self,
        alloc: Global,
        bytes: &[u8],
        bare: bool,
        standing: &mut Standing,
    ) -> Made<bool> {
        match read_rules(alloc, bytes) {
            Ok(mut rules) => {
                leave_out(&mut rules, bare);
                self.add_under(alloc, &rules, bare, standing)
            }
            Err(RulesFault::Refused(_)) => Ok(false),
            Err(RulesFault::Memory(error)) => Err(error),
        }
    }

    fn add_under(
        &self,
        alloc: Global,
        rules: &Rules,
        bare: bool,
        standing: &mut Standing,
    ) -> Made<bool> {
        for text in &self.texts {
            standing.add_form(alloc, text, rules, bare)?;
        }
        Ok(true)
    }

    fn tell(&self, alloc: Global, bytes: &[u8], standing: &mut Standing) -> Made<Vec<u8>> {
        let mut out = Vec::new(alloc);
        let mut left = bytes;
        let mut number = 0usize;
        while !left.is_empty() {
            let (line, rest) = first_line(left);
            number = number.saturating_add(1);
            if !is_idle(line) {
                self.tell_line(number, line, standing, &mut out)?;
            }
            left = rest;
        }
        Ok(out)
    }

    fn tell_line(
        &self,
        number: usize,
        line: &[u8],
        standing: &mut Standing,
        out: &mut Vec<u8>,
    ) -> Made<()> {
        let Ok(items) = read_items(*out.allocator(), line) else {
            return Ok(());
        };
        let keyword = items.raw(items.root());
        if keyword.eq_ignore_ascii_case(b"SAME") {
            return tell_set(number, line, &items, standing, out);
        }
        if keyword.eq_ignore_ascii_case(b"UNCOUNTED") {
            return self.tell_words(number, &items, out);
        }
        tell_sorts(number, line, &items, standing, out)
    }

    // Tells which words leave all texts as they are.
    fn tell_words(&self, number: usize, items: &Items<'_>, out: &mut Vec<u8>) -> Made<()> {
        let root = items.root();
        let mut at = items.arg(root, 0);
        for turn in 0..items.arg_count(root) {
            let Some(id) = at else { break };
            if !items.contains(id) {
                break;
            }
            if self.is_idle_word(*out.allocator(), items.raw(id))? {
                append_front(number, b"", out)?;
                out.extend_from_slice(items.raw(id))?;
                out.extend_from_slice(b" changes none of the texts\n")?;
            }
            at = items.next(id);
        }
        Ok(())
    }

    // Whether the texts have the same forms where what a word names doesn't count.
    fn is_idle_word(&self, alloc: Global, word: &[u8]) -> Made<bool> {
        let statement = [b"UNCOUNTED[".as_slice(), word, b"]".as_slice()].concat(alloc)?;
        match read_rules(alloc, &statement) {
            Ok(rules) => self.are_forms(alloc, &rules),
            Err(RulesFault::Refused(_)) => Ok(true),
            Err(RulesFault::Memory(error)) => Err(error),
        }
    }

    // Whether each text is its own form.
    fn are_forms(&self, alloc: Global, rules: &Rules) -> Made<bool> {
        for text in &self.texts {
            match canon_under(alloc, text, Level::Full, rules) {
                Ok(form) if form.bytes() != text.as_slice() => return Ok(false),
                Ok(_) | Err(Fault::Refused(_)) => {}
                Err(Fault::Memory(error)) => return Err(error),
            }
        }
        Ok(true)
    }
}

// Leaves kinds out of rules, or else sets.
fn leave_out(rules: &mut Rules, bare: bool) {
    if bare {
        rules.truncate(rules.names(), rules.units(), 0);
    } else {
        rules.truncate(0, 0, rules.kinds());
    }
}

// What stands in the texts: the nodes, in a reader for which each is a set of its own, and parameters without a unit, which
// are of a kind there.
#[derive(Drop)]
struct Standing {
    reader: RulesReader,
    has_bare_meridian: bool,
}

impl Standing {
    // Adds the nodes of a text's form, or its parameters and prime meridians that have no unit.
    fn add_form(&mut self, alloc: Global, text: &[u8], rules: &Rules, bare: bool) -> Made<()> {
        match canon_under(alloc, text, Level::Full, rules) {
            Ok(form) => self.add_text(alloc, form.bytes(), bare),
            Err(Fault::Refused(_)) => Ok(()),
            Err(Fault::Memory(error)) => Err(error),
        }
    }

    fn add_text(&mut self, alloc: Global, text: &[u8], bare: bool) -> Made<()> {
        match read_items(alloc, text) {
            Ok(items) => self.add_nodes(alloc, text, &items, items.root(), bare, DEPTH),
            Err(Fault::Refused(_)) => Ok(()),
            Err(Fault::Memory(error)) => Err(error),
        }
    }

    fn add_nodes(
        &mut self,
        alloc: Global,
        text: &[u8],
        items: &Items<'_>,
        id: ItemId,
        bare: bool,
        depth: u8,
    ) -> Made<()>
        requires { HasId items.now id }
    {
        if depth == 0 {
            return Ok(());
        }
        if bare {
            self.add_if_bare(alloc, text, items, id)?;
        } else {
            self.add_node(alloc, text, items, id)?;
        }
        let mut at = items.arg(id, 0);
        for turn in 0..items.arg_count(id) {
            let Some(argument) = at else { break };
            if !items.contains(argument) {
                break;
            }
            self.add_nodes(alloc, text, items, argument, bare, depth - 1)?;
            at = items.next(argument);
        }
        Ok(())
    }

    fn add_node(&mut self, alloc: Global, text: &[u8], items: &Items<'_>, id: ItemId) -> Made<()>
        requires { HasId items.now id }
    {
        let keyword = items.keyword(id);
        if !is_subject(keyword) {
            return Ok(());
        }
        let more = if is_named(keyword) { 1 } else { 2 };
        let node = front_of_node(alloc, text, items, id, more)?;
        self.stands(alloc, b"SAME[", &node)?;
        Ok(())
    }

    fn add_if_bare(&mut self, alloc: Global, text: &[u8], items: &Items<'_>, id: ItemId) -> Made<()>
        requires { HasId items.now id }
    {
        if has_unit(items, id) {
            return Ok(());
        }
        match items.keyword(id) {
            Some(Keyword::PrimeM | Keyword::PrimeMeridian) if !is_at_zero(items, id) => {
                self.has_bare_meridian = true;
            }
            Some(Keyword::Parameter) => {
                let node = front_of_node(alloc, text, items, id, 1)?;
                self.stands(alloc, b"KIND[ANGLEUNIT,", &node)?;
            }
            _ => {}
        }
        Ok(())
    }

    // Whether a node stood, in a statement that begins so; it stands from now on.
    fn stands(&mut self, alloc: Global, front: &[u8], node: &[u8]) -> Made<bool> {
        let statement = [front, node, b"]".as_slice()].concat(alloc)?;
        match self.reader.read(alloc, &statement) {
            Ok(()) => Ok(false),
            Err(RulesFault::Refused(_)) => Ok(true),
            Err(RulesFault::Memory(error)) => Err(error),
        }
    }
}

// A node with its first arguments alone, so many of them.
fn front_of_node(
    alloc: Global,
    text: &[u8],
    items: &Items<'_>,
    id: ItemId,
    count: usize,
) -> Made<Vec<u8>>
    requires { HasId items.now id }
{
    let whole = node_text(text, items, id);
    let Some(next) = items.arg(id, count) else {
        return Vec::from_slice(alloc, whole);
    };
    let length = items
        .place(next)
        .saturating_sub(items.place(id))
        .saturating_sub(1);
    let front = whole.get(..length).unwrap_or(b"");
    [front, b"]".as_slice()].concat(alloc)
}

// Whether a prime meridian of a canonical text is at 0.
fn is_at_zero(items: &Items<'_>, id: ItemId) -> bool
    requires { HasId items.now id }
{
    match items.arg(id, 1) {
        Some(longitude) => items.raw(longitude) == b"0".as_slice(),
        None => false,
    }
}

// Whether a node has a unit among its arguments.
fn has_unit(items: &Items<'_>, id: ItemId) -> bool
    requires { HasId items.now id }
{
    let mut at = items.arg(id, 0);
    for turn in 0..items.arg_count(id) {
        let Some(argument) = at else { break };
        if !items.contains(argument) {
            break;
        }
        if is_subject(items.keyword(argument)) {
            return true;
        }
        at = items.next(argument);
    }
    false
}

// Tells of a set of which no node, or one alone, stands in the texts.
fn tell_set(
    number: usize,
    line: &[u8],
    items: &Items<'_>,
    standing: &mut Standing,
    out: &mut Vec<u8>,
) -> Made<()> {
    let root = items.root();
    let mut matched = 0usize;
    let mut only: &[u8] = b"";
    let mut at = items.arg(root, 0);
    for turn in 0..items.arg_count(root) {
        let Some(id) = at else { break };
        if !items.contains(id) {
            break;
        }
        let node = node_text(line, items, id);
        if standing.stands(*out.allocator(), b"SAME[", node)? {
            matched = matched.saturating_add(1);
            only = node;
        }
        at = items.next(id);
    }
    tell_matched(number, matched, only, out)
}

fn tell_matched(number: usize, matched: usize, only: &[u8], out: &mut Vec<u8>) -> Made<()> {
    match matched {
        0 => append_front(number, b"no node of this statement is in the texts\n", out),
        1 => {
            append_front(number, b"only ", out)?;
            append_escaped(only, out)?;
            out.extend_from_slice(b" is in the texts, so this statement equates nothing there\n")
        }
        _ => Ok(()),
    }
}

// Tells which items of a `KIND` aren't in the texts without a unit.
fn tell_sorts(
    number: usize,
    line: &[u8],
    items: &Items<'_>,
    standing: &mut Standing,
    out: &mut Vec<u8>,
) -> Made<()> {
    let root = items.root();
    let mut at = items.arg(root, 1);
    for turn in 0..items.arg_count(root) {
        let Some(id) = at else { break };
        if !items.contains(id) {
            break;
        }
        let is_there = match items.kind(id) {
            ItemKind::Node => {
                standing.stands(
                    *out.allocator(),
                    b"KIND[ANGLEUNIT,",
                    node_text(line, items, id),
                )?
            }
            _ => standing.has_bare_meridian,
        };
        if !is_there {
            tell_sort(number, line, items, id, out)?;
        }
        at = items.next(id);
    }
    Ok(())
}

fn tell_sort(
    number: usize,
    line: &[u8],
    items: &Items<'_>,
    id: ItemId,
    out: &mut Vec<u8>,
) -> Made<()>
    requires { HasId items.now id }
{
    append_front(number, b"no ", out)?;
    match items.kind(id) {
        ItemKind::Node => append_escaped(node_text(line, items, id), out)?,
        _ => out.extend_from_slice(b"PRIMEM")?,
    }
    out.extend_from_slice(b" without a unit is in the texts\n")
}

fn append_front(number: usize, words: &[u8], out: &mut Vec<u8>) -> Made<()> {
    out.extend_from_slice(b"line ")?;
    append_number(number, out)?;
    out.extend_from_slice(b": ")?;
    out.extend_from_slice(words)
}
