//! The lines that were added last, each with its group: one that comes again is known by its bytes, and isn't read.
ghost use Rattle.std.specs.Prelude.{◌≡◌, ◌<◌, [], All, IfOk, IfSome, List, None, OnOk, Some};
ghost use Rattle.crs_value.specs.declared.values.level.Level.{Level};
ghost use Rattle.crs_writer.specs.Canonical.{CanonicalText};
ghost use Rattle.crs_group.specs.inner.Known.{AreKnown, HasGroup};

use std::alloc::{AllocError, Global};
use std::marker::Model;

// How many lines are remembered. Places are in pairs: a line is kept at the first place of the pair that its bytes
// choose, the line that was there moves to the second, and the one there is forgotten.
const PLACES: usize = 256;

// A longer line isn't remembered, so all of them have at most a mebibyte.
const LONGEST: usize = 4096;

// A line, and the place of its group, from 0. None: there is no line here.
#[derive(Drop)]
struct KnownLine {
    text: Vec<u8>,
    group: Option<usize>,
}

impl Model for KnownLine {
    ghost use Rattle.crs_group.specs.inner.Known.{KnownText};

    ghost Value = { KnownText };

    ghost view = { λ line. record { text = line.text.items; group = line.group } };
}

impl KnownLine {
    // The place of the group of this text, where it is this line's.
    fn group_of(&self, text: &[u8]) -> Option<usize>
        ensures { IfSome result (λ at. (self.now.text ≡ text.now) × (self.now.group ≡ Some at)) }
    {
        if self.text.as_slice() == text {
            self.group
        } else {
            None
        }
    }

    // Takes the place of the line before; where there is no memory for the text, there is no line.
    fn keep(&mut self, text: &[u8], group: usize)
        ensures { IfSome self.new.group (λ at. (at ≡ group) × (self.new.text ≡ text.now)) }
    {
        self.group = None;
        if replace_bytes(&mut self.text, text).is_err() {
            return;
        }
        self.group = Some(group);
    }
}

// The lines by their places; none, before the first is remembered.
#[derive(Drop)]
pub(crate) struct Recent {
    lines: Vec<KnownLine>,
}

impl Model for Recent {
    ghost use Rattle.std.specs.Prelude.{List};
    ghost use Rattle.crs_group.specs.inner.Known.{KnownText};

    ghost Value = { List KnownText };

    ghost view = { λ recent. recent.lines.items };
}

impl Recent {
    // No lines. They take no memory.
    pub(crate) fn new(alloc: Global) -> Recent
        ensures { result ≡ [] }
    {
        let lines = Vec::new(alloc);
        Recent { lines }
    }

    // The place of the group of a text, where a line that is remembered has the same bytes.
    pub(crate) fn group_of(&self, place: usize, text: &[u8]) -> Option<usize>
        ensures { IfSome result (λ at. (level : Level) (texts : List CanonicalText) →
            AreKnown level texts self.now → HasGroup level texts text.now at) }
    {
        if let Some(at) = self.group_at(place, text) {
            return Some(at);
        }
        self.group_at(place ^ 1, text)
    }

    fn group_at(&self, place: usize, text: &[u8]) -> Option<usize>
        ensures { IfSome result (λ at. (level : Level) (texts : List CanonicalText) →
            AreKnown level texts self.now → HasGroup level texts text.now at) }
    {
        let line = self.lines.get(place)?;
        line.group_of(text)
    }

    // Remembers a text and the place of its group.
    pub(crate) fn keep(&mut self, alloc: Global, place: usize, text: &[u8], group: usize)
        ensures { (level : Level) (texts : List CanonicalText) → AreKnown level texts self.old →
            HasGroup level texts text.now group → AreKnown level texts self.new }
    {
        self.make_places(alloc);
        self.exchange(place, place ^ 1);
        self.keep_at(place, text, group);
    }

    // Makes the places, where there are none yet and there is memory for them.
    fn make_places(&mut self, alloc: Global)
        ensures { (level : Level) (texts : List CanonicalText) → AreKnown level texts self.old →
            AreKnown level texts self.new }
    {
        if !self.lines.is_empty() {
            return;
        }
        let Ok(lines) = no_lines(alloc) else {
            return;
        };
        self.lines = lines;
    }

    // Each of two lines takes the place of the other.
    fn exchange(&mut self, place: usize, other: usize)
        ensures { (level : Level) (texts : List CanonicalText) → AreKnown level texts self.old →
            AreKnown level texts self.new }
    {
        if place.max(other) >= self.lines.len() {
            return;
        }
        self.lines.swap(place, other);
    }

    fn keep_at(&mut self, place: usize, text: &[u8], group: usize)
        ensures { (level : Level) (texts : List CanonicalText) → AreKnown level texts self.old →
            HasGroup level texts text.now group → AreKnown level texts self.new }
    {
        if place >= self.lines.len() {
            return;
        }
        self.lines[place].keep(text, group);
    }
}

fn no_lines(alloc: Global) -> Result<Vec<KnownLine>, AllocError>
    ensures { IfOk result (λ lines. All (λ line. line.group ≡ None) lines.items) }
{
    let mut lines = Vec::with_capacity(alloc, PLACES)?;
    for place in 0..PLACES {
        let (text, group) = (Vec::new(alloc), None);
        lines.push(KnownLine { text, group })?;
    }
    Ok(lines)
}

// The bytes of a text alone, in as much memory as it needs or there was.
fn replace_bytes(bytes: &mut Vec<u8>, text: &[u8]) -> Result<(), AllocError>
    ensures { OnOk result (bytes.new.items ≡ text.now) }
{
    bytes.clear();
    bytes.reserve_exact(text.len())?;
    bytes.extend_from_slice(text)
}

// The first place of a text's pair, by its length and bytes, but the first few, which are of a keyword; None: it is too
// long. Texts can be made to share a pair of places: then each costs what any new line does, a look at it and a copy.
pub(crate) fn place_of(text: &[u8]) -> Option<usize>
    ensures { IfSome result (λ place. place < 256) }
{
    if text.len() > LONGEST {
        return None;
    }
    let (_, words) = text.as_rchunks::<8>();
    let mut mixed = text.len() as u64;
    for word in words {
        mixed = mixed.rotate_left(5) ^ u64::from_le_bytes(*word);
    }
    Some((mixed.wrapping_mul(0x9e37_79b9_7f4a_7c15) >> 32) as usize % (PLACES / 2) * 2)
}
