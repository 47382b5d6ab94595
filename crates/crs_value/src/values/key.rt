//! Keys: numbers that are equal for values that are the same at a level, by which members of sets are looked for, and
//! where the members of a list are by them. No promise rests on a key, since what it leads to is compared.

ghost use Rattle.std.specs.Prelude.{IfOk, IfSome};
ghost use Rattle.crs_value.specs.Members.{HaveSameMembers};

use crate::values::list::FEW;
use crate::{BoundingBox, Extent, Ident, Level, List, Made, Unit};
use crs_decimal::Decimal;
use crs_shape::UnitKind;
use std::alloc::Global;
use std::hash::{DefaultHasher, Hasher};

// A value that may be a member of a set.
pub(crate) trait Keyed: Sized {
    // A number that is equal for values that are the same at this level.
    fn key(&self, level: Level) -> u128;

    // Whether the keys of the levels differ, where the values count at both.
    const HAS_TWO_KEYS: bool = true;

    // These members, each once, if some are repeated; None for all but identifiers, which other members of sets have.
    fn once(_alloc: Global, _members: &[Self], _places: &[Places]) -> Made<Option<Vec<Self>>>
        ensures { IfOk result (λ once. IfSome once (λ once. HaveSameMembers once.items _members.now)) }
    {
        Ok(None)
    }
}

// What a key is made of: two digests, the second with a word more in front, of parts of two words each.
#[derive(Drop)]
pub(crate) struct Key {
    high: DefaultHasher,
    low: DefaultHasher,
}

impl Key {
    pub(crate) fn new() -> Key {
        let mut low = DefaultHasher::new();
        low.write_u64(1);
        Key {
            high: DefaultHasher::new(),
            low,
        }
    }

    pub(crate) fn finish(&self) -> u128 {
        u128::from(self.high.finish()) << 64 | u128::from(self.low.finish())
    }

    fn put(&mut self, word: u128) {
        self.high.write_u128(word);
        self.low.write_u128(word);
    }

    pub(crate) fn put_text(&mut self, text: &[u8]) {
        let mut key = Key::new();
        key.high.write(text);
        key.low.write(text);
        self.put(key.finish());
    }

    pub(crate) fn put_optional_text(&mut self, text: Option<&[u8]>) {
        match text {
            Some(text) => self.put_text(text),
            None => self.put(0),
        }
    }

    // Equal numbers have equal parts.
    pub(crate) fn put_number(&mut self, number: &Decimal) {
        self.put(number.digits());
        self.put(
            u128::from(number.power().cast_unsigned()) << 1 | u128::from(number.is_negative()),
        );
    }

    pub(crate) fn put_box(&mut self, bbox: &Option<BoundingBox>) {
        self.put(u128::from(bbox.is_some()));
        if let Some(bbox) = bbox {
            self.put_number(&bbox.south);
            self.put_number(&bbox.west);
            self.put_number(&bbox.north);
            self.put_number(&bbox.east);
        }
    }

    pub(crate) fn put_extent(&mut self, extent: &Option<Extent<'_>>) {
        self.put(u128::from(extent.is_some()));
        if let Some(extent) = extent {
            self.put_number(&extent.minimum);
            self.put_number(&extent.maximum);
            self.put_length(&extent.unit);
        }
    }

    // A length unit with everything; a missing one is the metre.
    fn put_length(&mut self, unit: &Option<Unit<'_>>) {
        match unit {
            Some(unit) => self.put_unit(UnitKind::Length, unit, Level::Full),
            None => {
                self.put(UnitKind::Length as u128);
                self.put_text(b"metre");
                // The number 1.
                self.put(1);
                self.put(0);
                self.put(Key::new().finish());
            }
        }
    }

    pub(crate) fn put_optional_unit(&mut self, unit: &Option<Unit<'_>>, level: Level) {
        self.put(u128::from(unit.is_some()));
        if let Some(unit) = unit {
            self.put_unit(UnitKind::Plain, unit, level);
        }
    }

    // A unit where this kind is asked.
    fn put_unit(&mut self, asked: UnitKind, unit: &Unit<'_>, level: Level) {
        self.put(unit.kind.as_asked(asked) as u128);
        self.put_text(unit.name);
        self.put_number(&unit.factor);
        self.put_idents(&unit.identifiers, level);
    }

    // The identifiers that the level keeps, in any order and however often.
    pub(crate) fn put_idents(&mut self, idents: &List<Ident<'_>>, level: Level) {
        match level {
            Level::Full => self.put(key_of_idents(idents)),
            Level::Definition => {}
        }
    }
}

// The key of a set whose members have these keys, in order: one that follows itself counts once.
fn key_of_set<T, F: Fn(&T) -> u128>(sorted: &[T], key_of: F) -> u128
    requires { F.IsAlwaysCallable key_of }
{
    let mut key = Key::new();
    let mut last = None;
    for member in sorted {
        let next = key_of(member);
        if last != Some(next) {
            key.put(next);
            last = Some(next);
        }
    }
    key.finish()
}

fn key_of_idents(idents: &List<Ident<'_>>) -> u128 {
    if let Some(places) = idents.places(Level::Full) {
        return key_of_set(&places.sorted, |(key, _)| *key);
    }
    let idents = idents.as_slice();
    let mut keys = [0; FEW];
    for (key, ident) in keys.iter_mut().zip(idents) {
        *key = ident.key(Level::Full);
    }
    let keys = &mut keys[..idents.len().min(FEW)];
    keys.sort_unstable();
    key_of_set(keys, |key| *key)
}

// A place that no list has.
const NOWHERE: usize = usize::MAX;

// Where the members of a list are, by their keys at one level.
#[derive(Drop)]
pub(crate) struct Places {
    // The keys of the members, in order.
    keys: Vec<u128>,
    // Each of these keys with its member's place, ascending.
    sorted: Vec<(u128, usize)>,
}

impl Places {
    pub(crate) fn of<T: Keyed>(alloc: Global, members: &[T], level: Level) -> Made<Places> {
        let mut keys = Vec::with_capacity(alloc, members.len())?;
        let mut sorted = Vec::with_capacity(alloc, members.len())?;
        for (place, member) in members.iter().enumerate() {
            let key = member.key(level);
            keys.push(key)?;
            sorted.push((key, place))?;
        }
        sorted.sort_unstable();
        Ok(Places { keys, sorted })
    }

    // How many keys there are.
    pub(crate) fn count_of_keys(&self) -> usize {
        self.sorted.chunk_by(|(a, _), (b, _)| a == b).count()
    }

    // The last place before this one that has its key.
    pub(crate) fn before_of(&self, at: usize) -> usize {
        match self.keys.get(at) {
            Some(key) => self.place(self.rank(*key, at).wrapping_sub(1), *key),
            None => NOWHERE,
        }
    }

    // How many entries are less than this one.
    fn rank(&self, key: u128, place: usize) -> usize {
        self.sorted.partition_point(|(other, at)| *other < key || (*other == key && *at < place))
    }

    // The place in the entry of this rank, if it is of this key.
    fn place(&self, rank: usize, key: u128) -> usize {
        match self.sorted.get(rank) {
            Some((other, at)) if *other == key => *at,
            _ => NOWHERE,
        }
    }
}

/// Where a counterpart of a member of a list may be, one that is the same. No promise rests on it. Profile.
#[derive(Clone, Copy)]
pub struct CounterpartHint {
    /// Among the other list's members, the first place of its key; past the end where there is none.
    pub other: usize,
    /// Before it in its own list, the last place of its key; past the end where there is none.
    pub before: usize,
}

/// Where the members of one list may have counterparts in another, by keys. No promise rests on it. Profile.
#[derive(Clone, Copy)]
pub struct CounterpartHints<'b> {
    // Where the members of the list are, and those of the other.
    pub(crate) places: Option<(&'b Places, &'b Places)>,
}

impl<'b> CounterpartHints<'b> {
    /// No hint for any member.
    pub fn none() -> CounterpartHints<'b> {
        CounterpartHints { places: None }
    }

    /// The hints for the other list's members.
    pub fn turned(self) -> CounterpartHints<'b> {
        CounterpartHints {
            places: self.places.map(|(own, others)| (others, own)),
        }
    }

    /// The hint for the member at this place.
    pub fn of(self, at: usize) -> CounterpartHint {
        match self.places {
            Some((own, others)) => CounterpartHint {
                other: match own.keys.get(at) {
                    Some(key) => others.place(others.rank(*key, 0), *key),
                    None => NOWHERE,
                },
                before: own.before_of(at),
            },
            None => CounterpartHint {
                other: NOWHERE,
                before: NOWHERE,
            },
        }
    }
}
