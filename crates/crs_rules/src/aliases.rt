//! Names and units that count as others, kinds of parameters, and where they are looked for.
ghost use Rattle.std.specs.Prelude.{◌≡◌, ◌++◌, [], ◌∷◌, List, OnErr, OnOk, drop, length, take, ℕ};
ghost use Rattle.std.specs.Option.{option_copied};
ghost use Rattle.std.specs.Str.{bytes_eq};
ghost use Rattle.crs_decimal.specs.Numbers.{plain};
ghost use Rattle.crs_value.specs.Sound.{Each, IsText};
ghost use Rattle.crs_shape.specs.declared.class.Class.TheVariants as classes;
ghost use Rattle.crs_rules.specs.inner.Firsts.{AreFound, IsNoted, name_digest, place_of, unit_digest};
ghost use Rattle.crs_rules.specs.Rules.{NameAliasParts, UnitAliasParts, first_name, first_that, is_name_alias, is_unit_alias};
ghost use Rattle.crs_rules.specs.Rules.{IsNameAlias, IsUnitAlias, ParameterKindParts, declared_kind};

use crs_decimal::Decimal;
use crs_decimal::laws::{denotes_one, normal_is_one, plain_is_the_one};
use crs_shape::Class;
use crs_value::{Unit, UnitKind};
use indexmap::IndexMap;
use std::alloc::{AllocError, Global};
use std::hash::{DefaultHasher, Hasher};
use std::marker::Model;

// Up to so many aliases are compared one by one, which takes less time than a digest.
const FEW: usize = 128;

// A name of nodes of a class that counts as another name, which is written for it.
#[derive(Drop)]
pub(crate) struct NameAlias {
    pub(crate) class: Class,
    pub(crate) alias: Vec<u8>,
    pub(crate) name: Vec<u8>,
}

impl Model for NameAlias {
    ghost Value = { NameAliasParts };

    ghost view = { λ a. record { class = a.class; alias = a.alias.items; name = a.name.items } };

    ghost invariant = { λ a. IsNameAlias (view a) };
}

// A name and a factor of units of a kind that count as another name and factor, which are written for them.
#[derive(Drop)]
pub(crate) struct UnitAlias {
    pub(crate) kind: UnitKind,
    pub(crate) alias: Vec<u8>,
    pub(crate) alias_factor: Decimal,
    pub(crate) name: Vec<u8>,
    pub(crate) factor: Decimal,
}

impl Model for UnitAlias {
    ghost Value = { UnitAliasParts };

    ghost view = { λ a. record {
      kind = a.kind;
      alias = a.alias.items;
      alias_factor = a.alias_factor;
      name = a.name.items;
      factor = a.factor;
    } };

    ghost invariant = { λ a. IsUnitAlias (view a) };
}

// A name of parameters whose numbers are of a kind.
#[derive(Drop)]
pub(crate) struct ParameterKind {
    pub(crate) name: Vec<u8>,
    pub(crate) kind: UnitKind,
}

impl Model for ParameterKind {
    ghost Value = { ParameterKindParts };

    ghost view = { λ k. record { name = k.name.items; kind = k.kind } };
}

// What is behind a place.
fn rest_of<T>(items: &[T], from: usize) -> &[T]
    ensures { result.now ≡ drop from items.now }
{
    items.get(from..).unwrap_or(&[])
}

// What is looked for by a digest.
pub(crate) trait Alias: Sized + Drop {
    ghost digest: { Self → ℕ };

    fn digest(&self) -> u64
        ensures { result ≡ digest self.now };
}

impl Alias for NameAlias {
    ghost digest = { λ a. name_digest a.class a.alias };

    fn digest(&self) -> u64 {
        name_digest(self.class, self.alias.as_slice())
    }
}

impl Alias for UnitAlias {
    ghost digest = { λ a. unit_digest a.alias a.alias_factor.digits };

    fn digest(&self) -> u64 {
        unit_digest(self.alias.as_slice(), self.alias_factor.digits())
    }
}

impl Alias for ParameterKind {
    ghost digest = { λ k. name_digest classes.Parameter k.name };

    fn digest(&self) -> u64 {
        name_digest(Class::Parameter, self.name.as_slice())
    }
}

fn place(firsts: &IndexMap<u64, usize>, digest: u64) -> Option<usize>
    ensures { result ≡ place_of firsts.now.entries digest }
{
    firsts.get(&digest).copied()
}

// Notes that an alias with this digest is at this place. Out of memory, all is as before.
fn note(firsts: &mut IndexMap<u64, usize>, digest: u64, at: usize) -> Result<(), AllocError>
    ensures noted { OnOk result (IsNoted digest at firsts.old.entries firsts.new.entries) }
    ensures unchanged { OnErr result (firsts.new.entries ≡ firsts.old.entries) }
{
    if place(firsts, digest).is_some_and(|first| first <= at) {
        return Ok(());
    }
    firsts.insert(digest, at)?;
    Ok(())
}

// Aliases, in the order in which they were added. For each digest a place is kept before which no alias has it. What
// stands there is compared, so no answer rests on a digest.
#[derive(Drop)]
pub(crate) struct Aliases<A: Alias> {
    aliases: Vec<A>,
    firsts: IndexMap<u64, usize>,
}

impl<A: Alias> Model for Aliases<A> {
    ghost Value = { List A };

    ghost view = { λ known. known.aliases.items };

    ghost invariant = { λ known. AreFound A.digest known.firsts.entries 0 known.aliases.items };
}

impl<A: Alias> Aliases<A> {
    // No aliases. They take no memory.
    pub(crate) fn new(alloc: Global) -> Aliases<A>
        ensures { result ≡ [] }
    {
        let (aliases, firsts) = (Vec::new(alloc), IndexMap::new(alloc));
        Aliases { aliases, firsts }
    }

    pub(crate) fn len(&self) -> usize
        ensures { result ≡ length self.now }
    {
        self.aliases.len()
    }

    // A further alias. Out of memory, all is as before.
    pub(crate) fn push(&mut self, alias: A) -> Result<(), AllocError>
        ensures ok { OnOk result (self.new ≡ self.old ++ alias ∷ []) }
        ensures err { OnErr result (self.new ≡ self.old) }
    {
        let digest = alias.digest();
        let at = self.len();
        note(&mut self.firsts, digest, at)?;
        self.aliases.push(alias)?;
        Ok(())
    }

    // Keeps the first `count` aliases, and forgets the rest.
    pub(crate) fn truncate(&mut self, count: usize)
        ensures { self.new ≡ take count self.old }
    {
        self.aliases.truncate(count);
    }
}

// ---- names

fn name_digest(class: Class, name: &[u8]) -> u64
    ensures { result ≡ name_digest class name.now }
{
    let mut hasher = DefaultHasher::new();
    hasher.write(name);
    hasher.write_u64(class as u64);
    hasher.finish()
}

// The first of these aliases that a name of a node of this class is.
fn name_alias_among<'a>(
    aliases: &'a [NameAlias],
    class: Class,
    name: &[u8],
) -> Option<&'a NameAlias>
    ensures { option_copied result ≡ first_that (is_name_alias class name.now) aliases.now }
{
    for alias in aliases {
        if alias.class == class && name == alias.alias.as_slice() {
            return Some(alias);
        }
    }
    None
}

// The alias that a name of a node of this class is.
fn name_alias<'a>(names: &'a Aliases<NameAlias>, class: Class, name: &[u8]) -> Option<&'a NameAlias>
    ensures { option_copied result ≡ first_that (is_name_alias class name.now) names.now }
{
    if names.aliases.len() <= FEW {
        return name_alias_among(names.aliases.as_slice(), class, name);
    }
    match place(&names.firsts, name_digest(class, name)) {
        None => None,
        Some(first) => name_alias_among(rest_of(names.aliases.as_slice(), first), class, name),
    }
}

// The name that is written for a name of a node of this class.
pub(crate) fn first_name<'a>(
    names: &'a Aliases<NameAlias>,
    class: Class,
    name: &'a [u8],
) -> &'a [u8]
    requires { IsText name.now }
    ensures name { result.now ≡ first_name names.now class name.now }
    ensures text { IsText result.now }
{
    match name_alias(names, class, name) {
        None => name,
        Some(alias) => alias.name.as_slice(),
    }
}

// ---- kinds of parameters

fn kind_among(kinds: &[ParameterKind], name: &[u8]) -> UnitKind
    ensures { result ≡ declared_kind kinds.now name.now }
{
    for declared in kinds {
        if name == declared.name.as_slice() {
            return declared.kind;
        }
    }
    UnitKind::Plain
}

fn known_kind(kinds: &Aliases<ParameterKind>, name: &[u8]) -> UnitKind
    ensures { result ≡ declared_kind kinds.now name.now }
{
    if kinds.aliases.len() <= FEW {
        return kind_among(kinds.aliases.as_slice(), name);
    }
    match place(&kinds.firsts, name_digest(Class::Parameter, name)) {
        None => UnitKind::Plain,
        Some(first) => kind_among(rest_of(kinds.aliases.as_slice(), first), name),
    }
}

// Kinds of parameters, behind a pointer: what holds rules in C has no room for another look-up.
#[derive(Drop)]
pub(crate) struct Kinds {
    known: Option<Box<Aliases<ParameterKind>>>,
}

impl Model for Kinds {
    ghost use Rattle.std.specs.Prelude.{List};
    ghost use Rattle.crs_rules.specs.Rules.{ParameterKindParts};
    ghost use Rattle.crs_rules.specs.inner.Firsts.{held};

    ghost Value = { List ParameterKindParts };

    ghost view = { λ kinds. held (λ known. known.value) kinds.known };
}

impl Kinds {
    // No kinds. They take no memory.
    pub(crate) fn new() -> Kinds
        ensures { result ≡ [] }
    {
        Kinds { known: None }
    }

    pub(crate) fn len(&self) -> usize
        ensures { result ≡ length self.now }
    {
        match &self.known {
            None => 0,
            Some(known) => known.len(),
        }
    }

    // A further kind. Out of memory, all is as before.
    pub(crate) fn push(&mut self, alloc: Global, kind: ParameterKind) -> Result<(), AllocError>
        ensures ok { OnOk result (self.new ≡ self.old ++ kind ∷ []) }
        ensures err { OnErr result (self.new ≡ self.old) }
    {
        match &mut self.known {
            None => {
                let mut known = Aliases::new(alloc);
                known.push(kind)?;
                self.known = Some(Box::new(alloc, known)?);
                Ok(())
            }
            Some(known) => known.push(kind),
        }
    }

    // Keeps the first `count` kinds, and forgets the rest.
    pub(crate) fn truncate(&mut self, count: usize)
        ensures { self.new ≡ take count self.old }
    {
        if let Some(known) = &mut self.known {
            known.truncate(count);
        }
    }

    // The kind of the numbers of parameters of this name; the plain one where none is declared.
    pub(crate) fn of(&self, name: &[u8]) -> UnitKind
        ensures { result ≡ declared_kind self.now name.now }
    {
        match &self.known {
            None => UnitKind::Plain,
            Some(known) => known_kind(known, name),
        }
    }
}

// ---- units

fn unit_digest(name: &[u8], digits: u128) -> u64
    ensures { result ≡ unit_digest name.now digits }
{
    let mut hasher = DefaultHasher::new();
    hasher.write(name);
    hasher.write_u128(digits);
    hasher.finish()
}

fn has_factor(unit: &Unit<'_>, alias: &UnitAlias) -> bool
    ensures { result ≡ bytes_eq (plain unit.now.factor) (plain alias.now.alias_factor) }
{
    denotes_one();
    normal_is_one();
    plain_is_the_one();
    unit.factor.same_number(&alias.alias_factor)
}

fn is_unit_alias(unit: &Unit<'_>, alias: &UnitAlias) -> bool
    ensures { result ≡ is_unit_alias unit.now alias.now }
{
    unit.kind == alias.kind && unit.name == alias.alias.as_slice() && has_factor(unit, alias)
}

// The first of these aliases that a unit is.
fn unit_alias_among<'a>(aliases: &'a [UnitAlias], unit: &Unit<'_>) -> Option<&'a UnitAlias>
    ensures { option_copied result ≡ first_that (is_unit_alias unit.now) aliases.now }
{
    for alias in aliases {
        if is_unit_alias(unit, alias) {
            return Some(alias);
        }
    }
    None
}

// The alias that a unit is.
pub(crate) fn unit_alias<'a>(
    units: &'a Aliases<UnitAlias>,
    unit: &Unit<'_>,
) -> Option<&'a UnitAlias>
    requires { Each IsUnitAlias units.now }
    ensures { option_copied result ≡ first_that (is_unit_alias unit.now) units.now }
{
    if units.aliases.len() <= FEW {
        return unit_alias_among(units.aliases.as_slice(), unit);
    }
    denotes_one();
    normal_is_one();
    plain_is_the_one();
    match place(&units.firsts, unit_digest(unit.name, unit.factor.digits())) {
        None => None,
        Some(first) => unit_alias_among(rest_of(units.aliases.as_slice(), first), unit),
    }
}
