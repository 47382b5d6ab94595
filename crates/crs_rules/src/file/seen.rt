//! The nodes that stand in the sets so far.
ghost use Rattle.std.specs.Prelude.{◌≡◌, [], IfOk, OnErr, length, take};
ghost use Rattle.std.specs.Cmp.{partial_equiv_from_equiv};
ghost use Rattle.crs_rules.specs.Rules.{factors_equal};
ghost use Rattle.crs_rules.specs.inner.Equality.{digest_of, member_writes, members_equal};
ghost use Rattle.crs_rules.specs.inner.EqualityLaws.{members-equivalence, members-hash};
ghost use Rattle.crs_rules.specs.inner.AddedNodes.{IsAdded};

use crate::file::member::Member;
use crs_decimal::Decimal;
use crs_shape::Class;
use indexmap::IndexSet;
use std::alloc::{AllocError, Global};
use std::hash::{DefaultHasher, Hash, Hasher};
use std::marker::Model;

// A member that owns its name.
#[derive(Drop)]
struct Key {
    class: Class,
    name: Vec<u8>,
    factor: Decimal,
}

impl Model for Key {
    ghost use Rattle.crs_rules.specs.Members.{MemberParts};

    ghost Value = { MemberParts };

    ghost view = { λ key. record { class = key.class; name = key.name.items; factor = key.factor } };
}

impl PartialEq for Key {
    ghost eq = { members_equal };

    ghost laws = { partial_equiv_from_equiv members-equivalence };

    fn eq(&self, other: &Key) -> bool {
        self.class == other.class
            && self.name.as_slice() == other.name.as_slice()
            && same_factor(&self.factor, &other.factor)
    }
}

impl Eq for Key {
    ghost laws = { members-equivalence };
}

impl Hash for Key {
    ghost hash_input = { member_writes };

    ghost respects_eq = { members-hash };

    // A digest, since words that lead a map's hasher to one state are found; the factor's power, of few, isn't in it.
    fn hash<H: Hasher>(&self, state: &mut H) {
        state.write_u64(digest(&self.name, self.factor.digits()));
    }
}

pub(crate) fn same_factor(a: &Decimal, b: &Decimal) -> bool
    ensures { result ≡ factors_equal a.now b.now }
{
    a.is_negative() == b.is_negative() && a.digits() == b.digits() && a.power() == b.power()
}

fn digest(name: &[u8], digits: u128) -> u64
    ensures { result ≡ digest_of name.now digits }
{
    let mut hasher = DefaultHasher::new();
    hasher.write(name);
    hasher.write_u128(digits);
    hasher.finish()
}

fn key_of(alloc: Global, member: &Member<'_>) -> Result<Key, AllocError>
    ensures { IfOk result (λ key. key ≡ member.now) }
{
    Ok(Key {
        class: member.class,
        name: Vec::from_slice(alloc, member.name)?,
        factor: member.factor,
    })
}

#[derive(Drop)]
pub(crate) struct Seen {
    keys: IndexSet<Key>,
}

impl Model for Seen {
    ghost use Rattle.std.specs.Prelude.{List};
    ghost use Rattle.crs_rules.specs.Members.{MemberParts};

    ghost Value = { List MemberParts };

    ghost view = { λ seen. seen.keys.keys };
}

impl Seen {
    // No nodes. They take no memory.
    pub(crate) fn new(alloc: Global) -> Seen
        ensures { result ≡ [] }
    {
        let keys = IndexSet::new(alloc);
        Seen { keys }
    }

    pub(crate) fn len(&self) -> usize
        ensures { result ≡ length self.now }
    {
        self.keys.len()
    }

    // Keeps the first `count` nodes, and forgets the rest.
    pub(crate) fn truncate(&mut self, count: usize)
        ensures { self.new ≡ take count self.old }
    {
        self.keys.truncate(count);
    }

    // Adds a node, if it isn't among them; whether it was added. Out of memory, all is as before.
    pub(crate) fn add(&mut self, alloc: Global, member: &Member<'_>) -> Result<bool, AllocError>
        ensures added { IfOk result (λ new. IsAdded self.old member.now new self.new) }
        ensures unchanged { OnErr result (self.new ≡ self.old) }
    {
        Ok(self.keys.insert(key_of(alloc, member)?)?)
    }
}
