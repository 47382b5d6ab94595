//! Rules.
ghost use Rattle.std.specs.Prelude.{◌≡◌, ◌++◌, ◌∷◌, [], IsTrue, OnErr, OnOk, length, take};
ghost use Rattle.crs_value.specs.Checks.{IsAboveZero};
ghost use Rattle.crs_value.specs.Sound.{IsText};
ghost use Rattle.crs_rules.specs.Rules.{no_rules, RulesParts, AreRules};
ghost use Rattle.crs_rules.specs.inner.AnyOrder.{axes_in_any_order};

use crate::aliases::{Aliases, Kinds, NameAlias, ParameterKind, UnitAlias};
use crate::file::member::Member;
use crate::uncounted::Uncounted;
use crs_value::{Level, UnitKind};
use std::alloc::{AllocError, Global};
use std::marker::Model;

/// Rules: names and units that count as others, what doesn't count, and the kinds of parameters.
#[derive(Drop)]
pub struct Rules {
    pub(crate) names: Aliases<NameAlias>,
    pub(crate) units: Aliases<UnitAlias>,
    pub(crate) uncounted: Uncounted,
    pub(crate) kinds: Kinds,
}

impl Model for Rules {
    ghost Value = { RulesParts };

    ghost view = { λ r. record { names = r.names; units = r.units; uncounted = r.uncounted; kinds = r.kinds } };

    ghost invariant = { λ r. AreRules (view r) };
}

/// Rules, and the level at which texts have forms under them.
#[derive(Clone, Copy)]
pub struct Under<'r> {
    /// The level.
    pub level: Level,
    /// The rules.
    pub rules: &'r Rules,
}

impl Rules {
    /// No rules: everything counts. They take no memory.
    pub fn new(alloc: Global) -> Rules
        ensures { result ≡ no_rules }
    {
        Rules {
            names: Aliases::new(alloc),
            units: Aliases::new(alloc),
            uncounted: Uncounted::default(),
            kinds: Kinds::new(),
        }
    }

    // Whether these rules say that the order of axes doesn't count, and nothing else.
    pub(crate) fn are_axes_in_any_order(&self) -> bool
        ensures { IsTrue result → self.now ≡ axes_in_any_order }
    {
        let uncounted = Uncounted {
            axis_order: true,
            ..Uncounted::default()
        };
        self.uncounted == uncounted
            && self.names.len() == 0
            && self.units.len() == 0
            && self.kinds.len() == 0
    }

    /// What doesn't count.
    pub fn uncounted(&self) -> Uncounted
        ensures { result ≡ self.now.uncounted }
    {
        self.uncounted
    }

    /// Sets what doesn't count.
    pub fn set_uncounted(&mut self, uncounted: Uncounted)
        ensures { self.new ≡ record self.old { uncounted = uncounted } }
    {
        self.uncounted = uncounted;
    }

    /// The name of a node counts as the other's, which is written for it. If two have one alias, the first holds.
    ///
    /// `AllocError`: there is no memory for it, and the rules are as before.
    pub fn alias_name(
        &mut self,
        alloc: Global,
        alias: &Member<'_>,
        other: &Member<'_>,
    ) -> Result<(), AllocError>
        requires { IsText other.now.name }
        ensures ok { OnOk result (self.new ≡ record self.old {
          names = self.old.names ++ record { class = alias.now.class; alias = alias.now.name; name = other.now.name } ∷ [];
        }) }
        ensures err { OnErr result (self.new ≡ self.old) }
    {
        let class = alias.class;
        let alias = Vec::from_slice(alloc, alias.name)?;
        let name = Vec::from_slice(alloc, other.name)?;
        self.names.push(NameAlias { class, alias, name })?;
        Ok(())
    }

    /// A unit of this kind counts as the other, whose name and factor are written for it; of one alias the first holds.
    ///
    /// `AllocError`: there is no memory for it, and the rules are as before.
    pub fn alias_unit(
        &mut self,
        alloc: Global,
        kind: UnitKind,
        alias: &Member<'_>,
        other: &Member<'_>,
    ) -> Result<(), AllocError>
        requires text { IsText other.now.name }
        requires above_zero { IsAboveZero other.now.factor }
        ensures ok { OnOk result (self.new ≡ record self.old {
          units = self.old.units ++ record {
            kind = kind;
            alias = alias.now.name;
            alias_factor = alias.now.factor;
            name = other.now.name;
            factor = other.now.factor;
          } ∷ [];
        }) }
        ensures err { OnErr result (self.new ≡ self.old) }
    {
        // Asks the factors so that their invariants are known.
        let _normal = (alias.factor.is_negative(), other.factor.is_negative());
        let alias_name = Vec::from_slice(alloc, alias.name)?;
        let name = Vec::from_slice(alloc, other.name)?;
        self.units.push(UnitAlias {
            kind,
            alias: alias_name,
            alias_factor: alias.factor,
            name,
            factor: other.factor,
        })?;
        Ok(())
    }

    /// Numbers of parameters of this name are of this kind. If two have one name, the first holds.
    ///
    /// `AllocError`: there is no memory for it, and the rules are as before.
    pub fn declare_kind(
        &mut self,
        alloc: Global,
        name: &[u8],
        kind: UnitKind,
    ) -> Result<(), AllocError>
        ensures ok { OnOk result (self.new ≡ record self.old {
          kinds = self.old.kinds ++ record { name = name.now; kind = kind } ∷ [];
        }) }
        ensures err { OnErr result (self.new ≡ self.old) }
    {
        let name = Vec::from_slice(alloc, name)?;
        self.kinds.push(alloc, ParameterKind { name, kind })?;
        Ok(())
    }

    /// How many names count as others.
    pub fn names(&self) -> usize
        ensures { result ≡ length self.now.names }
    {
        self.names.len()
    }

    /// How many units count as others.
    pub fn units(&self) -> usize
        ensures { result ≡ length self.now.units }
    {
        self.units.len()
    }

    /// How many names have a kind.
    pub fn kinds(&self) -> usize
        ensures { result ≡ length self.now.kinds }
    {
        self.kinds.len()
    }

    /// Keeps so many names, units and kinds, the first ones, and forgets the rest.
    pub fn truncate(&mut self, names: usize, units: usize, kinds: usize)
        ensures { self.new ≡ record self.old {
          names = take names self.old.names;
          units = take units self.old.units;
          kinds = take kinds self.old.kinds;
        } }
    {
        self.names.truncate(names);
        self.units.truncate(units);
        self.kinds.truncate(kinds);
    }
}
