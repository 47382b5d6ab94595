//! Values that are spelled, and parts of nodes: of a value, or read from an item. Of each part it is
//! known which values it may say, and the text of any of them is what is appended.
ghost use Rattle.std.specs.Prelude.{◌≡◌, ◌∷◌, ◌++◌, [], List, OnOk, Option, Some, ℕ};
ghost use Rattle.crs_decimal.specs.Numbers.{plain, Value};
ghost use Rattle.crs_text.specs.Items.{End};
ghost use Rattle.crs_text.specs.Written.{item_text, others_text};
ghost use Rattle.crs_value.specs.Values.{IdentParts, UnitParts};
ghost use Rattle.crs_value.specs.declared.values.level.Level.{Level};
ghost use Rattle.crs_normal.specs.inner.SpelledFrames.{is_zero};
ghost use Rattle.crs_normal.specs.inner.SpelledItems.{each, item_ident, item_unit, norm_unit, set_idents, whole_value};
ghost use Rattle.crs_writer.specs.inner.FromItems.{IsNumber, SaysIfAny, Writes};
ghost use Rattle.crs_writer.specs.inner.Parts.{number_behind, opt_text};

use crate::{append, decimal_of, open_number, write_raw, write_whole};
use crs_decimal::Decimal;
use crs_value::{Level, UnitKind};
use std::alloc::AllocError;

// The answer of what appends. `AllocError`: there is no memory for it.
pub(crate) type Appended = Result<(), AllocError>;

/// A value whose spelling is appended piece by piece. Profile.
pub trait Spell: Sized {
    /// The spelling of a value.
    ghost spelling: { Level → Self → List ℕ };

    /// Appends the spelling of the value. `AllocError`: there is no memory for it, and `out` may have anything.
    fn spell(&self, out: &mut Vec<u8>, level: Level) -> Result<(), AllocError>
        ensures { OnOk result (out.new.items ≡ out.old.items ++ spelling level self.now) };
}

/// A number: a decimal, its bytes, or a position. Profile.
pub trait NumberPart: Copy {
    /// The decimals that it may be: one, but where bytes spell none.
    ghost Says: { Self → Value → Type 0 };

    /// Appends an opening, or a comma, and the number. `AllocError`: there is no memory for them.
    fn open(&self, out: &mut Vec<u8>, opening: &[u8]) -> Appended
        ensures { OnOk result (Writes (Says self.now) (λ v. opening.now ++ plain v) out.old.items out.new.items) };

    /// Whether it is 0.
    fn is_zero(&self) -> bool
        ensures { (value : Value) → Says self.now value → result ≡ is_zero value };
}

/// The identifiers of a node. Profile.
pub trait IdentsPart: Copy {
    /// What they are.
    ghost Says: { Self → List IdentParts → Type 0 };

    /// Appends those that the level keeps, a comma before each. `AllocError`: there is no memory for them.
    fn put(&self, out: &mut Vec<u8>, level: Level) -> Appended
        ensures { OnOk result (Writes (Says self.now) (λ ids. others_text (each item_ident (set_idents level ids) End))
            out.old.items out.new.items) };
}

/// A unit. Profile.
pub trait UnitPart: Copy {
    /// What it is.
    ghost Says: { Self → UnitParts → Type 0 };

    /// Appends it after a comma, where this kind is asked: `UNIT` counts as that kind. `AllocError`: no memory for it.
    fn put(&self, out: &mut Vec<u8>, asked: UnitKind, level: Level) -> Appended
        ensures { OnOk result (Writes (Says self.now) (λ u. 44 ∷ item_text (item_unit (norm_unit level asked u)))
            out.old.items out.new.items) };
}

/// A value that is a part of a node, or the item that it is read from. Profile.
pub trait ValuePart<T: Spell>: Copy {
    /// The values that it may be.
    ghost Says: { Self → T → Type 0 };

    /// Appends it after a comma. `AllocError`: there is no memory for it.
    fn put(&self, out: &mut Vec<u8>, level: Level) -> Appended
        ensures { OnOk result (Writes (Says self.now) (λ v. 44 ∷ T.spelling level v) out.old.items out.new.items) };
}

impl<'b> NumberPart for &'b Decimal {
    ghost Says = { λ s v. v ≡ s.now };

    #[inline(always)]
    fn open(&self, out: &mut Vec<u8>, opening: &[u8]) -> Appended {
        open_number(out, opening, *self)
    }

    fn is_zero(&self) -> bool {
        Decimal::is_zero(*self)
    }
}

// As the bytes spell it.
impl<'b> NumberPart for &'b [u8] {
    ghost Says = { λ s v. IsNumber s.now v };

    #[inline(always)]
    fn open(&self, out: &mut Vec<u8>, opening: &[u8]) -> Appended {
        append(out, opening)?;
        write_raw(out, *self)
    }

    fn is_zero(&self) -> bool {
        match decimal_of(*self) {
            None => false,
            Some(value) => value.is_zero(),
        }
    }
}

// A position.
impl NumberPart for u64 {
    ghost Says = { λ n v. v ≡ whole_value n };

    #[inline(always)]
    fn open(&self, out: &mut Vec<u8>, opening: &[u8]) -> Appended {
        append(out, opening)?;
        write_whole(out, *self)
    }

    fn is_zero(&self) -> bool {
        *self == 0
    }
}

// A comma, and a node.
pub(crate) fn write_part<T: Spell>(out: &mut Vec<u8>, node: &T, level: Level) -> Appended
    ensures { OnOk result (out.new.items ≡ out.old.items ++ 44 ∷ T.spelling level node.now) }
{
    append(out, b",")?;
    node.spell(out, level)
}

impl<'b, T: Spell> ValuePart<T> for &'b T {
    ghost Says = { λ s v. v ≡ s.now };

    #[inline(always)]
    fn put(&self, out: &mut Vec<u8>, level: Level) -> Appended {
        write_part(out, *self, level)
    }
}

// A part that must be there: where it isn't, no value is one.
impl<T: Spell, P: ValuePart<T>> ValuePart<T> for Option<P> {
    ghost Says = { λ part v. SaysIfAny P.Says part (Some v) };

    #[inline(always)]
    fn put(&self, out: &mut Vec<u8>, level: Level) -> Appended {
        match self {
            None => Ok(()),
            Some(part) => part.put(out, level),
        }
    }
}

// A part that may be missing.
#[inline(always)]
pub(crate) fn write_optional<T: Spell, P: ValuePart<T>>(
    out: &mut Vec<u8>,
    part: Option<P>,
    level: Level,
) -> Appended
    ensures { OnOk result (Writes (SaysIfAny P.Says part) (opt_text (T.spelling level)) out.old.items out.new.items) }
{
    match part {
        None => Ok(()),
        Some(part) => part.put(out, level),
    }
}

// A node of one number inside another, after its opening.
#[inline(always)]
pub(crate) fn write_number_node<N: NumberPart>(
    out: &mut Vec<u8>,
    opening: &[u8],
    number: N,
) -> Appended
    ensures { OnOk result (Writes (N.Says number) (λ v. opening.now ++ (plain v ++ 93 ∷ [])) out.old.items out.new.items) }
{
    number.open(out, opening)?;
    append(out, b"]")
}

// A node of one number that may be missing, after its opening.
#[inline(always)]
pub(crate) fn write_optional_number<N: NumberPart>(
    out: &mut Vec<u8>,
    opening: &[u8],
    number: Option<N>,
) -> Appended
    ensures { OnOk result (Writes (SaysIfAny N.Says number) (number_behind opening.now) out.old.items out.new.items) }
{
    match number {
        None => Ok(()),
        Some(number) => write_number_node(out, opening, number),
    }
}
