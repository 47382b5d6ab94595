//! The canonical text of a text that spells a CRS.
ghost use Rattle.std.specs.Prelude.{◌≡◌, [], IfOk, MatchResult, Some};
ghost use Rattle.crs_shape.specs.ShapeFault.{class_of_root};
ghost use Rattle.crs_value.specs.Spells.{SpellsCrs, IsFaultOfText};
ghost use Rattle.crs_value.specs.declared.values.crs.Crs.{Crs};
ghost use Rattle.crs_writer.specs.inner.FromItems.{IsRead};
ghost use Rattle.crs_writer.specs.Canonical.{IsCanonicalOf, IsCanonicalText};

use crate::canon_text::canon_from;
use crate::laws::crss_are_canonical;
use crate::spelling::crs::write_crs;
use crate::{Canon, Node};
use crs_shape::Class;
use crs_text::{Fault, Items, read_items};
use crs_value::laws::spelled_is_sound;
use crs_value::{Level, judge};
use std::alloc::{AllocError, Global};
use std::mem;

/// The canonical text, at a level, of the CRS that a text spells: it is normal, accepted, and spells a CRS that is the
/// same. Two answers at one level have equal bytes exactly where the two texts spell the same CRS
/// (`crs_canon::laws::answers_are_equal_where_same`).
///
/// `Refused`: the text spells no CRS; number and place are as `read` gives them. `Memory`: there is no memory for it. Profile.
pub fn canon(alloc: Global, text: &[u8], level: Level) -> Result<Canon, Fault>
    ensures answer { MatchResult result (λ canon. IsCanonicalOf level text.now canon.bytes) (IsFaultOfText text.now) }
    ensures level { IfOk result (λ canon. canon.level ≡ level) }
{
    let mut room = Vec::new(alloc);
    let canon = canon_in(alloc, text, level, &mut room)?;
    Ok(canon.without_spare_room())
}

/// As `canon`, in the memory of `room` where that has no bytes: `Canon::into_bytes` gives it back, to be cleared for the
/// next text. So many texts, one after the other, need no further memory for their canonical texts. Whatever the answer,
/// `room` has the bytes that it had. Profile.
pub fn canon_in(
    alloc: Global,
    text: &[u8],
    level: Level,
    room: &mut Vec<u8>,
) -> Result<Canon, Fault>
    ensures answer { MatchResult result (λ canon. IsCanonicalOf level text.now canon.bytes) (IsFaultOfText text.now) }
    ensures level { IfOk result (λ canon. canon.level ≡ level) }
    ensures room { room.new.items ≡ room.old.items }
{
    let items = read_items(alloc, text)?;
    match judge(&items) {
        Ok(class) => match written_from(taken(alloc, room), &items, class, level, text.len()) {
            Ok(canon) => Ok(canon),
            Err(error) => Err(Fault::Memory(error)),
        },
        Err(refusal) => Err(Fault::Refused(refusal)),
    }
}

// The memory of a vector that has no bytes; beside one that has some, an empty vector.
fn taken(alloc: Global, room: &mut Vec<u8>) -> Vec<u8>
    ensures empty { result.items ≡ [] }
    ensures room { room.new.items ≡ room.old.items }
{
    let empty = Vec::new(alloc);
    if room.is_empty() {
        mem::replace(room, empty)
    } else {
        empty
    }
}

// The canonical text of the CRS of this class that items spell, in an empty vector, at first with this room.
fn written_from(
    mut bytes: Vec<u8>,
    items: &Items<'_>,
    class: Class,
    level: Level,
    room: usize,
) -> Result<Canon, AllocError>
    requires empty { bytes.items ≡ [] }
    requires spells { IsRead (SpellsCrs items.now) }
    requires class { class_of_root items.now ≡ Some class }
    ensures text { IfOk result (λ canon. (crs : Crs) → SpellsCrs items.now crs → IsCanonicalText level crs canon.bytes) }
    ensures level { IfOk result (λ canon. canon.level ≡ level) }
{
    let id = items.root();
    items.formed(id);
    spelled_is_sound();
    crss_are_canonical();
    bytes.reserve(room)?;
    let node = Node { items, id, class };
    write_crs(&node, &mut bytes, level)?;
    Ok(canon_from(bytes, level))
}
