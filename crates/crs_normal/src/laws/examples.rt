//! The definition of normal texts on worked examples.
ghost use Rattle.crs_normal.specs.inner.Examples.{AreNormal, AreNormalAtFullAlone, AreNormalByDefinition, DynamicsWrittenOtherwise, NameAloneIsNormal, GeographicsWrittenOtherwise, HeightsWrittenOtherwise};

use crate::laws::lower::lower_laws;

/// Some texts are normal, one of them spells no CRS; texts that differ from one of them in a point aren't. Some are
/// normal at level `definition`; with an identifier, a usage or a remark they are normal only at level `full`.
pub fn worked_examples()
    ensures normal { AreNormal }
    ensures beyond { NameAloneIsNormal }
    ensures by_definition { AreNormalByDefinition }
    ensures at_full_alone { AreNormalAtFullAlone }
    ensures heights { HeightsWrittenOtherwise }
    ensures geographics { GeographicsWrittenOtherwise }
    ensures dynamics { DynamicsWrittenOtherwise }
{
    lower_laws();
}
