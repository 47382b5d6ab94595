//! Laws of nodes within a CRS: an item is read as one value at most, a sound one as a value that meets what is asked.
ghost use Rattle.crs_shape.specs.declared.class.Class.{Class};
ghost use Rattle.crs_shape.specs.declared.class.Class.TheVariants as class;
ghost use Rattle.crs_value.specs.Reads.{ReadsAxis, ReadsAxisMeridian, ReadsBox, ReadsDatum, ReadsEllipsoid, ReadsEnsemble, ReadsExtent, ReadsIdent, ReadsMember, ReadsMeridian, ReadsUnit, ReadsUsage, ReadsConversion, ReadsGeoidModel, ReadsMethod, ReadsParameter, ReadsDeformationModel, ReadsDynamic};
ghost use Rattle.crs_value.specs.inner.ReadOnce.{IsUnitClass, IsReadAs, IsReadOnce};
ghost use Rattle.crs_value.specs.ReadsCrs.{IsGeodeticClass, ReadsBase, ReadsCompound, ReadsGeodetic, ReadsProjected, ReadsVertical};
ghost use Rattle.crs_value.specs.SoundParts.{IsDeformationModel, IsDynamic, IsConversion, IsGeoidModel, IsMethod, IsParameter};
ghost use Rattle.crs_value.specs.Sound.{IsAxis, IsAxisMeridian, IsIdent, IsUnit, IsBox, IsExtent, IsUsage};
ghost use Rattle.crs_value.specs.SoundCompound.{IsCompound};
ghost use Rattle.crs_value.specs.SoundParts.{IsEllipsoid, IsMember, IsMeridian};
ghost use Rattle.crs_value.specs.SoundSingle.{IsBase, IsGeodetic, IsGeodeticFrame, IsProjected, IsVertical, IsVerticalFrame};
ghost use Rattle.crs_value.specs.declared.values.frame.Frame.TheVariants as frame;

/// An item is read as one axis at most, whatever its class; likewise other nodes that aren't members of sets. Profile.
pub fn parts_read_once()
    ensures along { IsReadOnce ReadsAxisMeridian }
    ensures axis { IsReadOnce ReadsAxis }
    ensures ellipsoid { IsReadOnce ReadsEllipsoid }
    ensures meridian { IsReadOnce ReadsMeridian }
    ensures datum { IsReadOnce ReadsDatum }
    ensures ensemble { IsReadOnce ReadsEnsemble }
    ensures bounding_box { IsReadOnce ReadsBox }
    ensures method { IsReadOnce ReadsMethod }
    ensures conversion { IsReadOnce ReadsConversion }
    ensures deformation_model { IsReadOnce ReadsDeformationModel }
    ensures dynamic { IsReadOnce ReadsDynamic }
    ensures base { IsReadOnce ReadsBase }
    ensures geodetic { IsReadOnce ReadsGeodetic }
    ensures projected { IsReadOnce ReadsProjected }
    ensures vertical { IsReadOnce ReadsVertical }
    ensures compound { IsReadOnce ReadsCompound }
{
    crs_decimal::laws::denotes_one();
}

/// What is read from a well-formed identifier of the right shape that breaks no check meets all that is asked of
/// an identifier; likewise the other nodes within a CRS. Profile.
pub fn parts_are_sound()
    ensures ident { (c : Class) → IsReadAs ReadsIdent IsIdent c }
    ensures unit { (c : Class) → IsUnitClass c → IsReadAs ReadsUnit IsUnit c }
    ensures along { (c : Class) → IsReadAs ReadsAxisMeridian IsAxisMeridian c }
    ensures axis { (c : Class) → IsReadAs ReadsAxis IsAxis c }
    ensures ellipsoid { IsReadAs ReadsEllipsoid IsEllipsoid class.Ellipsoid }
    ensures meridian { (c : Class) → IsReadAs ReadsMeridian IsMeridian c }
    ensures member { (c : Class) → IsReadAs ReadsMember IsMember c }
    ensures datum { IsReadAs ReadsDatum (λ d. IsGeodeticFrame (frame.Datum d)) class.GeodeticFrame }
    ensures vertical_datum { IsReadAs ReadsDatum (λ d. IsVerticalFrame (frame.Datum d)) class.VerticalFrame }
    ensures ensemble { IsReadAs ReadsEnsemble (λ e. IsGeodeticFrame (frame.Ensemble e)) class.GeodeticEnsemble }
    ensures vertical_ensemble { IsReadAs ReadsEnsemble (λ e. IsVerticalFrame (frame.Ensemble e))
        class.VerticalEnsemble }
    ensures bounding_box { (c : Class) → IsReadAs ReadsBox IsBox c }
    ensures extent { (c : Class) → IsReadAs ReadsExtent IsExtent c }
    ensures usage { IsReadAs ReadsUsage IsUsage class.Usage }
    ensures method { (c : Class) → IsReadAs ReadsMethod IsMethod c }
    ensures parameter { (c : Class) → IsReadAs ReadsParameter IsParameter c }
    ensures conversion { (c : Class) → IsReadAs ReadsConversion IsConversion c }
    ensures geoid_model { (c : Class) → IsReadAs ReadsGeoidModel IsGeoidModel c }
    ensures deformation_model { (c : Class) → IsReadAs ReadsDeformationModel IsDeformationModel c }
    ensures dynamic { (c : Class) → IsReadAs ReadsDynamic IsDynamic c }
    ensures base { IsReadAs ReadsBase IsBase class.BaseCrs }
{
    crs_shape::laws::slots_count();
}

/// A CRS of either kind that is read from a sound item meets all that is asked of one. Profile.
pub fn kinds_are_sound()
    ensures geodetic { (c : Class) → IsGeodeticClass c → IsReadAs ReadsGeodetic IsGeodetic c }
    ensures projected { IsReadAs ReadsProjected IsProjected class.ProjectedCrs }
    ensures vertical { IsReadAs ReadsVertical IsVertical class.VerticalCrs }
    ensures compound { IsReadAs ReadsCompound IsCompound class.CompoundCrs }
{
    crs_shape::laws::slots_count();
}
