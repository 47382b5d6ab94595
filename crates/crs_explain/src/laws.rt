//! Laws of reported differences, as contracts of functions that do nothing.
ghost use Rattle.std.specs.Prelude.{◌≡◌, ◌↔◌, [], ℕ, List, map, true};
ghost use Rattle.crs_value.specs.Values.{ParameterParts};
ghost use Rattle.crs_value.specs.Sound.{Each};
ghost use Rattle.crs_value.specs.SoundCrs.{IsCrs};
ghost use Rattle.crs_value.specs.SoundParts.{IsParameter};
ghost use Rattle.crs_value.specs.declared.values.crs.Crs.{Crs};
ghost use Rattle.crs_value.specs.declared.values.level.Level.{Level};
ghost use Rattle.crs_same.specs.SameParts.{SameParameter};
ghost use Rattle.crs_same.specs.SameIdents.{SameSet};
ghost use Rattle.crs_same.specs.SameCrs.{SameCrs};
ghost use Rattle.crs_explain.specs.Differing.{AreDifferencePieces, AreDifferenceTexts, AreTextsOfSet, IsDifferencesText, PartTexts, has_part, part_of, texts_exchanged};
ghost use Rattle.crs_explain.specs.InOrder.{AreInOrder, AreOrderedTexts};

use crs_canon::laws::names_tell_parameters;
use crs_normal::laws::parts::conversions_are_canonical;
use crs_same::laws::parts::{
    same_idents_is_equivalence, same_parameter_is_equivalence, same_unit_is_equivalence,
    same_value_is_equivalence,
};
use crs_same::laws::{
    differences_are_exchanged, differences_are_one, first_difference_is_first_part,
    no_part_differs_where_same,
};

/// Two sets of parameters in which no difference is found are the same.
pub fn parameters_that_differ_are_told()
    ensures { (level : Level) (path : List ℕ) (xs ys : List ParameterParts) → Each IsParameter xs →
        Each IsParameter ys → AreTextsOfSet level path xs ys [] → SameSet (SameParameter level) xs ys }
{
    same_parameter_is_equivalence();
    conversions_are_canonical();
    names_tell_parameters();
}

/// Two sets of parameters in the other order have the same texts, each with its values exchanged.
pub fn exchanged_parameters_are_told_alike()
    ensures { (level : Level) (path : List ℕ) (xs ys : List ParameterParts) (texts : List PartTexts) →
        AreTextsOfSet level path xs ys texts → AreTextsOfSet level path ys xs (map texts_exchanged texts) }
{
    same_value_is_equivalence();
    same_unit_is_equivalence();
    same_idents_is_equivalence();
}

/// Two CRSs in the other order have the same texts, each with its values exchanged; also in the order of some words.
pub fn exchanged_crss_are_told_alike()
    ensures texts { (level : Level) (a b : Crs) (texts : List PartTexts) → AreDifferenceTexts level a b texts →
        AreDifferenceTexts level b a (map texts_exchanged texts) }
    ensures ordered { (words : List (List ℕ)) (level : Level) (a b : Crs) (texts : List PartTexts) →
        AreOrderedTexts words level a b texts → AreOrderedTexts words level b a (map texts_exchanged texts) }
{
    differences_are_exchanged();
    same_value_is_equivalence();
    same_unit_is_equivalence();
    same_idents_is_equivalence();
}

/// Two CRSs have no texts, no lines and no pieces of differences exactly if they are the same.
pub fn nothing_is_told_where_same()
    ensures texts { (level : Level) (a b : Crs) → IsCrs a → IsCrs b → (texts : List PartTexts) →
        AreDifferenceTexts level a b texts → (texts ≡ []) ↔ SameCrs level a b }
    ensures ordered { (words : List (List ℕ)) (level : Level) (a b : Crs) → IsCrs a → IsCrs b →
        (texts : List PartTexts) → AreOrderedTexts words level a b texts → (texts ≡ []) ↔ SameCrs level a b }
    ensures lines { (level : Level) (a b : Crs) → IsCrs a → IsCrs b → (text : List ℕ) →
        IsDifferencesText level a b text → (text ≡ []) ↔ SameCrs level a b }
    ensures pieces { (level : Level) (a b : Crs) → IsCrs a → IsCrs b → (pieces : List (List ℕ)) →
        AreDifferencePieces level a b pieces → (pieces ≡ []) ↔ SameCrs level a b }
{
    first_difference_is_first_part();
    no_part_differs_where_same();
    parameters_that_differ_are_told();
}

/// Texts of the same two CRSs, in the order of whatever words, have the same parts: each part of one is a part of the
/// other.
pub fn the_same_parts_are_told()
    ensures { (words : List (List ℕ)) (level : Level) (a b : Crs) → IsCrs a → IsCrs b → (these others : List PartTexts) →
        AreOrderedTexts words level a b these → AreOrderedTexts words level a b others →
        Each (λ one. has_part others (part_of one.path) ≡ true) these }
{
    differences_are_one();
    parameters_that_differ_are_told();
}

/// Without words, parts keep their order.
pub fn no_words_keep_the_order()
    ensures { (parts ordered : List PartTexts) → AreInOrder [] parts ordered → ordered ≡ parts }
{}
