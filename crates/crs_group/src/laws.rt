//! Laws of catalogues: calls that do nothing, and whose contracts are the laws.
ghost use Rattle.std.specs.Prelude.{◌≡◌, List, map};
ghost use Rattle.crs_value.specs.declared.values.level.Level.TheVariants as levels;
ghost use Rattle.crs_group.specs.Catalogue.{CatalogueParts, Line};
ghost use Rattle.crs_group.specs.GroupTexts.{IsCatalogueOf, IsPartition, PlacedLine};
ghost use Rattle.crs_group.specs.UnderRules.{IsCatalogueOfUnder};
ghost use Rattle.crs_group.specs.United.{AreUnited};
ghost use Rattle.crs_rules.specs.Rules.{AreRules, RulesParts};

/// The catalogue of some lines, at a level, is one; so is the catalogue of lines under rules.
pub fn catalogue_is_one()
    ensures alone { (lines : List Line) (a b : CatalogueParts) → IsCatalogueOf lines a → IsCatalogueOf lines b →
        a.level ≡ b.level → a ≡ b }
    ensures under { (rules : RulesParts) → AreRules rules → (lines : List Line) (a b : CatalogueParts) →
        IsCatalogueOfUnder rules lines a → IsCatalogueOfUnder rules lines b → a.level ≡ b.level → a ≡ b }
{
    crs_canon::laws::main_theorem();
    crs_value::laws::one_answer();
    crs_rules::laws::accepted_text_has_one_form();
}

/// The groups of a catalogue at level `definition` are unions of its groups at level `full`.
pub fn groups_are_united_by_definition()
    ensures { (placed united : List PlacedLine) (full definition : CatalogueParts) →
        IsPartition placed full → IsPartition united definition → map (λ p. p.line) placed ≡ map (λ p. p.line) united →
        full.level ≡ levels.Full → definition.level ≡ levels.Definition → AreUnited placed united }
{
    crs_value::laws::one_answer();
    crs_same::laws::same_crs_is_same_by_definition();
}
