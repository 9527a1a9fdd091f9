//! The laws of spelled terms: the spelling is determined, what binding does to it, and what moving cells does to it.

ghost use Rattle.std.specs.Prelude.{◌≡◌, true};
ghost use Rattle.heaps.specs.SpellingLaws.{SpellLayer, SpellOnly, SpellMore, SpellFrame};
ghost use Rattle.heaps.specs.SpellingLaws.{EndEnds, SpellEnd, EndKeeps, EndStep, StepsWithin};
ghost use Rattle.heaps.specs.SpellingLaws.{SpellBind, RulesBind, FitsBind};
ghost use Rattle.heaps.specs.SpellingLaws.{SpellMoved, AcyclicMoved, SpellShorten};

/// On tables that keep the rules every word spells one term, which only the cells that it reaches decide;
/// and every chain of references has an end, which spells the same.
pub fn spelling_stands() -> bool
    ensures layered { SpellLayer }
    ensures only { SpellOnly }
    ensures more { SpellMore }
    ensures frame { SpellFrame }
    ensures ends { EndEnds }
    ensures end_spells { SpellEnd }
    ensures end_keeps { EndKeeps }
    ensures step { EndStep }
    ensures steps { StepsWithin }
    ensures answer { result ≡ true }
{
    true // The laws of spelling.
}

/// Binding an unbound variable replaces it in all that is spelled, and keeps the rules.
pub fn binding_stands() -> bool
    ensures spells { SpellBind }
    ensures keeps { RulesBind }
    ensures fits { FitsBind }
    ensures answer { result ≡ true }
{
    true // The laws of binding.
}

/// Moving cells renames the variables of what is spelled, shortening a chain changes nothing, and neither makes a cycle.
pub fn moving_stands() -> bool
    ensures spells { SpellMoved }
    ensures acyclic { AcyclicMoved }
    ensures shorter { SpellShorten }
    ensures answer { result ≡ true }
{
    true // The laws of moving.
}
