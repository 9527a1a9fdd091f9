//! Unification on tables is unification of the terms that the words spell.

ghost use Rattle.std.specs.Prelude.{◌≡◌, true};
ghost use Rattle.calls.specs.UnifyLaws.{UnifySteps, UnifyIso};

/// On tables that keep the rules, unifying two words takes Robinson's steps on the terms that they spell.
/// So it finds a most general unifier of them, or they have none.
pub fn unifying_stands() -> bool
    ensures steps { UnifySteps }
    ensures general { UnifyIso }
    ensures answer { result ≡ true }
{
    true // The laws of unifying words.
}
