//! Terms, unification and renamings: definitions in `specs/`, laws in `proofs/`.
//! Each function here states laws in its contract, so that callers can cite them.
#![tactic(auto)]

ghost use Rattle.std.specs.Prelude.{◌≡◌, true};
ghost use Rattle.terms.specs.Laws.{RobinsonExact, RobinsonMostGeneral, AlikeUnify, SameDecides};

/// Unification finds an idempotent most general unifier over the values in force, or there is no unifier.
pub fn unification_stands() -> bool
    ensures exact { RobinsonExact }
    ensures general { RobinsonMostGeneral }
    ensures answer { result ≡ true }
{
    true // The laws of unification.
}

/// Rows that differ only by a renaming of variables unify alike.
pub fn renaming_stands() -> bool
    ensures alike { AlikeUnify }
    ensures answer { result ≡ true }
{
    true // The law of renaming.
}

/// The comparison of terms decides their equality.
pub fn sameness_stands() -> bool
    ensures decides { SameDecides }
    ensures answer { result ≡ true }
{
    true // The law of sameness.
}
