//! The laws of reached cells, so that callers can cite them.

ghost use Rattle.std.specs.Prelude.{◌≡◌, true};
ghost use Rattle.heaps.specs.ReachedLaws.{RootsKeep, WordsReachUsed, ReachedUsed, WordsDecided, ReachedDecided, ReachesLeast, ReachesMore, ReachesJoined, ReachesFrame, UnboundReaches, LastReached, UndoReached, CountAtMost, CountOfSet};

/// Under the rules, what is reached is in use, and a test decides it; what words reach is the least set that holds where they lead.
/// Undoing reaches nothing new, and every set of exactly the reached cells has the same count.
pub fn reached_is_decided() -> bool
    ensures roots { RootsKeep }
    ensures words_used { WordsReachUsed }
    ensures used { ReachedUsed }
    ensures words { WordsDecided }
    ensures decided { ReachedDecided }
    ensures least { ReachesLeast }
    ensures more { ReachesMore }
    ensures joined { ReachesJoined }
    ensures frame { ReachesFrame }
    ensures unbound { UnboundReaches }
    ensures last { LastReached }
    ensures undo { UndoReached }
    ensures most { CountAtMost }
    ensures count { CountOfSet }
    ensures answer { result ≡ true }
{
    true // The laws of reached cells.
}
