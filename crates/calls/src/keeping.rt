//! What every call keeps: a function states the laws in its contract, so that callers can cite them.

ghost use Rattle.std.specs.Prelude.{◌≡◌, true};
ghost use Rattle.calls.specs.KeepLaws.{WholeStart, WholeTables, StepKeeps, LevelsKept, LevelOpened, LevelRetried, LevelLeft, LevelsCut};
ghost use Rattle.calls.specs.KeepLaws.{RefusedUnchanged, SettledKept, VoidBack};

/// Every call leaves tables that keep the rules and fit the memory, and the older levels as they were; a refused call
/// changes nothing, and neither does a structure that is begun and given up.
pub fn calls_keep_rules() -> bool
    ensures start { WholeStart }
    ensures tables { WholeTables }
    ensures keeps { StepKeeps }
    ensures levels { LevelsKept }
    ensures opened { LevelOpened }
    ensures retried { LevelRetried }
    ensures left { LevelLeft }
    ensures cut { LevelsCut }
    ensures refused { RefusedUnchanged }
    ensures settled { SettledKept }
    ensures back { VoidBack }
    ensures answer { result ≡ true }
{
    true // The laws of calls.
}
