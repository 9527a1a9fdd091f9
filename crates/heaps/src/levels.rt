//! Undoing, and the changes of tables that keep the rules: each function states laws in its contract, so that callers can cite them.

ghost use Rattle.std.specs.Prelude.{◌≡◌, true};
ghost use Rattle.heaps.specs.LevelLaws.{StandsLast, StandsRetry, StandsUndo, LastPushChoice, RetryLast, BackBack, UndoKeepChoices};
ghost use Rattle.heaps.specs.LevelLaws.{LastBind, LastSetRegister, LastMore};
ghost use Rattle.heaps.specs.LevelLaws.{StandsSetUp, StandsSetRegister, StandsPushChoice, StandsKeepChoices, StandsNewVariable, StandsNewStructure};
ghost use Rattle.heaps.specs.LevelLaws.{KeepsMore, KeepsRegister, KeepsSaved, KeepsArgument};

/// Undoing keeps the rules, and gives back what was there when the choice point was opened, whatever came after.
pub fn levels_stand() -> bool
    ensures last { StandsLast }
    ensures retry { StandsRetry }
    ensures undo { StandsUndo }
    ensures opened { LastPushChoice }
    ensures again { RetryLast }
    ensures older { BackBack }
    ensures kept { UndoKeepChoices }
    ensures bound { LastBind }
    ensures register { LastSetRegister }
    ensures added { LastMore }
    ensures answer { result ≡ true }
{
    true // The laws of levels.
}

/// Each change that a call makes to tables keeps the rules, and so do the words that it copies.
pub fn changes_keep_rules() -> bool
    ensures empty { StandsSetUp }
    ensures register { StandsSetRegister }
    ensures opened { StandsPushChoice }
    ensures kept { StandsKeepChoices }
    ensures variable { StandsNewVariable }
    ensures structure { StandsNewStructure }
    ensures word { KeepsMore }
    ensures copied { KeepsRegister }
    ensures saved { KeepsSaved }
    ensures argument { KeepsArgument }
    ensures answer { result ≡ true }
{
    true // The laws of changes.
}
