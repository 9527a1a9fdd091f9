ghost use Rattle.std.specs.Prelude.{◌≡◌, true};
ghost use Rattle.heaps.specs.RuleTestLaws.{RuleDecided, CycleDecided, LevelDecided, FaultNone, FaultNamed};

/// The tests of places decide the rules, and the fault of tables is their lowest broken rule with its lowest line at fault.
pub fn rules_are_decided() -> bool
    ensures decided { RuleDecided }
    ensures cycles { CycleDecided }
    ensures levels { LevelDecided }
    ensures none { FaultNone }
    ensures named { FaultNamed }
    ensures answer { result ≡ true }
{
    true // The laws of the tests.
}
