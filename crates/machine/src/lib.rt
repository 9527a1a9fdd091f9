//! The tree machine, the law over runs and the worked examples: definitions in `specs/`, laws in `proofs/`.
#![tactic(auto)]

ghost use Rattle.std.specs.Prelude.{◌≡◌, true};
ghost use Rattle.machine.specs.Examples.{Worked, WorkedSlips};
ghost use Rattle.machine.specs.Runs.{RunsAgree, SetUpLoaded, RunsCounted};
ghost use Rattle.machine.specs.Collections.{CollectionsAgree};

/// The worked examples hold of the definitions.
pub fn worked_examples_hold() -> bool
    ensures examples { Worked }
    ensures slips { WorkedSlips }
    ensures answer { result ≡ true }
{
    true // The worked examples.
}

/// Whatever list of calls is run, with whichever lawful collectors, every answer of the store is the tree machine's,
/// and each collection leaves as many used cells as its collector's meaning says.
pub fn runs_agree() -> bool
    ensures law { RunsAgree }
    ensures start { SetUpLoaded }
    ensures counts { RunsCounted }
    ensures answer { result ≡ true }
{
    true // The law over runs.
}

/// The same of the collectors there are: each collect is by copying or sliding, under any pile of layers.
pub fn collections_agree() -> bool
    ensures law { CollectionsAgree }
    ensures answer { result ≡ true }
{
    true // The law over runs, for copying and sliding.
}
