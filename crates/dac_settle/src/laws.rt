//! The laws of settling, each as the contract of a function without a body.
ghost use Rattle.dac_settle.specs.Settling.{RoundsSettle};
ghost use Rattle.dac_settle.specs.Worked.{RoundsCanBe};
ghost use Rattle.dac_settle.specs.Rules.{judged, restless_of};
ghost use Rattle.dac_settle.specs.Staying.{Stays};
ghost use Rattle.dac_settle.specs.WorldRounds.{Settles};
ghost use Rattle.dac_settle.specs.WorkedMove.{RoundsCanMove};
ghost use Rattle.dac_settle.specs.WorkedLoss.{RunsCanFailOver};
ghost use Rattle.dac_settle.specs.WorkedDrain.{RunsCanMove};
ghost use Rattle.dac_settle.specs.AtRest.{SettledClaimNothing};
ghost use Rattle.dac_settle.specs.WorkedShare.{SharesCanBe};
ghost use Rattle.dac_model_world.specs.ModelWorld.{InEachRun};

/// Rounds settle every application: after as many rounds as the configuration has applications, begun in a ready world,
/// the verdict of each running controller on each of them is that it is kept or halted, or that no node can run it.
pub fn rounds_settle()
    ensures members { RoundsSettle }
    // This holds of each run of the model world that ends in such rounds.
    ensures runs { InEachRun Settles }
{}

/// The premises of settling can be met, so that [`rounds_settle`] isn't vacuous.
pub fn rounds_can_be()
    // Two nodes are ready, and a round settles their application.
    ensures members { RoundsCanBe }
    // The node that holds an application is drained, and a round of both nodes moves it.
    ensures moves { RoundsCanMove }
    // A run from the start leads to a ready world in which a claim is lost and two nodes have noted that. After its
    // wait both tick, ship and hear: a round in which the application fails over.
    ensures runs { RunsCanFailOver }
    // In a run from the start a command drains the node that holds the application. Both nodes learn of it, and their
    // round moves the application.
    ensures drains { RunsCanMove }
{}

/// A settled application stays settled, whatever claims are added.
pub fn verdicts_stay()
    ensures stays { Stays judged }
    // This fails for a rule by which a node takes over an application inside a tuple because it runs fewer.
    ensures refused { Stays restless_of → ⊥ }
{}

/// The meaning of settled: if each application is settled by the state of a running node, its ticks claim nothing, at
/// any moment.
pub fn settled_claim_nothing()
    ensures { SettledClaimNothing }
{}

/// The premises of a share can be met, in a run from the start: two nodes are up, one has heard of the other's boot,
/// each ships its whole set to the other, and both end with the union.
pub fn shares_can_be()
    ensures { SharesCanBe }
{}
