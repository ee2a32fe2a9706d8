//! The laws of runs, each as the contract of a function without a body.
//!
//! A proof that needs a law calls its function. The functions take no arguments and return nothing.
ghost use Rattle.dac_model_world.specs.ModelWorld.{InEachRun, RanAs};
ghost use Rattle.dac_model_world.specs.Converges.{Converges};
ghost use Rattle.dac_model_world.specs.Gates.{GatesStayOpen};
ghost use Rattle.dac_model_world.specs.Made.{HeardDotsAreOrder, OneDotIsOrder};
ghost use Rattle.dac_model_world.specs.Records.{RecordsAreHistories};
ghost use Rattle.dac_model_world.specs.EveryList.{IsEnough, OfEachList, RunsEachList};

/// Convergence: properties of every run from the start.
///
/// - Each running controller's state is the meaning of the issued operations whose dots it has heard. Therefore
///   controllers that have heard the same set have equal states and bytes, and name the same holder and the same next
///   candidate. Merging two states gives their least upper bound.
/// - No two issued operations have one dot. A node issues operations of its own incarnation, with the counters 1, 2, 3
///   and so on. A boot issues the first operation of an incarnation later than all before.
/// - Each controller holds the set that the world of sets has at its node. Each shipped message carries the meaning of
///   a set of issued operations. Hearing it unites the receiver's set with the whole set that the sender had when it
///   shipped, even if the message carries only an interval or nothing.
/// - A controller reports a message as new if and only if it brings a dot that it hadn't heard. A running controller
///   hears each message shipped to it by another node, unless it is bound to another incarnation, and each issued
///   operation handed to it, unless an allocation fails or its delta numbers are used up.
/// - A ship is refused as up to date only if the receiver, while it runs as the incarnation that the sender knows, has
///   all of the sender's set. In a share each running node ships all that it has to each other one, which leaves the
///   union of their sets to all, if each knows the others' present incarnations, or nothing of their lives.
/// - If no single operation is handed, each controller has, with each operation, all that were causally before it. Then
///   exactly the maximal writes stand in its state.
/// - The events at each controller, with their results, are a history of it, from before its first boot to its value
///   after the run. After a tick finds its start gate open, it stays open until the controller goes off.
pub fn runs_converge()
    ensures converges { InEachRun Converges }
    // The records of each model node are a history of it.
    ensures records { RecordsAreHistories }
{}

/// The model's run of any list of events, without failed allocations, is a run. Therefore the properties of every run
/// hold of the events, of their results, and of the world after them.
pub fn every_list_converges()
    ensures run { RunsEachList }
    ensures enough { OfEachList (λ t events answers v. IsEnough answers) }
    ensures shown { OfEachList RanAs }
    ensures converges { OfEachList Converges }
{}

/// A start gate that has opened stays open: in each history of a node, after a tick that finds it open, no tick is held
/// back or gives up until the node goes off.
pub fn gates_stay_open()
    ensures { GatesStayOpen }
{}

/// If no two operations have one dot, heard dots decide the order of their meanings: a state is below another if and
/// only if that one has heard each of its dots, and an operation is below a state if and only if the state has heard
/// its dot.
pub fn heard_dots_are_order()
    ensures states { HeardDotsAreOrder }
    ensures operations { OneDotIsOrder }
{}
