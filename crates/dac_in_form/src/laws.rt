//! The laws, each as the contract of a function that computes nothing.
ghost use Rattle.dac_in_form.specs.HeldForm.{HeldAreInForm};
ghost use Rattle.dac_in_form.specs.InForm.{MeaningsAreInForm};
ghost use Rattle.dac_in_form.specs.Issued.{RunIsInForm};
ghost use Rattle.dac_in_form.specs.ReadAgain.{EachRunIsRead};
ghost use Rattle.dac_in_form.specs.WorkedRun.{RunsCanFit};
ghost use Rattle.dac_in_form.specs.WorkedState.{StatesCanFit};
ghost use Rattle.dac_model_world.specs.ModelWorld.{InEachRun};

use dac_config::Config;
use dac_part_bytes::laws::parts_have_one_spelling;
use dac_state::laws::states_have_one_spelling;

/// The meaning of operations in form is in form, if its counts fit their fields, so that a peer reads the bytes of each
/// controller's state as that state.
pub fn meanings_are_in_form()
    ensures { MeaningsAreInForm }
{
    dac_meaning::laws::parts_of_meaning();
}

/// In each run of the model world, each controller's state and the state of each shipped message are in form, if the
/// issued operations are and the counts fit their fields.
pub fn held_are_in_form()
    ensures { InEachRun HeldAreInForm }
{
    meanings_are_in_form();
    dac_model_world::laws::runs_converge();
}

/// In each run of the model world, each issued operation is in form, and so are each controller's state and each
/// shipped message, if their counts fit their fields. The configuration's limits are the only other premise, because
/// events that bytes can't encode are refused.
pub fn runs_are_in_form()
    ensures { InEachRun RunIsInForm }
{
    held_are_in_form();
    dac_meaning::laws::parts_of_meaning();
}

/// After each run under their configuration, the bytes of each issued operation are read as that operation. Those of
/// each controller's state and each shipped message are read as the value, if its counts fit their fields. Packets with
/// too many bytes are left out.
pub fn runs_are_read(config: &Config)
    ensures { EachRunIsRead config.now }
{
    let _nodes = config.nodes();
    let _apps = config.apps();
    runs_are_in_form();
    parts_have_one_spelling(config);
    states_have_one_spelling(config);
}

/// The premises about counts can be met, so that the laws above aren't vacuous.
pub fn states_can_fit()
    // Two nodes are up, an application is started and forbidden at one of them, and the other one is drained.
    ensures set { StatesCanFit }
    // In a run from the start a node boots, and ships its whole state to another.
    ensures run { RunsCanFit }
{}
