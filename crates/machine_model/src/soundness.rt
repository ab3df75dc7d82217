//! The machine is sound, whatever happens and in whatever order.

ghost use Rattle.machine_model.specs.SoundnessLaws.{NewIsSound, StepKeepsOrder, StepKeepsSound, RunsAreOrderly, RunsAreSound, RunsContinue};

/// A new machine is sound.
pub fn new_is_sound()
    ensures { NewIsSound }
{}

/// Every event leads from an orderly state to an orderly one.
pub fn step_keeps_order()
    ensures { StepKeepsOrder }
{}

/// Every event leads from a sound state to a sound one.
pub fn step_keeps_sound()
    ensures { StepKeepsSound }
{}

/// Every state of every run is orderly.
pub fn runs_are_orderly()
    ensures { RunsAreOrderly }
{}

/// Every state of every run is sound.
pub fn runs_are_sound()
    ensures { RunsAreSound }
{}

/// A run keeps its canvas and slots; what is fed joins the commands, no outcome or frame is taken back, and no serial is used again.
pub fn runs_continue()
    ensures { RunsContinue }
{}
