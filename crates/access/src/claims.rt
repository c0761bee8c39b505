// What holds of the rights, of every guarded call and of what a trainer sees.
ghost use Rattle.access.specs.Laws.{OutsideLaw, RightsLaw, ThroughLaw, TrainerLaw};

// An operation is in a user's rights exactly if the table of rights has it.
pub fn rights_law()
    ensures { RightsLaw }
{}

// A guarded call that is in the user's rights is the unguarded one.
pub fn through_law()
    ensures { ThroughLaw }
{}

// A guarded call that is not is turned down by 20 and changes nothing.
pub fn outside_law()
    ensures { OutsideLaw }
{}

// Logs that differ only in hidden bytes give a trainer the same for every request.
pub fn trainer_law()
    ensures { TrainerLaw }
{}
