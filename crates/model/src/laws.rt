// The laws of plans.
ghost use Rattle.model.specs.Runs.{Law};
ghost use Rattle.model.specs.Laws.{SolvingAgain};

// The law over every run of calls.
pub fn verdicts_stand()
    ensures { Law }
{}

// The laws of an advance and of solving again.
pub fn solving_again_stands()
    ensures { SolvingAgain }
{}
