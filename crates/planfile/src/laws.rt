// The law of plan files.
ghost use Rattle.planfile.specs.Laws.{PlanFiles};

// Every file is read exactly as it is written, or refused with its first fault.
pub fn plan_files_stand()
    ensures { PlanFiles }
{}
