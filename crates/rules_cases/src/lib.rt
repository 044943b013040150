// Records, each with the outcome that the rules give it, worked out by hand.
#![tactic(auto)]

ghost use Rattle.rules_cases.specs.Eight.{EightAsStated};
ghost use Rattle.rules_cases.specs.Worked.{WorkedAsStated};

pub fn eight_records_come_out_as_stated()
    ensures { EightAsStated }
{}

pub fn worked_records_come_out_as_stated()
    ensures { WorkedAsStated }
{}
