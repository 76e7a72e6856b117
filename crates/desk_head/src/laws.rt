//! A law of targets: the contract of a function that does nothing.
ghost use Rattle.desk_head.specs.Asked.{TargetsLeadThere};

/// What is at the target of a look shows it.
pub fn targets_lead_there()
    ensures { TargetsLeadThere }
{}
