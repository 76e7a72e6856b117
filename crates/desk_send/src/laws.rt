//! Laws of what is sent: the contracts of functions that do nothing.
ghost use Rattle.desk_send.specs.Fields.{ActionsComeBack};
ghost use Rattle.desk_send.specs.Target.{PostsLeadThere};
ghost use Rattle.desk_send.specs.Texts.{ValuesComeBack};

/// A value of a field is read from the bytes that are written for it.
pub fn values_come_back()
    ensures { ValuesComeBack }
{}

/// The bytes of an action's fields give that action.
pub fn actions_come_back()
    ensures { ActionsComeBack }
{}

/// What is at the target of a command does it.
pub fn posts_lead_there()
    ensures { PostsLeadThere }
{}
