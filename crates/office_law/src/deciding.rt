//! A command's list of tests decides whether it is refused.
ghost use Rattle.office_law.specs.Deciding.{TestsDecide};

/// A command is refused by the first of its tests that holds, and where none holds it is answered.
pub fn tests_decide_commands()
    ensures { TestsDecide }
{}
