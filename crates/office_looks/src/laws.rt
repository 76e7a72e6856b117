//! Laws of the texts.
ghost use Rattle.office_looks.specs.Messages.{IsTableWithColumns};

/// The messages are the table of the sheet, with columns put in.
pub fn messages_are_the_table()
    ensures { IsTableWithColumns }
{}
