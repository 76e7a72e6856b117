//! How far a script is, or a database that is carried over, for whoever waits for it.
ghost use Rattle.std.specs.Prelude.{◌≡◌};
ghost use Rattle.canoffice_cli.specs.Numbers.{TakesNext};

use dbc_words::Name;
use office_script::{first_line, says_nothing};
use office_types::NetName;
use std::io::{self, Write};
use store::Watch;

/// Where it is shown how far the work is: on a terminal, or nowhere.
pub struct Progress<W> {
    /// The terminal, if there is one.
    pub to: Option<W>,
}

/// The lines of a script that request something, one after the other.
#[derive(Clone, Copy)]
pub(crate) struct RequestLines<'a> {
    rest: &'a [u8],
    number: usize,
}

impl<'a> RequestLines<'a> {
    /// Before the first one.
    pub(crate) fn of(script: &'a [u8]) -> RequestLines<'a>
        ensures { result ≡ record { rest = script.entry; number = 0 } }
    {
        RequestLines {
            rest: script,
            number: 0,
        }
    }

    /// The number of the next one, from 1.
    pub(crate) fn next_number(&mut self) -> usize
        ensures { TakesNext self.old self.new result }
    {
        while let Some(first) = first_line(self.rest) {
            self.number = self.number.saturating_add(1);
            self.rest = first.rest;
            if !says_nothing(first.line) {
                return self.number;
            }
        }
        self.number
    }
}

impl<W: Write> Progress<W> {
    /// Shows that the line of this number is next, in the place of what was shown before.
    pub(crate) fn show_line(&mut self, line: usize) {
        if let Some(to) = &mut self.to {
            // Whether it is shown changes nothing of what is done.
            let _shown = write!(to, "\rline {line}");
        }
    }

    /// Takes back what was shown.
    pub(crate) fn clear(&mut self) {
        if let Some(to) = &mut self.to {
            let _shown = write!(to, "\r\x1b[K");
        }
    }
}

/// Shows the network and the message in the place of what was shown before.
fn show_message<W: Write>(to: &mut W, net: &NetName, message: &Name) -> io::Result<()> {
    to.write_all(b"\r\x1b[K")?;
    to.write_all(net.as_bytes())?;
    to.write_all(b" ")?;
    to.write_all(message.as_bytes())
}

impl<W: Write> Watch for Progress<W> {
    fn show(&mut self, net: &NetName, message: &Name) {
        if let Some(to) = &mut self.to {
            let _shown = show_message(to, net, message);
        }
    }
}

impl<W: Drop> Drop for Progress<W> {
    fn drop(self) {
        let Progress { to: _to } = self;
    }
}
