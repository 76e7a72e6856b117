//! Why commands of a script are refused, where `--explain` requests it.
ghost use Rattle.std.specs.Prelude.{◌≡◌, ◌⊎◌, ◌++◌, ◌∷◌, [], IfOk, IfSome, OnOk, find, map, string_bytes};
ghost use Rattle.std.specs.List.{flat_map};
ghost use Rattle.std.specs.Option.{option_copied};
ghost use Rattle.office_reasons.specs.Pieces.{IsSentence};
ghost use Rattle.canoffice_cli.specs.Reasons.{StaysAnOffice, Tells, has_net_name, reason_line, refusal_of};
ghost use Rattle.canoffice_cli.specs.Reasons.{refused_label, refused_line};

use crate::refused_line::RefusedLine;
use base::Copying;
use dbc_advice::{Position, reported_line};
use office::PlainOffice;
use office_history::{Answer, Arrival};
use office_reasons::{Seen, answer_reason, key_reused_reason, reads_releases};
use office_types::{Net, NetName, Refusal, Reply};
use sqlite::Alter;
use std::alloc::{AllocError, Global};
use store::StoredOffice;

/// Why commands of a script were refused, as far as that is wanted and there is memory for it. Nothing that is answered
/// depends on it.
#[derive(Drop)]
pub struct Reasons {
    wanted: bool,
    lines: Vec<RefusedLine>,
}

/// The network of the name.
fn net_named<'a>(nets: &'a [Net], name: &NetName) -> Option<&'a Net>
    ensures { option_copied result ≡ find (has_net_name name.now) nets.now }
{
    nets.iter().find(|net| net.name == *name)
}

/// The names of the networks.
fn names_of(alloc: Global, nets: &[Net]) -> Result<Vec<NetName>, AllocError>
    ensures { IfOk result (λ names. names.items ≡ map (λ net. net.name) nets.now) }
{
    let mut names = Vec::new(alloc);
    for net in nets {
        names.push(net.name.duplicate(alloc)?)?;
    }
    Ok(names)
}

/// The names of the networks that a sentence may name: all of them where the command's isn't there.
fn other_names(alloc: Global, nets: &[Net], net: Option<&Net>) -> Result<Vec<NetName>, AllocError> {
    match net {
        Some(_) => Ok(Vec::new(alloc)),
        None => names_of(alloc, nets),
    }
}

/// Why the office in memory refuses the arrival so.
fn reason_in_memory(
    alloc: Global,
    office: &PlainOffice,
    arrival: &Arrival,
    refusal: Refusal,
) -> Result<Vec<u8>, AllocError>
    ensures { IfOk result (λ sentence. IsSentence sentence.items) }
{
    let command = &arrival.request.command;
    let net = net_named(office.nets(), &command.net);
    let names = other_names(alloc, office.nets(), net)?;
    let seen = Seen::of(net, &names, office.book());
    answer_reason(alloc, &arrival.team, command, refusal, &seen)
}

/// Why the office in the tables refuses the arrival so, by what is read of it. `None` where that is lost.
#[tactic(auto, using(crate::proofs::StillOffice::still_office))]
fn reason_in_tables<S: Alter>(
    alloc: Global,
    office: &mut StoredOffice<S>,
    arrival: &Arrival,
    refusal: Refusal,
) -> Option<Vec<u8>>
    ensures office { StaysAnOffice S.Store office.old office.new }
    ensures sentence { IfSome result (λ sentence. IsSentence sentence.items) }
{
    let command = &arrival.request.command;
    let releases = reads_releases(command, refusal);
    let Ok(read) = office.see(alloc, &command.net, releases) else {
        return None;
    };
    let seen = Seen::of(read.net.as_ref(), &read.names, &read.book);
    answer_reason(alloc, &arrival.team, command, refusal, &seen).ok()
}

/// Why an arrival is refused whose key was used for another request.
fn reason_of_key(alloc: Global) -> Result<Vec<u8>, AllocError>
    ensures { IfOk result (λ sentence. IsSentence sentence.items) }
{
    Vec::from_slice(alloc, key_reused_reason().as_bytes())
}

/// The answer to a refused line, as it is printed.
fn refused_label(alloc: Global, refusal: Option<Refusal>) -> Result<String, AllocError>
    ensures { IfOk result (λ text. string_bytes text ≡ refused_label refusal) }
{
    match refusal {
        None => String::from_str(alloc, "refused 70 KeyReused"),
        Some(refusal) => {
            let reply = Reply::Refused(refusal);
            format!(in alloc; "{reply}")
        }
    }
}

impl RefusedLine {
    /// Adds the line that is printed of it in the script of this name.
    fn add_to(&self, alloc: Global, text: &mut Vec<u8>, script: &[u8]) -> Result<(), AllocError>
        ensures { OnOk result (text.new.items ≡ text.old.items
            ++ reason_line script.now self.now) }
    {
        let position = Position {
            line: self.number,
            column: 1,
        };
        let label = refused_label(alloc, self.refusal)?;
        let line = reported_line(alloc, script, position, label.as_bytes(), &self.sentence)?;
        text.extend_from_slice(&line)
    }
}

impl Reasons {
    /// No reasons yet. None are added where they aren't wanted.
    pub fn new(alloc: Global, wanted: bool) -> Reasons
        ensures { result.lines.items ≡ [] }
    {
        Reasons {
            wanted,
            lines: Vec::new(alloc),
        }
    }

    /// Adds this sentence of the line of this number, unless memory runs out.
    fn add(&mut self, number: usize, refusal: Option<Refusal>, sentence: Vec<u8>)
        requires { IsSentence sentence.items }
        ensures { Tells ((number, refusal) ∷ []) self.old self.new }
    {
        let line = RefusedLine {
            number,
            refusal,
            sentence,
        };
        // Without memory for it the line is left out, since it is advice.
        let _added = self.lines.push(line);
    }

    /// Adds why the arrival of the line of this number was answered so by the office in memory, if it was refused.
    #[tactic(auto, using(crate::proofs::Told::tells_nothing))]
    pub(crate) fn add_in_memory(
        &mut self,
        alloc: Global,
        office: &PlainOffice,
        number: usize,
        arrival: &Arrival,
        answer: &Answer,
    )
        ensures { Tells (refused_line number (refusal_of answer.now)) self.old self.new }
    {
        if !self.wanted {
            return;
        }
        match answer {
            Answer::Reply(Reply::Refused(refusal)) => {
                if let Ok(sentence) = reason_in_memory(alloc, office, arrival, *refusal) {
                    self.add(number, Some(*refusal), sentence);
                }
            }
            Answer::Reply(_) => {}
            Answer::KeyReused => {
                if let Ok(sentence) = reason_of_key(alloc) {
                    self.add(number, None, sentence);
                }
            }
        }
    }

    /// Adds why the arrival of the line of this number was answered so by the office in the tables, if it was refused.
    /// What is read of it may be lost, as any look.
    #[tactic(auto, using(crate::proofs::StillOffice::untouched, crate::proofs::Told::tells_nothing))]
    pub(crate) fn add_in_tables<S: Alter>(
        &mut self,
        alloc: Global,
        office: &mut StoredOffice<S>,
        number: usize,
        arrival: &Arrival,
        answer: &Answer,
    )
        ensures office { StaysAnOffice S.Store office.old office.new }
        ensures told { Tells (refused_line number (refusal_of answer.now)) self.old self.new }
    {
        if !self.wanted {
            return;
        }
        match answer {
            Answer::Reply(Reply::Refused(refusal)) => {
                if let Some(sentence) = reason_in_tables(alloc, office, arrival, *refusal) {
                    self.add(number, Some(*refusal), sentence);
                }
            }
            Answer::Reply(_) => {}
            Answer::KeyReused => {
                if let Ok(sentence) = reason_of_key(alloc) {
                    self.add(number, None, sentence);
                }
            }
        }
    }

    /// A line for each, under the name of the script. The error is out of memory.
    fn text(&self, alloc: Global, script: &[u8]) -> Result<Vec<u8>, AllocError>
        ensures { IfOk result (λ text. text.items
            ≡ flat_map (reason_line script.now) self.now.lines.items) }
    {
        let lines = self.lines.as_slice();
        let mut text = Vec::new(alloc);
        for line in lines {
            line.add_to(alloc, &mut text, script)?;
        }
        Ok(text)
    }

    /// The same, or nothing where memory runs out.
    pub(crate) fn advice(&self, alloc: Global, script: &[u8]) -> Vec<u8>
        ensures { (result.items ≡ flat_map (reason_line script.now) self.now.lines.items)
            ⊎ (result.items ≡ []) }
    {
        match self.text(alloc, script) {
            Ok(text) => text,
            Err(AllocError) => Vec::new(alloc),
        }
    }
}
