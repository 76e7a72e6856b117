//! Definitions that come after something was cited.
//!
//! What was cited may be defined by them. So the definitions alone are gathered, up to the last statement. Then the
//! text is read a second time: its definitions are known, so they are skipped, and the other statements are gathered
//! one by one as in any file (`settling`). No list of statements is kept.
ghost use Rattle.std.specs.Prelude.{◌≡◌, None, IfErr, IfOk, IfSome, IsTrue, map};
ghost use Rattle.dbc_grammar.specs.Parsing.{statements_at};
ghost use Rattle.dbc_lex.specs.Fault.{UnlessMemory};
ghost use Rattle.dbc_read.specs.Attaching.{in_signals};
ghost use Rattle.dbc_read.specs.Gathering.{AreBare, IsEmpty, IsOfTokens};
ghost use Rattle.dbc_read.specs.Late.{DefineAll, DefineLate, FollowAll};
ghost use Rattle.dbc_statements.specs.Statement.{HasNothingAttached, HaveNothingAttached, message_of, signal_of};
ghost use Rattle.dbc_statements.specs.Statement.{signals_of};

use crate::definitions::{further_definitions, gather_definition};
use crate::finding::{LastFound, finders_of};
use crate::gathered::{Gathered, attach_nothing};
use crate::settling::settle_others;
use base::Items;
use dbc_lex::ReadFault;
use dbc_sheet::{Signal, ValueTexts};
use dbc_statements::{MessageLine, NodeName, Statement, Statements};
use dbc_words::{Spn, Text, ValueType};
use std::alloc::Global;

/// Takes away what is attached to the signal.
fn clear_signal(alloc: Global, signal: &mut Signal)
    ensures stays { signal_of signal.new ≡ signal_of signal.old }
    ensures nothing { HasNothingAttached signal.new }
{
    signal.comment = Text::empty(alloc);
    signal.values = ValueTexts::empty(alloc);
    signal.value_type = ValueType::Integer;
    signal.spn = Spn::NONE;
}

/// Takes away what is attached to the signals.
fn clear_signals(alloc: Global, signals: &mut [Signal])
    ensures stays { signals_of signals.new ≡ signals_of signals.old }
    ensures nothing { HaveNothingAttached signals.new }
{
    for at in 0..signals.len() {
        clear_signal(alloc, &mut signals[at]);
    }
}

/// Takes away what is attached to the signals of the message, and their offsets.
fn clear_line(alloc: Global, line: &mut MessageLine)
    ensures stays { message_of line.new ≡ message_of line.old }
    ensures nothing { HaveNothingAttached line.new.signals.items }
{
    clear_signals(alloc, &mut line.signals);
    line.offsets = Vec::new(alloc);
}

/// Takes away what is attached to the signals of all messages, and their offsets.
fn clear_lines(alloc: Global, lines: &mut [MessageLine])
    ensures stays { map message_of lines.new ≡ map message_of lines.old }
    ensures bare { AreBare lines.new }
{
    for at in 0..lines.len() {
        clear_line(alloc, &mut lines[at]);
    }
}

/// What is gathered, and what the late statement and those that are left define; or `None` if one of them has too many
/// texts for values.
pub(crate) fn all_definitions(
    alloc: Global,
    gathered: Gathered,
    late: Statement,
    statements: &mut Statements,
) -> Result<Option<Gathered>, ReadFault>
    ensures source { statements.new.source ≡ statements.old.source }
    ensures ok { IfOk result
        (λ found. IfSome found (DefineLate late.entry statements.old.tokens gathered)) }
    ensures err { IfErr result
        (λ fault. UnlessMemory fault.code (statements_at statements.old.tokens ≡ None)) }
{
    let mut definitions = gathered;
    gather_definition(late, &mut definitions)?;
    further_definitions(alloc, definitions, statements)
}

/// The nodes and the messages, with nothing attached to signals, and without their offsets.
fn nodes_and_lines(alloc: Global, definitions: Gathered) -> (Items<NodeName>, Vec<MessageLine>)
    ensures nodes { result.0 ≡ definitions.nodes }
    ensures messages { map message_of result.1.items ≡ map message_of definitions.messages }
    ensures bare { AreBare result.1.items }
{
    let mut definitions = definitions;
    let nodes = definitions.nodes.take();
    let mut lines = definitions.messages.take().into_vec();
    clear_lines(alloc, &mut lines);
    (nodes, lines)
}

/// Gathers the statements that are left, which define these nodes and messages. `false` if [`finders_of`] finds nothing
/// in these, or as [`settle_others`].
fn gather_again(
    alloc: Global,
    nodes: &[NodeName],
    statements: &mut Statements,
    lines: &mut [MessageLine],
    gathered: &mut Gathered,
) -> Result<bool, ReadFault>
    requires bare { AreBare lines.old }
    requires empty { IsEmpty gathered.old }
    ensures source { statements.new.source ≡ statements.old.source }
    ensures ok { IfOk result
        (λ all. IsTrue all → FollowAll nodes.now lines.old statements.old.tokens lines.new
        gathered.new) }
    ensures err { IfErr result
        (λ fault. UnlessMemory fault.code (statements_at statements.old.tokens ≡ None)) }
{
    match finders_of(alloc, nodes, lines)? {
        Some(finders) => {
            attach_nothing(alloc, nodes.len(), lines.len(), gathered)?;
            let mut last_found = LastFound::new();
            settle_others(
                alloc,
                &finders,
                statements,
                &mut last_found,
                lines,
                gathered,
            )
        }
        None => Ok(false),
    }
}

/// The contents of all the statements, which define this, what is attached to signals being in these. `None` if they
/// can't be gathered one by one, as by `gather_one_by_one`.
pub(crate) fn gather_late(
    alloc: Global,
    definitions: Gathered,
    statements: &mut Statements,
) -> Result<Option<Gathered>, ReadFault>
    requires { DefineAll statements.old.tokens definitions }
    ensures source { statements.new.source ≡ statements.old.source }
    ensures ok { IfOk result (λ found. IfSome found
        (λ gathered. IsOfTokens statements.old.tokens (in_signals gathered))) }
    ensures err { IfErr result
        (λ fault. UnlessMemory fault.code (statements_at statements.old.tokens ≡ None)) }
{
    let (nodes, lines) = nodes_and_lines(alloc, definitions);
    let mut lines = lines;
    let mut gathered = Gathered::empty(alloc);
    if !gather_again(
        alloc,
        nodes.as_slice(),
        statements,
        &mut lines,
        &mut gathered,
    )? {
        return Ok(None);
    }
    gathered.nodes = nodes;
    gathered.messages = Items::from_vec(lines);
    Ok(Some(gathered))
}
