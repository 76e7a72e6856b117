//! The statements of a text, gathered one by one.
//!
//! Most files define all nodes and messages before anything cites one. Then what a statement cites is known when the
//! statement comes (`finding`), and it is gathered at once (`settling`). If a definition comes after that, it may be of
//! something that was cited before. Then only the definitions are gathered to the end (`late`).
ghost use Rattle.std.specs.Prelude.{◌≡◌, None, IfErr, IfOk, IfSome, OnOk, true};
ghost use Rattle.dbc_grammar.specs.Parsing.{statements_at};
ghost use Rattle.dbc_lex.specs.Fault.{UnlessMemory};
ghost use Rattle.dbc_read.specs.Attaching.{in_signals};
ghost use Rattle.dbc_read.specs.Finding.{FindsAll, FindsSignals};
ghost use Rattle.dbc_read.specs.Gathering.{AreBare, Defines, IsEmpty, cites};
ghost use Rattle.dbc_read.specs.Late.{IsFound};
ghost use Rattle.dbc_read.specs.Settling.{AreSettled, Follow};
ghost use Rattle.dbc_statements.specs.Statement.{content_of};

use crate::finding::{Finders, LastFound, finders_of};
use crate::gathered::{Gathered, attach_nothing, gather_statement};
use crate::late::all_definitions;
use crate::settling::{Settled, settle_all, settle_first};
use base::Items;
use dbc_lex::ReadFault;
use dbc_statements::{Content, MessageLine, NodeName, Statement, Statements};
use std::alloc::Global;

/// What is gathered of all the statements.
#[derive(Drop)]
pub(crate) enum Found {
    /// Their contents, what is attached to signals being in these.
    All(Gathered),
    /// What they define, since a node or a message is defined after something was cited. What else is gathered is of no
    /// use.
    Definitions(Gathered),
}

/// Whether it cites a node, a message or a signal.
fn cites(content: &Content) -> bool
    ensures { result ≡ cites (content_of content.now) }
{
    match content {
        Content::NodeComment(_, _) => true,
        Content::MessageComment(_, _) => true,
        Content::SignalComment(_, _) => true,
        Content::ValueTexts(_, _) => true,
        Content::ValueType(_, _) => true,
        Content::Spn(_, _) => true,
        _ => false,
    }
}

/// Gathers the statements up to the first that cites something, which is returned, or up to the last. Where signals
/// are is not kept: to find a fault, the text is read once more.
fn gather_definitions<'a>(
    alloc: Global,
    statements: &mut Statements<'a>,
    gathered: &mut Gathered,
) -> Result<Option<Statement<'a>>, ReadFault>
    ensures source { statements.new.source ≡ statements.old.source }
    ensures ok { IfOk result
        (Defines statements.old.tokens statements.new.tokens gathered.old gathered.new) }
    ensures bare { OnOk result (AreBare gathered.old.messages → AreBare gathered.new.messages) }
    ensures err { IfErr result
        (λ fault. UnlessMemory fault.code (statements_at statements.old.tokens ≡ None)) }
{
    'statements: while let Some(next) = statements.read_next(alloc)? {
        if cites(&next.content) {
            return Ok(Some(next));
        }
        gather_statement(None, next.without_offsets(alloc), gathered)?;
    }
    Ok(None)
}

/// Gathers the statements after those that define these nodes and messages, which are found so, up to the first that
/// defines another. `None` as [`settle_all`].
fn gather_found<'a>(
    alloc: Global,
    finders: &Finders,
    nodes: &[NodeName],
    first: Option<Statement<'a>>,
    statements: &mut Statements<'a>,
    lines: &mut [MessageLine],
    gathered: &mut Gathered,
) -> Result<Option<Settled<'a>>, ReadFault>
    requires cites { IfSome first (λ s. cites (content_of s.content) ≡ true) }
    requires signals { FindsSignals finders.now lines.old }
    requires finds { FindsAll finders.now nodes.now lines.old }
    requires bare { AreBare lines.old }
    ensures source { statements.new.source ≡ statements.old.source }
    ensures ok { IfOk result (λ found. IfSome found
        (λ settled. Follow nodes.now lines.old first.entry settled statements.old.tokens
        statements.new.tokens
        gathered.old lines.new gathered.new)) }
    ensures err { IfErr result
        (λ fault. UnlessMemory fault.code (statements_at statements.old.tokens ≡ None)) }
{
    attach_nothing(alloc, nodes.len(), lines.len(), gathered)?;
    let mut last_found = LastFound::new();
    if !settle_first(finders, first, &mut last_found, lines, gathered)? {
        return Ok(None);
    }
    settle_all(alloc, finders, statements, &mut last_found, lines, gathered)
}

/// Gathers the statements after those that define these nodes and messages, up to the first that defines another.
/// `None` if [`finders_of`] finds nothing in these, or as [`gather_found`].
fn gather_others<'a>(
    alloc: Global,
    nodes: &[NodeName],
    first: Option<Statement<'a>>,
    statements: &mut Statements<'a>,
    lines: &mut [MessageLine],
    gathered: &mut Gathered,
) -> Result<Option<Settled<'a>>, ReadFault>
    requires cites { IfSome first (λ s. cites (content_of s.content) ≡ true) }
    requires bare { AreBare lines.old }
    ensures source { statements.new.source ≡ statements.old.source }
    ensures ok { IfOk result (λ found. IfSome found
        (λ settled. Follow nodes.now lines.old first.entry settled statements.old.tokens
        statements.new.tokens
        gathered.old lines.new gathered.new)) }
    ensures err { IfErr result
        (λ fault. UnlessMemory fault.code (statements_at statements.old.tokens ≡ None)) }
{
    match finders_of(alloc, nodes, lines)? {
        Some(finders) => gather_found(alloc, &finders, nodes, first, statements, lines, gathered),
        None => Ok(None),
    }
}

/// Gathers the statements that are left, up to the first that defines something that could be cited after something was
/// cited. `None` as [`gather_others`].
fn gather_up_to<'a>(
    alloc: Global,
    statements: &mut Statements<'a>,
    gathered: &mut Gathered,
) -> Result<Option<Settled<'a>>, ReadFault>
    requires { IsEmpty gathered.old }
    ensures source { statements.new.source ≡ statements.old.source }
    ensures ok { IfOk result (λ found. IfSome found
        (λ settled. AreSettled settled statements.old.tokens statements.new.tokens
        (in_signals gathered.new))) }
    ensures err { IfErr result
        (λ fault. UnlessMemory fault.code (statements_at statements.old.tokens ≡ None)) }
{
    let first = gather_definitions(alloc, statements, gathered)?;
    let nodes = gathered.nodes.take();
    let mut lines = gathered.messages.take().into_vec();
    let settled = gather_others(
        alloc,
        nodes.as_slice(),
        first,
        statements,
        &mut lines,
        gathered,
    )?;
    gathered.nodes = nodes;
    gathered.messages = Items::from_vec(lines);
    Ok(settled)
}

/// What is gathered of all the statements that are left. `None` if they can't be gathered one by one: two messages have
/// the same number, a message has 65,536 signals or more, or a statement has too many texts for values.
pub(crate) fn gather_one_by_one(
    alloc: Global,
    statements: &mut Statements,
) -> Result<Option<Found>, ReadFault>
    ensures source { statements.new.source ≡ statements.old.source }
    ensures ok { IfOk result (λ found. IfSome found (IsFound statements.old.tokens)) }
    ensures err { IfErr result
        (λ fault. UnlessMemory fault.code (statements_at statements.old.tokens ≡ None)) }
{
    let mut gathered = Gathered::empty(alloc);
    match gather_up_to(alloc, statements, &mut gathered)? {
        Some(Settled::All) => Ok(Some(Found::All(gathered))),
        Some(Settled::UpTo(late)) => match all_definitions(alloc, gathered, late, statements)? {
            Some(definitions) => Ok(Some(Found::Definitions(definitions))),
            None => Ok(None),
        },
        None => Ok(None),
    }
}
