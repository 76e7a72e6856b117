//! Statements that define nothing that could be cited, gathered one by one where what they cite can be found.
//!
//! What they attach to signals is set in these at once, so that the last one counts.
ghost use Rattle.std.specs.Prelude.{◌≡◌, ℕ, List, None, Some, IfErr, IfOk, IfSome, IsTrue, OnOk, false, map, true};
ghost use Rattle.dbc_grammar.specs.Parsing.{statements_at};
ghost use Rattle.dbc_grammar.specs.Statement.{Cited};
ghost use Rattle.dbc_lex.specs.Fault.{UnlessMemory};
ghost use Rattle.dbc_read.specs.Attaching.{AreIndicesOf, HasSignalIfAny, IsAttached, cites_signal};
ghost use Rattle.dbc_read.specs.Finding.{FindsSignals};
ghost use Rattle.dbc_read.specs.Gathering.{IsGathered, Settles, cites, defines, one_or_none};
ghost use Rattle.dbc_read.specs.Late.{SettlesOthers};
ghost use Rattle.dbc_read.specs.Settling.{SettlesTo};
ghost use Rattle.dbc_statements.specs.Statement.{content_of, message_of};

use crate::attaching::{Attachment, SignalIndices, attach_at};
use crate::finding::{Finders, LastFound};
use crate::gathered::{Citing, Gathered, gather};
use crate::passed::Passed;
use base::Items;
use dbc_lex::ReadFault;
use dbc_statements::{Content, MessageLine, Statement, Statements};
use std::alloc::{AllocError, Global};

/// Which statements of those that are left are gathered.
#[derive(Drop)]
pub(crate) enum Settled<'a> {
    /// All.
    All,
    /// Those before this one, which is the first that defines something that could be cited.
    UpTo(Statement<'a>),
}

/// Whether it defines nodes or a message, which other statements may cite.
fn defines(content: &Content) -> bool
    ensures { result ≡ defines (content_of content.now) }
{
    match content {
        Content::Nodes(_) => true,
        Content::Message(_) => true,
        _ => false,
    }
}

/// Attaches to the signal at the indices. If there are none, the statement is skipped.
#[inline(always)]
fn attach(
    indices: Option<SignalIndices>,
    attachment: Attachment,
    statement: Passed,
    lines: &mut [MessageLine],
    passed: &mut Items<Passed>,
) -> Result<(), AllocError>
    requires { HasSignalIfAny lines.old indices }
    ensures messages { map message_of lines.new ≡ map message_of lines.old }
    ensures attached { OnOk result
        ((number : Cited) (name : List ℕ) → AreIndicesOf lines.old number name indices
        → IsAttached number name attachment statement lines.old lines.new passed.old passed.new) }
{
    match indices {
        Some(indices) => {
            attach_at(lines, indices, attachment);
            Ok(())
        }
        None => passed.push(statement),
    }
}

/// Gathers a statement that cites no signal.
#[inline(never)]
fn settle_other(
    finders: &Finders,
    statement: Passed,
    content: Content,
    last_found: &mut LastFound,
    gathered: &mut Gathered,
) -> Result<(), AllocError>
    requires { cites_signal content ≡ false }
    ensures { OnOk result (IsGathered finders.now statement content.entry gathered.old
        gathered.new) }
{
    let index = last_found.index(finders, &content);
    gather(Citing { statement, index }, content, gathered)
}

/// Gathers a statement that defines nothing that could be cited. `false` if it isn't gathered so, since it has too many
/// texts for values.
#[inline(always)]
fn settle(
    finders: &Finders,
    statement: Statement,
    last_found: &mut LastFound,
    lines: &mut [MessageLine],
    gathered: &mut Gathered,
) -> Result<bool, AllocError>
    requires none { defines (content_of statement.content) ≡ false }
    requires signals { FindsSignals finders.now lines.old }
    ensures messages { map message_of lines.new ≡ map message_of lines.old }
    ensures settles { IfOk result (λ all. IsTrue all
        → Settles finders.now (one_or_none (Some statement.entry)) lines.old gathered.old lines.new
        gathered.new) }
{
    let indices = last_found.indices_cited(finders, lines, &statement.content);
    let (at, keyword, content) = statement.into_parts();
    let from = Passed { at, keyword };
    match content {
        Content::SignalComment(_cited, text) => {
            let passed = &mut gathered.passed;
            attach(indices, Attachment::Comment(text), from, lines, passed)?;
            Ok(true)
        }
        Content::ValueTexts(_cited, entries) => match entries.into_texts() {
            Some(texts) => {
                let passed = &mut gathered.passed;
                attach(indices, Attachment::Values(texts), from, lines, passed)?;
                Ok(true)
            }
            None => Ok(false),
        },
        Content::ValueType(_cited, value_type) => {
            let passed = &mut gathered.passed;
            attach(indices, Attachment::Type(value_type), from, lines, passed)?;
            Ok(true)
        }
        Content::Spn(_cited, spn) => {
            let passed = &mut gathered.passed;
            attach(indices, Attachment::Spn(spn), from, lines, passed)?;
            Ok(true)
        }
        other => {
            settle_other(finders, from, other, last_found, gathered)?;
            Ok(true)
        }
    }
}

/// Gathers the first statement, if there is one, which cites something. `false` as [`settle`].
pub(crate) fn settle_first(
    finders: &Finders,
    first: Option<Statement>,
    last_found: &mut LastFound,
    lines: &mut [MessageLine],
    gathered: &mut Gathered,
) -> Result<bool, AllocError>
    requires cites { IfSome first (λ s. cites (content_of s.content) ≡ true) }
    requires signals { FindsSignals finders.now lines.old }
    ensures messages { map message_of lines.new ≡ map message_of lines.old }
    ensures settles { IfOk result (λ all. IsTrue all
        → Settles finders.now (one_or_none first.entry) lines.old gathered.old lines.new
        gathered.new) }
{
    match first {
        Some(first) => settle(finders, first, last_found, lines, gathered),
        None => Ok(true),
    }
}

/// Gathers the statements that are left, up to the first that defines something that could be cited. `None` if one of
/// them isn't gathered so, as [`settle`].
#[inline(never)]
pub(crate) fn settle_all<'a>(
    alloc: Global,
    finders: &Finders,
    statements: &mut Statements<'a>,
    last_found: &mut LastFound,
    lines: &mut [MessageLine],
    gathered: &mut Gathered,
) -> Result<Option<Settled<'a>>, ReadFault>
    requires { FindsSignals finders.now lines.old }
    ensures source { statements.new.source ≡ statements.old.source }
    ensures messages { map message_of lines.new ≡ map message_of lines.old }
    ensures ok { IfOk result (λ found. IfSome found
        (λ settled. SettlesTo finders.now settled statements.old.tokens statements.new.tokens
        lines.old gathered.old
        lines.new gathered.new)) }
    ensures err { IfErr result
        (λ fault. UnlessMemory fault.code (statements_at statements.old.tokens ≡ None)) }
{
    'statements: while let Some(next) = statements.read_next(alloc)? {
        if defines(&next.content) {
            return Ok(Some(Settled::UpTo(next)));
        }
        if !settle(finders, next, last_found, lines, gathered)? {
            return Ok(None);
        }
    }
    Ok(Some(Settled::All))
}

/// Gathers the statements that are left, without those that define something that could be cited, whose definitions are
/// known. `false` if one of them isn't gathered so, as [`settle`].
#[inline(never)]
pub(crate) fn settle_others(
    alloc: Global,
    finders: &Finders,
    statements: &mut Statements,
    last_found: &mut LastFound,
    lines: &mut [MessageLine],
    gathered: &mut Gathered,
) -> Result<bool, ReadFault>
    requires { FindsSignals finders.now lines.old }
    ensures source { statements.new.source ≡ statements.old.source }
    ensures messages { map message_of lines.new ≡ map message_of lines.old }
    ensures ok { IfOk result
        (λ all. IsTrue all
        → SettlesOthers finders.now statements.old.tokens lines.old gathered.old lines.new
        gathered.new) }
    ensures err { IfErr result
        (λ fault. UnlessMemory fault.code (statements_at statements.old.tokens ≡ None)) }
{
    'statements: while let Some(next) = statements.read_next(alloc)? {
        if !defines(&next.content) {
            if !settle(finders, next, last_found, lines, gathered)? {
                return Ok(false);
            }
        }
    }
    Ok(true)
}
