//! The list of all networks, as text.
ghost use Rattle.std.specs.Prelude.{◌≡◌, List, Some, length, map, IfOk};
ghost use Rattle.std.specs.List.{AllByRecursion};
ghost use Rattle.office_types.specs.declared.state.Net.{Net as Network};
ghost use Rattle.office_views.specs.NetList.{net_line, nets_text};
ghost use Rattle.store_rows.specs.Listed.{AreShown};
ghost use Rattle.store_rows.specs.NetIn.{IsNetAt};
ghost use Rattle.store_net.specs.Nets.{AreKnownNets, AreNets};
ghost use Rattle.store_rows.specs.Rows.{IsNamed};
ghost use Rattle.store_tables.specs.Frames.{Asks, ReadsOnly, ReadsWhileOpen};
ghost use Rattle.store_net.specs.Reading.{OnNetThere};

use crate::parts::head_of;
use office_types::NetName;
use office_views::net_line;
use sqlite::types::ValueRef;
use sqlite::{Alter, Error, Row, Transaction};
use std::alloc::Global;
use store_statements::{select_net_names, select_release_numbers};

/// The name that the row shows. An error where it shows none, or memory ran out.
fn name_in(alloc: Global, row: &Row) -> Result<NetName, Error>
    ensures { IfOk result (λ name. IsNamed name row.now) }
{
    let ValueRef::Text(text) = row.get_ref(0)? else {
        return Err(Error::InvalidQuery);
    };
    match NetName::of(alloc, text)? {
        Some(name) => Ok(name),
        None => Err(Error::InvalidQuery),
    }
}

/// The names that the rows show, in order. An error where a row shows none, or memory ran out.
fn names_in(alloc: Global, rows: &[Row]) -> Result<Vec<NetName>, Error>
    ensures { IfOk result (λ names. AreShown IsNamed names.items rows.now) }
{
    let mut names = Vec::new(alloc);
    for row in rows {
        let name = name_in(alloc, row)?;
        names.push(name)?;
    }
    Ok(names)
}

/// The names of all networks, in their order, whatever the form of their live messages. An error is out of memory, what
/// `sqlite` answers, or `InvalidQuery` where a row is no network's.
pub fn names_of<S: Alter>(alloc: Global, tx: &mut Transaction<'_, S>) -> Result<Vec<NetName>, Error>
    ensures found { Asks S.Store tx.old tx.new result (λ names t.
        (nets : List Network) → AreKnownNets t nets → names.items ≡ map (λ net. net.name) nets) }
    ensures frame { ReadsOnly S.Store tx.old tx.new result }
{
    let rows = select_net_names(tx)?;
    names_in(alloc, &rows)
}

/// How many releases the network has. An error is `sqlite`'s.
pub(crate) fn release_count<S: Alter>(
    tx: &mut Transaction<'_, S>,
    name: &NetName,
) -> Result<usize, Error>
    ensures found { Asks S.Store tx.old tx.new result
        (OnNetThere name.now (λ net count. count ≡ length net.releases)) }
    ensures frame { ReadsOnly S.Store tx.old tx.new result }
{
    let rows = select_release_numbers(tx, name.as_bytes())?;
    Ok(rows.as_slice().len())
}

/// The line of the network of the name. An error is out of memory, what `sqlite` answers, or `InvalidQuery` where the
/// network isn't there.
fn line_at<S: Alter>(
    alloc: Global,
    tx: &mut Transaction<'_, S>,
    name: &NetName,
) -> Result<Vec<u8>, Error>
    ensures found { Asks S.Store tx.old tx.new result
        (OnNetThere name.now (λ net line. line.items ≡ net_line net)) }
    ensures frame { ReadsOnly S.Store tx.old tx.new result }
{
    let Some(head) = head_of(alloc, tx, name)? else {
        return Err(Error::InvalidQuery);
    };
    let releases = release_count(tx, name)?;
    Ok(net_line(alloc, name, &head, releases)?)
}

/// The lines of the networks of these names, in order. The errors are those of [`line_at`].
fn lines_at<S: Alter>(
    alloc: Global,
    tx: &mut Transaction<'_, S>,
    names: &[NetName],
) -> Result<Vec<u8>, Error>
    ensures found { Asks S.Store tx.old tx.new result (λ text t.
        (nets : List Network) → AllByRecursion (λ net. IsNetAt net.name t (Some net)) nets
        → names.now ≡ map (λ net. net.name) nets → text.items ≡ nets_text nets) }
    ensures frame { ReadsWhileOpen S.Store tx.old tx.new result }
{
    let mut text = Vec::new(alloc);
    for name in names {
        let line = line_at(alloc, tx, name)?;
        text.extend_from_slice(&line)?;
    }
    Ok(text)
}

/// The lines of all networks, in the order of their names: name, kind, phase and count of releases. An error is out of
/// memory, what `sqlite` answers, or `InvalidQuery` where rows are no network's.
pub fn nets_text<S: Alter>(alloc: Global, tx: &mut Transaction<'_, S>) -> Result<Vec<u8>, Error>
    ensures found { Asks S.Store tx.old tx.new result
        (λ text t. (nets : List Network) → AreNets t nets → text.items ≡ nets_text nets) }
    ensures frame { ReadsOnly S.Store tx.old tx.new result }
{
    let names = names_of(alloc, tx)?;
    lines_at(alloc, tx, &names)
}
