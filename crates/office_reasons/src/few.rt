//! Lists in sentences.
ghost use Rattle.std.specs.Prelude.{◌≡◌, ◌++◌, IfOk, map, string_bytes};
ghost use Rattle.office_reasons.specs.Few.{few_text, joint, last_listed, listed, listed_from};
ghost use Rattle.office_reasons.specs.Pieces.{shown};

use crate::pieces::shown;
use base::{Checked, Rule};
use dbc_words::Named;
use std::alloc::{AllocError, Global};

/// How many items of a list a sentence names.
const FEW: usize = 5;

/// The last item that is named, after which so many follow: `a`, or `a and 3 more`.
fn last_listed(alloc: Global, last: &str, more: usize) -> Result<String, AllocError>
    ensures { IfOk result (λ text. string_bytes text ≡ last_listed last.now more) }
{
    if more == 0 {
        String::from_str(alloc, last)
    } else {
        format!(in alloc; "{last} and {more} more")
    }
}

/// What comes before an item that is named after another one, by those that are named after both, and by how many
/// follow that aren't.
fn joint(later: &[String], more: usize) -> &'static str
    ensures { result.now ≡ joint (map (λ s. string_bytes s) later.now) more }
{
    match later {
        [] => { if more == 0 { " and " } else { ", " } }
        [_, ..] => ", ",
    }
}

/// An item and the later ones.
fn joined(alloc: Global, a: &str, joint: &str, later: &str) -> Result<String, AllocError>
    ensures { IfOk result (λ text. string_bytes text ≡ a.now ++ (joint.now ++ later.now)) }
{
    format!(in alloc; "{a}{joint}{later}")
}

/// An item and those after it in words, after which so many follow.
fn listed_from(
    alloc: Global,
    first: &str,
    rest: &[String],
    more: usize,
) -> Result<String, AllocError>
    ensures { IfOk result (λ text. string_bytes text
        ≡ listed_from first.now (map (λ s. string_bytes s) rest.now) more) }
{
    match rest {
        [] => last_listed(alloc, first, more),
        [next, later @ ..] => {
            let text = listed_from(alloc, next.as_str(), later, more)?;
            joined(alloc, first, joint(later, more), text.as_str())
        }
    }
}

/// The items in words, after which so many follow: `a`, `a and b`, `a, b and c`, `a, b and 3 more`.
fn listed(alloc: Global, items: &[String], more: usize) -> Result<String, AllocError>
    ensures { IfOk result
        (λ text. string_bytes text ≡ listed (map (λ s. string_bytes s) items.now) more) }
{
    match items {
        [] => Ok(String::new(alloc)),
        [first, rest @ ..] => listed_from(alloc, first.as_str(), rest, more),
    }
}

/// A few of the items in words, and how many more there are.
#[tactic(auto, using(crate::proofs::FewTexts::few_many, crate::proofs::FewTexts::few_all))]
pub(crate) fn few_text(alloc: Global, items: &[String]) -> Result<String, AllocError>
    ensures { IfOk result
        (λ text. string_bytes text ≡ few_text (map (λ s. string_bytes s) items.now)) }
{
    if items.len() > FEW {
        listed(alloc, &items[..FEW], items.len() - FEW)
    } else {
        listed(alloc, items, 0)
    }
}

/// The names of the things.
fn names_of<T: Named>(alloc: Global, things: &[T]) -> Result<Vec<String>, AllocError>
    ensures { IfOk result (λ names. map (λ s. string_bytes s) names.items
        ≡ map (λ x. shown (T.name_of x)) things.now) }
{
    let mut names = Vec::new(alloc);
    for thing in things {
        let name = String::from_str(alloc, shown(thing.name().as_bytes()))?;
        names.push(name)?;
    }
    Ok(names)
}

/// A few of the things by name.
pub(crate) fn few_named<T: Named>(alloc: Global, things: &[T]) -> Result<String, AllocError>
    ensures { IfOk result (λ text. string_bytes text
        ≡ few_text (map (λ x. shown (T.name_of x)) things.now)) }
{
    let names = names_of(alloc, things)?;
    few_text(alloc, &names)
}

/// The names as texts.
fn texts_of<R: Rule>(alloc: Global, names: &[Checked<R>]) -> Result<Vec<String>, AllocError>
    ensures { IfOk result (λ texts. map (λ s. string_bytes s) texts.items
        ≡ map (λ n. shown n) names.now) }
{
    let mut texts = Vec::new(alloc);
    for name in names {
        let text = String::from_str(alloc, shown(name.as_bytes()))?;
        texts.push(text)?;
    }
    Ok(texts)
}

/// A few of the names.
pub(crate) fn few_names<R: Rule>(alloc: Global, names: &[Checked<R>]) -> Result<String, AllocError>
    ensures { IfOk result
        (λ text. string_bytes text ≡ few_text (map (λ n. shown n) names.now)) }
{
    let texts = texts_of(alloc, names)?;
    few_text(alloc, &texts)
}
