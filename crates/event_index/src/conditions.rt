//! The marks of a filter's conditions.
ghost use Rattle.std.specs.Prelude.{◌≡◌, ◌++◌, ◌∷◌, [], Some, map, All, IfOk, OnOk};
ghost use Rattle.event_index.specs.Marks.{mixed, value_mark, AreMarksOf};

use crate::mark::{author_mark, value_mark};
use nostr_filter::{Bytes32List, Filter, Kinds, TagCondition};
use std::alloc::{AllocError, Global};

/// The marks of one condition.
#[derive(Drop)]
pub struct Marks {
    pub marks: Vec<u64>,
}

fn author_marks(alloc: Global, authors: &Bytes32List) -> Result<Vec<u64>, AllocError>
    ensures { IfOk result (λ v. v.items ≡ map (mixed 0) authors.now) }
{
    authors
        .as_slice()
        .iter()
        .map(|author| author_mark(author))
        .collect(alloc)
}

fn kind_marks(alloc: Global, kinds: &Kinds) -> Result<Vec<u64>, AllocError>
    ensures { IfOk result (λ v. v.items ≡ kinds.now) }
{
    kinds
        .as_slice()
        .iter()
        .map(|kind| *kind as u64)
        .collect(alloc)
}

fn value_marks(alloc: Global, condition: &TagCondition) -> Result<Vec<u64>, AllocError>
    ensures { IfOk result (λ v. v.items ≡ map (value_mark condition.now.letter) condition.now.values) }
{
    condition
        .values
        .as_slice()
        .iter()
        .map(|value| value_mark(condition.letter, value.as_str()))
        .collect(alloc)
}

// Puts the marks of the condition on authors behind the others, if there is one.
fn put_authors(all: &mut Vec<Marks>, alloc: Global, filter: &Filter) -> Result<(), AllocError>
    requires { All (λ m. AreMarksOf filter.now m.marks.items) all.old.items }
    ensures { OnOk result (All (λ m. AreMarksOf filter.now m.marks.items) all.new.items) }
{
    if let Some(authors) = &filter.authors {
        let marks = author_marks(alloc, authors)?;
        all.push(Marks { marks })?;
    }
    Ok(())
}

// The same for the condition on kinds.
fn put_kinds(all: &mut Vec<Marks>, alloc: Global, filter: &Filter) -> Result<(), AllocError>
    requires { All (λ m. AreMarksOf filter.now m.marks.items) all.old.items }
    ensures { OnOk result (All (λ m. AreMarksOf filter.now m.marks.items) all.new.items) }
{
    if let Some(kinds) = &filter.kinds {
        let marks = kind_marks(alloc, kinds)?;
        all.push(Marks { marks })?;
    }
    Ok(())
}

// The same for each condition on tags.
fn put_tags(all: &mut Vec<Marks>, alloc: Global, filter: &Filter) -> Result<(), AllocError>
    requires { All (λ m. AreMarksOf filter.now m.marks.items) all.old.items }
    ensures { OnOk result (All (λ m. AreMarksOf filter.now m.marks.items) all.new.items) }
{
    for condition in filter.tags.as_slice() {
        let marks = value_marks(alloc, condition)?;
        all.push(Marks { marks })?;
    }
    Ok(())
}

/// For each of the filter's conditions on authors, kinds and tags, the marks of which each event that it matches has one.
pub fn conditions(alloc: Global, filter: &Filter) -> Result<Vec<Marks>, AllocError>
    ensures { IfOk result (λ v. All (λ m. AreMarksOf filter.now m.marks.items) v.items) }
{
    let mut all = Vec::new(alloc);
    put_authors(&mut all, alloc, filter)?;
    put_kinds(&mut all, alloc, filter)?;
    put_tags(&mut all, alloc, filter)?;
    Ok(all)
}
