//! The two lists of `recon`'s input.

ghost use Rattle.std.specs.Prelude.{◌≡◌, ◌≤◌, ◌+◌, ◌++◌, ◌∷◌, length, map, All, IfOk, IfErr, IfSome, IfNone};
ghost use Rattle.mirror_run.specs.Lines.{lines_of, FirstIsNot};
ghost use Rattle.mirror_run.specs.ItemLists.{item_line, IsItem, IsItemLine, IsInput};
ghost use Rattle.mirror_run.specs.Refused.{IsFormRefusal};

use crate::item_text::parse_item;
use crate::lines::cut_line;
use crate::refusal::{LineFault, Refusal};
use item_key::Item;
use std::alloc::{AllocError, Global};

/// The items of both sides, in the order of the input.
#[derive(Drop)]
pub struct Lists {
    pub mine: Vec<Item>,
    pub theirs: Vec<Item>,
}

/// The text after the first line, if that is the word.
fn skip_word<'a>(text: &'a [u8], word: &[u8]) -> Option<&'a [u8]>
    ensures found { IfSome result (λ rest. lines_of text.now ≡ word.now ∷ lines_of rest.now) }
    ensures none { IfNone result (FirstIsNot (λ line. line ≡ word.now) (lines_of text.now)) }
{
    let (line, rest) = cut_line(text)?;
    if line == word { Some(rest) } else { None }
}

/// The items of the item lines at the front, and the text after these.
fn take_items(alloc: Global, text: &[u8]) -> Result<(Vec<Item>, &[u8]), AllocError>
    ensures lines { IfOk result (λ r. lines_of text.now ≡ map item_line r.0.items ++ lines_of r.1.now) }
    ensures items { IfOk result (λ r. All IsItem r.0.items) }
    ensures all { IfOk result (λ r. FirstIsNot IsItemLine (lines_of r.1.now)) }
    ensures few { IfOk result (λ r. length r.0.items + length r.1.now ≤ length text.now) }
{
    let mut items = Vec::new(alloc);
    let mut rest = text;
    while let Some((line, after)) = cut_line(rest) {
        let Some(item) = parse_item(line) else {
            return Ok((items, rest));
        };
        items.push(item)?;
        rest = after;
    }
    Ok((items, rest))
}

/// The lists that the text tells.
pub fn read_lists(alloc: Global, text: &[u8]) -> Result<Lists, Refusal>
    requires { length text.now ≤ 67108864 }
    ensures ok { IfOk result (λ lists. IsInput text.now lists.mine.items lists.theirs.items) }
    ensures err { IfErr result (IsFormRefusal (lines_of text.now)) }
{
    let Some(rest) = skip_word(text, b"mine") else {
        return Err(Refusal::Line(1, LineFault::Form));
    };
    let (mine, rest) = take_items(alloc, rest)?;
    let Some(rest) = skip_word(rest, b"theirs") else {
        return Err(Refusal::Line(mine.len() + 2, LineFault::Form));
    };
    let (theirs, rest) = take_items(alloc, rest)?;
    if !rest.is_empty() {
        return Err(Refusal::Line(mine.len() + theirs.len() + 3, LineFault::Form));
    }
    Ok(Lists { mine, theirs })
}
