//! The item that a line tells.

ghost use Rattle.std.specs.Prelude.{◌≡◌, ◌≢◌, IfSome, IfNone};
ghost use Rattle.item_key.specs.declared.Item.{Item as AnItem};
ghost use Rattle.mirror_run.specs.ItemLists.{item_line, IsItem};

use id_text::{parse_id, parse_number};
use item_key::Item;

/// The item of a line.
pub(crate) fn parse_item(line: &[u8]) -> Option<Item>
    ensures found { IfSome result (λ item. line.now ≡ item_line item) }
    ensures item { IfSome result IsItem }
    ensures none { IfNone result ((item : AnItem) → IsItem item → line.now ≢ item_line item) }
{
    if line.len() < 65 {
        return None;
    }
    let (time, rest) = line.split_at(line.len() - 65);
    if rest[0] != b' ' {
        return None;
    }
    let (_, id) = rest.split_at(1);
    let time = parse_number(time)?;
    let id = parse_id(id)?;
    Some(Item { time, id })
}
