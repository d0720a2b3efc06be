//! The texts of plan files.

ghost use Rattle.std.specs.Prelude.{◌≡◌, ◌<◌, ◌++◌, All, IfOk, OnOk, string_bytes};
ghost use Rattle.std.specs.List.{flat_map};
ghost use Rattle.item_key.specs.Keys.{IsId};
ghost use Rattle.sharing.specs.declared.TheConstants.{RELAYS};
ghost use Rattle.sharing.specs.Offers.{AreRelays};
ghost use Rattle.plan_check.specs.File.{IsBase, pairs_of};
ghost use Rattle.plan_check.specs.TextLines.{ended};
ghost use Rattle.plan_check.specs.PlanText.{header_line, base_line, offer_line, give_line, group_line, IsTextOf};

use crate::PlanFile;
use crate::lines::{LONGEST_LINE, set_base, set_give, set_group, set_offer};
use item_key::Id;
use std::alloc::{AllocError, Global};

/// Appends the header.
fn put_header(text: &mut Vec<u8>, bases: &[(u16, u64)]) -> Result<(), AllocError>
    ensures { OnOk result (text.new.items ≡ text.old.items ++ ended (header_line bases.now)) }
{
    if bases.is_empty() {
        text.extend_from_slice(b"nostr-plan 1\n")
    } else {
        text.extend_from_slice(b"nostr-plan 2\n")
    }
}

/// Appends the lines of bases.
fn put_bases(text: &mut Vec<u8>, bases: &[(u16, u64)]) -> Result<(), AllocError>
    requires { All IsBase bases.now }
    ensures { OnOk result (text.new.items ≡ text.old.items ++ flat_map (λ b. ended (base_line b)) bases.now) }
{
    let mut line = [0; LONGEST_LINE];
    for base in bases {
        let end = set_base(&mut line, base.0, base.1);
        text.extend_from_slice(&line[..end])?;
    }
    Ok(())
}

/// Appends the lines of offers.
fn put_offers(text: &mut Vec<u8>, offers: &[(Id, Vec<u16>)]) -> Result<(), AllocError>
    requires { All (λ o. AreRelays o.1) (pairs_of offers.now) }
    ensures written { OnOk result (text.new.items ≡ text.old.items ++ flat_map (λ o. ended (offer_line o)) (pairs_of offers.now)) }
    ensures ids { OnOk result (All (λ o. IsId o.0) offers.now) }
{
    let mut line = [0; LONGEST_LINE];
    for offer in offers {
        let end = set_offer(&mut line, &offer.0, &offer.1);
        text.extend_from_slice(&line[..end])?;
    }
    Ok(())
}

/// Appends the lines of gives.
fn put_gives(text: &mut Vec<u8>, gives: &[(Id, u16)]) -> Result<(), AllocError>
    requires { All (λ g. g.1 < RELAYS) gives.now }
    ensures written { OnOk result (text.new.items ≡ text.old.items ++ flat_map (λ g. ended (give_line g)) gives.now) }
    ensures ids { OnOk result (All (λ g. IsId g.0) gives.now) }
{
    let mut line = [0; LONGEST_LINE];
    for give in gives {
        let end = set_give(&mut line, &give.0, give.1);
        text.extend_from_slice(&line[..end])?;
    }
    Ok(())
}

/// Appends the line of a group.
fn put_group(text: &mut Vec<u8>, group: &[u16]) -> Result<(), AllocError>
    requires { AreRelays group.now }
    ensures { OnOk result (text.new.items ≡ text.old.items ++ ended (group_line group.now)) }
{
    let mut line = [0; LONGEST_LINE];
    let end = set_group(&mut line, group);
    text.extend_from_slice(&line[..end])
}

/// The bytes of a plan file's text.
fn bytes_of(alloc: Global, file: &PlanFile) -> Result<Vec<u8>, AllocError>
    ensures { IfOk result (λ bytes. IsTextOf bytes.items file.now) }
{
    let mut bytes = Vec::new(alloc);
    put_header(&mut bytes, file.bases())?;
    put_bases(&mut bytes, file.bases())?;
    put_offers(&mut bytes, file.offers())?;
    put_gives(&mut bytes, file.gives())?;
    put_group(&mut bytes, file.group())?;
    Ok(bytes)
}

/// The text of a plan file.
pub fn write_plan(alloc: Global, file: &PlanFile) -> Result<String, AllocError>
    ensures { IfOk result (λ text. IsTextOf (string_bytes text) file.now) }
{
    let bytes = bytes_of(alloc, file)?;
    let Ok(text) = String::from_utf8(bytes) else {
        unreachable!();
    };
    Ok(text)
}
