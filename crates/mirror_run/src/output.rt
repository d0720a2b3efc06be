//! What `recon` prints.

ghost use Rattle.std.specs.Prelude.{◌≡◌, ◌≤◌, ◌⊎◌, [], ◌∷◌, length, flat_map, OnOk, IfErr};
ghost use Rattle.std.specs.Io.KnownBytes.{Appends, Keeps};
ghost use Rattle.mirror_run.specs.Waiting.{Sends};
ghost use Rattle.hex.specs.Hex.{encode_lower};
ghost use Rattle.mirror_run.specs.ReconText.{message_text, exchange_text, count_text, ids_text, recon_text};

use crate::refusal::Refusal;
use crate::waiting::{put, send};
use id_text::digits_of;
use item_key::Id;
use neg_session::Pair;
use std::alloc::Global;
use std::collections::BTreeSet;
use std::io;
use std::io::Write;

/// Writes 32 bytes in hex.
fn write_hex_block<W: Write>(out: &mut W, wait: &mut Vec<u8>, bytes: &[u8]) -> io::Result<()>
    requires { length bytes.now ≡ 32 }
    ensures { OnOk result (Sends (W.contents out.old) wait.old.items (W.contents out.new) wait.new.items (encode_lower bytes.now)) }
{
    let mut block = [0; 32];
    block.copy_from_slice(bytes);
    put(out, wait, &digits_of(&Id(block)))
}

/// Writes at most 32 bytes in hex.
fn write_hex_rest<W: Write>(out: &mut W, wait: &mut Vec<u8>, bytes: &[u8]) -> io::Result<()>
    requires { length bytes.now ≤ 32 }
    ensures { OnOk result (Sends (W.contents out.old) wait.old.items (W.contents out.new) wait.new.items (encode_lower bytes.now)) }
{
    let mut text = [0; 64];
    let (front, _) = text.split_at_mut(2 * bytes.len());
    let Ok(()) = hex::encode_to_slice(bytes, front) else {
        unreachable!();
    };
    put(out, wait, front)
}

/// Writes bytes in hex.
fn write_hex<W: Write>(out: &mut W, wait: &mut Vec<u8>, bytes: &[u8]) -> io::Result<()>
    ensures { OnOk result (Sends (W.contents out.old) wait.old.items (W.contents out.new) wait.new.items (encode_lower bytes.now)) }
{
    let mut rest = bytes;
    while rest.len() > 32 {
        let (front, after) = rest.split_at(32);
        write_hex_block(out, wait, front)?;
        rest = after;
    }
    write_hex_rest(out, wait, rest)
}

/// Writes a line of a word and bytes in hex.
fn write_message<W: Write>(
    out: &mut W,
    wait: &mut Vec<u8>,
    word: &[u8],
    bytes: &[u8],
) -> io::Result<()>
    ensures { OnOk result (Sends (W.contents out.old) wait.old.items (W.contents out.new) wait.new.items (message_text word.now bytes.now)) }
{
    put(out, wait, word)?;
    put(out, wait, b" ")?;
    write_hex(out, wait, bytes)?;
    put(out, wait, b"\n")
}

/// Writes a line of a sign and an id.
fn write_id<W: Write>(out: &mut W, wait: &mut Vec<u8>, sign: u8, id: &Id) -> io::Result<()>
    ensures { OnOk result (Sends (W.contents out.old) wait.old.items (W.contents out.new) wait.new.items (message_text (sign ∷ []) id.now.0)) }
{
    put(out, wait, &[sign, b' '])?;
    put(out, wait, &digits_of(id))?;
    put(out, wait, b"\n")
}

/// Writes a line of a word and a number.
fn write_count<W: Write>(
    out: &mut W,
    wait: &mut Vec<u8>,
    word: &[u8],
    count: usize,
) -> io::Result<()>
    ensures { OnOk result (Sends (W.contents out.old) wait.old.items (W.contents out.new) wait.new.items (count_text word.now count)) }
{
    put(out, wait, word)?;
    send(out, wait)?;
    writeln!(out, " {count}")
}

/// Writes how many ids there are, and a line for each.
fn write_ids<W: Write>(
    out: &mut W,
    wait: &mut Vec<u8>,
    word: &[u8],
    sign: u8,
    ids: &BTreeSet<Id>,
) -> io::Result<()>
    ensures { OnOk result (Sends (W.contents out.old) wait.old.items (W.contents out.new) wait.new.items (ids_text word.now (sign ∷ []) ids.now.keys)) }
{
    write_count(out, wait, word, ids.len())?;
    for id in ids.iter() {
        write_id(out, wait, sign, id)?;
    }
    Ok(())
}

/// Writes a question and its answer.
fn write_pair<W: Write>(out: &mut W, wait: &mut Vec<u8>, pair: &Pair) -> io::Result<()>
    ensures { OnOk result (Sends (W.contents out.old) wait.old.items (W.contents out.new) wait.new.items (exchange_text pair.now)) }
{
    write_message(out, wait, b"ask", pair.asked.as_slice())?;
    write_message(out, wait, b"reply", pair.answered.as_slice())
}

/// Writes the messages.
fn write_pairs<W: Write>(out: &mut W, wait: &mut Vec<u8>, pairs: &[Pair]) -> io::Result<()>
    ensures { OnOk result (Sends (W.contents out.old) wait.old.items (W.contents out.new) wait.new.items (flat_map exchange_text pairs.now)) }
{
    for pair in pairs {
        write_pair(out, wait, pair)?;
    }
    Ok(())
}

/// Writes the messages and the results, through what waits.
fn write_all_of<W: Write>(
    out: &mut W,
    wait: &mut Vec<u8>,
    pairs: &[Pair],
    need: &BTreeSet<Id>,
    have: &BTreeSet<Id>,
    trusted: usize,
) -> io::Result<()>
    ensures { OnOk result (Sends (W.contents out.old) wait.old.items (W.contents out.new) wait.new.items (recon_text pairs.now need.now.keys have.now.keys trusted)) }
{
    write_pairs(out, wait, pairs)?;
    write_ids(out, wait, b"need", b'+', need)?;
    write_ids(out, wait, b"have", b'-', have)?;
    write_count(out, wait, b"trusted", trusted)
}

/// Writes the messages and the results to the end.
fn write_through<W: Write>(
    out: &mut W,
    wait: &mut Vec<u8>,
    pairs: &[Pair],
    need: &BTreeSet<Id>,
    have: &BTreeSet<Id>,
    trusted: usize,
) -> io::Result<()>
    requires { wait.old.items ≡ [] }
    ensures { OnOk result (Appends (W.contents out.old) (W.contents out.new) (recon_text pairs.now need.now.keys have.now.keys trusted)) }
{
    write_all_of(out, wait, pairs, need, have, trusted)?;
    send(out, wait)?;
    out.flush()
}

/// Writes what `recon` prints: the messages, then `need`, `have` and `trusted`.
///
/// Memory is taken before anything is written.
pub fn write_recon<W: Write>(
    alloc: Global,
    writer: &mut W,
    pairs: &[Pair],
    need: &BTreeSet<Id>,
    have: &BTreeSet<Id>,
    trusted: usize,
) -> Result<(), Refusal>
    ensures ok { OnOk result (Appends (W.contents writer.old) (W.contents writer.new) (recon_text pairs.now need.now.keys have.now.keys trusted)) }
    ensures err { IfErr result (λ e. (e ≡ Refusal.Write) ⊎ ((e ≡ Refusal.Memory) × Keeps (W.contents writer.old) (W.contents writer.new))) }
{
    let Ok(mut wait) = Vec::with_capacity(alloc, 1 << 16) else {
        return Err(Refusal::Memory);
    };
    match write_through(writer, &mut wait, pairs, need, have, trusted) {
        Ok(()) => Ok(()),
        Err(_) => Err(Refusal::Write),
    }
}
