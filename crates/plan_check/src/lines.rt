//! The lines of a plan text, put together in memory that was lent.

ghost use Rattle.std.specs.Prelude.{◌≡◌, ◌≤◌, ◌<◌, ◌+◌, ◌*◌, ◌++◌, All, length, take, drop, decimal};
ghost use Rattle.hex.specs.Hex.{encode_lower};
ghost use Rattle.item_key.specs.Keys.{IsId};
ghost use Rattle.sharing.specs.declared.TheConstants.{RELAYS};
ghost use Rattle.sharing.specs.Offers.{AreRelays};
ghost use Rattle.plan_check.specs.File.{IsBase};
ghost use Rattle.plan_check.specs.TextLines.{ended};
ghost use Rattle.plan_check.specs.PlanText.{number_text, relays_text, base_line, offer_line, give_line, group_line};
ghost use Rattle.plan_check.specs.declared.lines.TheConstants.{LONGEST_LINE};

use id_text::digits_of;
use item_key::Id;
use sharing::SLOTS;

/// Bytes that are enough for each line: for that of an id which all relays offer, with four bytes for each relay.
pub const LONGEST_LINE: usize = 6 + 64 + 4 * SLOTS + 1;

/// Bytes that are enough for each number.
const LONGEST_NUMBER: usize = 20;

/// Sets bytes from a place on, and answers the place behind them.
fn set_word(line: &mut [u8], at: usize, word: &[u8]) -> usize
    requires { at + length word.now ≤ length line.old }
    ensures text { take result line.new ≡ take at line.old ++ word.now }
    ensures end { result ≡ at + length word.now }
    ensures room { length line.new ≡ length line.old }
{
    let end = at + word.len();
    line[at..end].copy_from_slice(word);
    end
}

/// Sets the digits of an id from a place on.
fn set_id(line: &mut [u8], at: usize, id: &Id) -> usize
    requires { at + 64 ≤ length line.old }
    ensures text { take result line.new ≡ take at line.old ++ encode_lower id.now.0 }
    ensures end { result ≡ at + 64 }
    ensures room { length line.new ≡ length line.old }
    ensures id { IsId id.now }
{
    set_word(line, at, &digits_of(id))
}

/// Sets the decimal digits of a number at the end of a buffer, and answers the place of the first.
fn set_digits(buffer: &mut [u8; LONGEST_NUMBER], number: u64) -> usize
    ensures digits { drop result buffer.new ≡ decimal number }
    ensures within { result ≤ 20 }
{
    let mut at = LONGEST_NUMBER - 1;
    let mut rest = number;
    while 10 <= rest {
        buffer[at] = b'0' + (rest % 10) as u8;
        rest /= 10;
        at -= 1;
    }
    buffer[at] = b'0' + rest as u8;
    at
}

/// Sets a space and a number from a place on.
fn set_number(line: &mut [u8], at: usize, number: u64) -> usize
    requires room { at + length (number_text number) ≤ length line.old }
    ensures text { take result line.new ≡ take at line.old ++ number_text number }
    ensures end { result ≡ at + length (number_text number) }
    ensures room { length line.new ≡ length line.old }
{
    let mut buffer = [0; LONGEST_NUMBER];
    let first = set_digits(&mut buffer, number);
    let space = set_word(line, at, b" ");
    set_word(line, space, &buffer[first..])
}

/// Sets relays from a place on, each behind a space.
fn set_relays(line: &mut [u8], at: usize, relays: &[u16]) -> usize
    requires relays { All (λ r. r < RELAYS) relays.now }
    requires room { at + 4 * length relays.now ≤ length line.old }
    ensures text { take result line.new ≡ take at line.old ++ relays_text relays.now }
    ensures end { result ≤ at + 4 * length relays.now }
    ensures room { length line.new ≡ length line.old }
{
    let mut end = at;
    for relay in relays {
        end = set_number(line, end, u64::from(*relay));
    }
    end
}

/// Sets the line of a base, and answers where it ends.
pub(crate) fn set_base(line: &mut [u8], relay: u16, load: u64) -> usize
    requires base { IsBase (relay, load) }
    requires room { LONGEST_LINE ≤ length line.old }
    ensures text { take result line.new ≡ ended (base_line (relay, load)) }
    ensures end { result ≤ length line.new }
    ensures room { length line.new ≡ length line.old }
{
    let word = set_word(line, 0, b"base");
    let name = set_number(line, word, u64::from(relay));
    let last = set_number(line, name, load);
    set_word(line, last, b"\n")
}

/// Sets the line of an offer, and answers where it ends.
pub(crate) fn set_offer(line: &mut [u8], id: &Id, relays: &[u16]) -> usize
    requires relays { AreRelays relays.now }
    requires room { LONGEST_LINE ≤ length line.old }
    ensures text { take result line.new ≡ ended (offer_line (id.now, relays.now)) }
    ensures end { result ≤ length line.new }
    ensures room { length line.new ≡ length line.old }
    ensures id { IsId id.now }
{
    let word = set_word(line, 0, b"offer ");
    let name = set_id(line, word, id);
    let last = set_relays(line, name, relays);
    set_word(line, last, b"\n")
}

/// Sets the line of a give, with its line feed, at the front of a buffer of at least [`LONGEST_LINE`] bytes, and answers
/// where it ends.
pub fn set_give(line: &mut [u8], id: &Id, relay: u16) -> usize
    requires relay { relay < RELAYS }
    requires room { LONGEST_LINE ≤ length line.old }
    ensures text { take result line.new ≡ ended (give_line (id.now, relay)) }
    ensures end { result ≤ length line.new }
    ensures room { length line.new ≡ length line.old }
    ensures id { IsId id.now }
{
    let word = set_word(line, 0, b"give ");
    let name = set_id(line, word, id);
    let last = set_number(line, name, u64::from(relay));
    set_word(line, last, b"\n")
}

/// Sets the line of a group, with its line feed, at the front of a buffer of at least [`LONGEST_LINE`] bytes, and answers
/// where it ends.
pub fn set_group(line: &mut [u8], relays: &[u16]) -> usize
    requires relays { AreRelays relays.now }
    requires room { LONGEST_LINE ≤ length line.old }
    ensures text { take result line.new ≡ ended (group_line relays.now) }
    ensures end { result ≤ length line.new }
    ensures room { length line.new ≡ length line.old }
{
    let word = set_word(line, 0, b"group");
    let last = set_relays(line, word, relays);
    set_word(line, last, b"\n")
}
