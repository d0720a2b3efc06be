// Names, bytes and filters of messages, which contracts see as lists.
ghost use Rattle.std.specs.Prelude.{◌≡◌, ◌≢◌, [], length, true, IfOk, IfErr};
ghost use Rattle.std.specs.Str.{chars};
ghost use Rattle.nostr_wire.specs.Elements.{is_sub};

use nostr_event::Text;
use nostr_filter::Filter;
use std::marker::Model;

/// The name of a subscription or a session, 1 to 64 characters, seen as its UTF-8 bytes.
#[derive(Drop)]
pub struct Sub {
    text: Text,
}

impl Model for Sub {
    ghost use Rattle.std.specs.Prelude.{List, ℕ, ◌≡◌, true};
    ghost use Rattle.nostr_wire.specs.Elements.{is_sub};

    ghost Value = { List ℕ };

    ghost view = { λ s. s.text };

    ghost invariant = { λ s. is_sub s.text ≡ true };
}

// How many characters the text has.
fn char_count(text: &str) -> usize
    ensures { result ≡ length (chars text.now) }
{
    text.chars().count()
}

// Whether the text has 1 to 64 characters.
pub fn is_name(text: &str) -> bool
    ensures { result ≡ is_sub text.now }
{
    let count = char_count(text);
    1 <= count && count <= 64
}

impl Sub {
    /// The name, if the text has 1 to 64 characters; else the text.
    pub fn new(text: Text) -> Result<Sub, Text>
        ensures made { IfOk result (λ s. (s ≡ text) × (is_sub text ≡ true)) }
        ensures given_back { IfErr result (λ t. (t ≡ text) × (is_sub text ≢ true)) }
    {
        if is_name(text.as_str()) {
            Ok(Sub { text })
        } else {
            Err(text)
        }
    }

    pub fn as_str(&self) -> &str
        ensures text { result.now ≡ self.now }
        ensures name { is_sub self.now ≡ true }
    {
        self.text.as_str()
    }

    /// Gives the text back.
    pub fn into_text(self) -> Text
        ensures { result ≡ self }
    {
        self.text
    }
}

/// The bytes of a Negentropy message, seen as a list.
#[derive(Drop)]
pub struct Bytes {
    bytes: Vec<u8>,
}

impl Model for Bytes {
    ghost use Rattle.std.specs.Prelude.{List, ℕ};

    ghost Value = { List ℕ };

    ghost view = { λ b. b.bytes.items };
}

impl Bytes {
    pub fn new(bytes: Vec<u8>) -> Bytes
        ensures { result ≡ bytes.items }
    {
        Bytes { bytes }
    }

    pub fn as_slice(&self) -> &[u8]
        ensures { result.now ≡ self.now }
    {
        self.bytes.as_slice()
    }

    /// Gives the bytes back.
    pub fn into_vec(self) -> Vec<u8>
        ensures { result.items ≡ self }
    {
        self.bytes
    }
}

/// The filters of a request, at least one, seen as a list.
#[derive(Drop)]
pub struct Filters {
    filters: Vec<Filter>,
}

impl Model for Filters {
    ghost use Rattle.std.specs.Prelude.{List, ◌≢◌, []};
    ghost use Rattle.nostr_filter.specs.declared.filter.Filter.{Filter};

    ghost Value = { List Filter };

    ghost view = { λ f. f.filters.items };

    ghost invariant = { λ f. f.filters.items ≢ [] };
}

impl Filters {
    /// The filters of the list, if there is one; else the list.
    pub fn new(filters: Vec<Filter>) -> Result<Filters, Vec<Filter>>
        ensures made { IfOk result (λ f. (f ≡ filters.items) × (filters.items ≢ [])) }
        ensures given_back { IfErr result (λ v. (v ≡ filters) × (filters.items ≡ [])) }
    {
        if filters.is_empty() {
            Err(filters)
        } else {
            Ok(Filters { filters })
        }
    }

    pub fn as_slice(&self) -> &[Filter]
        ensures filters { result.now ≡ self.now }
        ensures some { result.now ≢ [] }
    {
        self.filters.as_slice()
    }

    /// Gives the list back.
    pub fn into_vec(self) -> Vec<Filter>
        ensures { result.items ≡ self }
    {
        self.filters
    }
}
