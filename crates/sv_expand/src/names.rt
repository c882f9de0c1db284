//! What names stand for: texts, found by a table, and numbers.
ghost use Rattle.std.specs.Prelude.{◌≡◌, ◌++◌, ◌∷◌, [], OnOk, OnErr, option_map, string_bytes};
ghost use Rattle.std.specs.HashMap.{IsUnchanged};
ghost use Rattle.sv_expand.specs.Places.{AddsPlace, place_of, text_at};
ghost use Rattle.sv_expand.specs.Values.{value_of};

use std::alloc::{AllocError, Global};
use std::collections::HashMap;
use std::marker::Model;
use sv_base::items::Items;
use sv_base::text::Text;

/// What the names in a text stand for. Of several equal names the first counts, and the pairs stand
/// before the numbers.
#[derive(Drop)]
pub struct Names {
    /// Names with the texts that they stand for.
    pub pairs: NamedTexts,
    /// Names with the numbers that they stand for.
    pub numbers: Items<(Text, u64)>,
}

/// The place of the first pair of each name in a list.
type Places = HashMap<String, usize>;

/// Names with texts in a list, and a table in which a name is found. A contract sees the list.
#[derive(Drop)]
pub struct NamedTexts {
    pairs: Vec<(Text, Text)>,
    places: Places,
}

impl Model for NamedTexts {
    ghost use Rattle.std.specs.Prelude.{List, ℕ};
    ghost use Rattle.sv_expand.specs.Places.{HasPlaces};

    ghost Value = { List (List ℕ × List ℕ) };

    ghost view = { λ t. t.pairs.items };

    ghost invariant = { λ t. HasPlaces t.places t.pairs.items };
}

impl NamedTexts {
    /// No names, which takes no memory.
    pub fn new(alloc: Global) -> NamedTexts
        ensures { result ≡ [] }
    {
        NamedTexts {
            pairs: Vec::new(alloc),
            places: HashMap::new(alloc),
        }
    }

    /// Adds a pair at the end. Out of memory leaves the list as it was.
    pub fn push(&mut self, pair: (Text, Text)) -> Result<(), AllocError>
        ensures ok { OnOk result (self.new ≡ self.old ++ pair ∷ []) }
        ensures err { OnErr result (self.new ≡ self.old) }
    {
        let name = String::from_str(*self.pairs.allocator(), pair.0.as_str())?;
        let place = self.pairs.len();
        self.pairs.push(pair)?;
        match add_place(&mut self.places, name, place) {
            Ok(()) => Ok(()),
            Err(fault) => {
                self.pairs.pop();
                Err(fault)
            }
        }
    }

    /// The text of a name, where a pair has it: that of the first such pair. The table finds it.
    pub fn text_of(&self, name: &str) -> Option<&str>
        ensures { option_map (λ text. text.now) result ≡ value_of name.now self.now }
    {
        match self.place_of(name) {
            Some(place) => text_at(self.as_slice(), place),
            None => None,
        }
    }

    /// The place of the first pair with this name.
    fn place_of(&self, name: &str) -> Option<usize>
        ensures { result ≡ place_of name.now self.now }
    {
        self.places.get(name).copied()
    }

    /// The pairs, in their order.
    pub fn as_slice(&self) -> &[(Text, Text)]
        ensures { result.now ≡ self.now }
    {
        self.pairs.as_slice()
    }
}

/// Gives a name this place, where it has none. Out of memory leaves the table as it was.
fn add_place(places: &mut Places, name: String, place: usize) -> Result<(), AllocError>
    ensures ok { OnOk result (AddsPlace places.old places.new (string_bytes name) place) }
    ensures err { OnErr result (IsUnchanged places.old places.new) }
{
    if !places.contains_key(name.as_str()) {
        places.insert(name, place)?;
    }
    Ok(())
}

fn text_at(pairs: &[(Text, Text)], place: usize) -> Option<&str>
    ensures { option_map (λ text. text.now) result ≡ text_at place pairs.now }
{
    let pair = pairs.get(place)?;
    Some(pair.1.as_str())
}

/// The text of a name, where a pair has it: that of the first such pair.
pub fn text_of<'a>(pairs: &'a [(Text, Text)], name: &str) -> Option<&'a str>
    ensures { option_map (λ text. text.now) result ≡ value_of name.now pairs.now }
{
    let mut rest = pairs;
    while let [pair, left @ ..] = rest {
        if pair.0.as_str() == name {
            return Some(pair.1.as_str());
        }
        rest = left;
    }
    None
}

/// The number of a name, where there is one.
pub fn number_of(numbers: &[(Text, u64)], name: &str) -> Option<u64>
    ensures { result ≡ value_of name.now numbers.now }
{
    let mut rest = numbers;
    while let [entry, left @ ..] = rest {
        if entry.0.as_str() == name {
            return Some(entry.1);
        }
        rest = left;
    }
    None
}
