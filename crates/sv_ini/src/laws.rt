//! Laws of the definition: what stands in the sections of a text, and in which order.

ghost use Rattle.std.specs.Prelude.{◌≡◌, List, ℕ, Ok, map};
ghost use Rattle.sv_ini.specs.Appearances.{first_ones, opened_names, kinds_of, keys_given, keys_of};
ghost use Rattle.sv_ini.specs.Appearances.{last_value, value_of};
ghost use Rattle.sv_ini.specs.Sections.{sections_of};
ghost use Rattle.sv_ini.specs.declared.section.Section.{Section};

/// A law: the names of the sections are those of the lines that open one, each once, in order of first
/// appearance.
#[tactic(auto, using(crate::proofs::Names::names_told))]
pub fn names_stand_once_in_order_of_first_appearance()
    ensures { (text : List ℕ) (sections : List Section) → sections_of text ≡ Ok sections
        → map (λ (s : Section). s.name) sections ≡ first_ones (opened_names (kinds_of text)) }
{}

/// A law: the keys of a section are those that the lines after its name give, each once, in order of first
/// appearance.
#[tactic(auto, using(crate::proofs::GivenKeys::key_names_told))]
pub fn keys_stand_once_in_order_of_first_appearance()
    ensures { (text : List ℕ) (sections : List Section) (name : List ℕ)
        → sections_of text ≡ Ok sections
        → map (λ (k : List ℕ × List ℕ). k.0) (keys_of name sections)
        ≡ first_ones (map (λ (k : List ℕ × List ℕ). k.0) (keys_given name text)) }
{}

/// A law: the value of a key in a section is the one that is given last, with all its lines.
#[tactic(auto, using(crate::proofs::GivenKeys::values_told))]
pub fn the_last_value_of_a_key_counts()
    ensures { (text : List ℕ) (sections : List Section) (name : List ℕ) (key : List ℕ)
        → sections_of text ≡ Ok sections
        → value_of key (keys_of name sections) ≡ last_value key (keys_given name text) }
{}
