//! What holds of each text: its words, its pairs and its expansion are those of its one cut.
ghost use Rattle.std.specs.Prelude.{◌≡◌, ◌↔◌, ◌++◌, List, ℕ, Ok, Err, Some, None};
ghost use Rattle.std.specs.Str.{chars};
ghost use Rattle.sv_expand.specs.Cuts.{Part, AreParts, written_all, values, Expands, HasFault};
ghost use Rattle.sv_expand.specs.Expansion.{expansion_of};
ghost use Rattle.sv_expand.specs.PairCuts.{HasPairs, HasBadPair, Pair, Last, ArePairs, IsLast};
ghost use Rattle.sv_expand.specs.PairCuts.{listed, last_written};
ghost use Rattle.sv_expand.specs.Pairs.{pairs_of};
ghost use Rattle.sv_expand.specs.WordCuts.{HasWords, HasOpenQuote, Part as Piece};
ghost use Rattle.sv_expand.specs.WordCuts.{AreParts as ArePieces, written_all as pieces_written};
ghost use Rattle.sv_expand.specs.Words.{words_of};
ghost use Rattle.sv_expand.specs.declared.fault.ExpandFault.{ExpandFault};
ghost use Rattle.sv_expand.specs.declared.fault.PairFault.TheVariants.{BadPair};
ghost use Rattle.sv_expand.specs.declared.names.Names.{Names};

/// A law: where a text is cut into plain characters, `%%` and forms whose names have values, its
/// expansion is their joined values. So any two such cuts of a text tell the same.
#[tactic(auto, using(crate::proofs::OneExpansion::one_expansion))]
pub fn each_cut_tells_the_expansion()
    ensures { (names : Names) (text : List ℕ) (parts : List Part) (whole : List ℕ)
        → chars text ≡ written_all parts → AreParts parts → values names parts ≡ Some whole
        → expansion_of names text ≡ Ok whole }
{}

/// A law: a text has an expansion exactly where it has a cut into parts that each have a value.
pub fn each_expansion_has_a_cut()
    ensures { (names : Names) (text : List ℕ) (whole : List ℕ)
        → (expansion_of names text ≡ Ok whole) ↔ Expands names text whole }
{}

/// A law: a text has a fault exactly where it begins with parts that each have a value, and goes on with
/// a form whose name has none or with a percent sign that begins no form.
pub fn each_fault_of_an_expansion_is_the_leftmost()
    ensures { (names : Names) (text : List ℕ) (fault : ExpandFault)
        → (expansion_of names text ≡ Err fault) ↔ HasFault names text fault }
{}

/// A law: a text has words exactly where it has a cut into gaps and pieces, and these tell them.
pub fn each_list_of_words_has_a_cut()
    ensures { (text : List ℕ) (words : List (List ℕ))
        → (words_of text ≡ Some words) ↔ HasWords text words }
{}

/// A law: a text has no words exactly where a quote isn't closed or a backslash ends it.
pub fn each_text_without_words_has_an_open_quote()
    ensures { (text : List ℕ) → (words_of text ≡ None) ↔ HasOpenQuote text }
{}

/// A law: a text has pairs exactly where it has a cut into pairs parted by commas, and these tell
/// them.
pub fn each_list_of_pairs_has_a_cut()
    ensures { (text : List ℕ) (pairs : List (List ℕ × List ℕ))
        → (pairs_of text ≡ Ok pairs) ↔ HasPairs text pairs }
{}

/// A law: a text has a bad pair at a place exactly where, after pairs with their commas and after white
/// space, it goes on there with no pair.
pub fn each_bad_pair_is_the_first()
    ensures { (text : List ℕ) (place : ℕ)
        → (pairs_of text ≡ Err (BadPair place)) ↔ HasBadPair text place }
{}

/// A law: a text has one cut into plain characters, `%%` and forms.
pub fn each_text_has_one_cut_into_parts()
    ensures { (parts : List Part) (others : List Part)
        → AreParts parts → AreParts others → written_all parts ≡ written_all others
        → parts ≡ others }
{}

/// A law: a text has one cut into gaps and pieces of words.
pub fn each_text_has_one_cut_into_pieces()
    ensures { (parts : List Piece) (others : List Piece)
        → ArePieces parts → ArePieces others → pieces_written parts ≡ pieces_written others
        → parts ≡ others }
{}

/// A law: a text has one cut into pairs parted by commas.
pub fn each_text_has_one_cut_into_pairs()
    ensures { (front : List Pair) (others : List Pair) (last : Last) (other : Last)
        → ArePairs front → ArePairs others → IsLast last → IsLast other
        → listed front ++ last_written last ≡ listed others ++ last_written other
        → (front ≡ others) × (last ≡ other) }
{}
