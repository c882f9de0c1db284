//! Laws over the lines: each has one meaning.
ghost use Rattle.std.specs.Prelude.{◌≡◌, ◌≢◌, ◌==◌, ◌++◌, false, List, ℕ, codes};
ghost use Rattle.std.specs.List.{list_any};
ghost use Rattle.sv_out.specs.declared.input.Input.{Input};
ghost use Rattle.sv_journal.specs.declared.header.Header.{Header};
ghost use Rattle.sv_journal.specs.JournalLine.{FitsInput, input_line, FitsHeader, header_line};

/// A law: no line has two meanings as an input.
pub fn each_line_is_one_input()
    ensures { (one : Input) (other : Input)
        → FitsInput one → FitsInput other → input_line one ≡ input_line other → one ≡ other }
{}

/// A law: no line has two meanings as a header.
#[tactic(auto, using(crate::proofs::OneMeaning::one_header))]
pub fn each_line_is_one_header()
    ensures { (one : Header) (other : Header)
        → FitsHeader one → FitsHeader other → header_line one ≡ header_line other → one ≡ other }
{}

/// A law: no line of an input holds a line feed, so that lines end where their line feeds are.
#[tactic(auto, using(crate::proofs::NoLineFeed::plain_input))]
pub fn no_input_line_holds_a_line_feed()
    ensures { (i : Input) → FitsInput i → list_any (λ b. b == 10) (input_line i) ≡ false }
{}

/// A law: no line of a header holds a line feed.
pub fn no_header_line_holds_a_line_feed()
    ensures { (h : Header) → FitsHeader h → list_any (λ b. b == 10) (header_line h) ≡ false }
{}

/// A law: no line of an input begins with the mark that stands before an order's line in a daemon's journal.
#[tactic(auto, using(crate::proofs::Marks::marked_input))]
pub fn no_input_line_begins_with_the_mark()
    ensures { (i : Input) (rest : List ℕ) → FitsInput i → input_line i ≢ codes "> " ++ rest }
{}

/// A law: no line of a header begins with that mark.
#[tactic(auto, using(crate::proofs::Marks::marked_header))]
pub fn no_header_line_begins_with_the_mark()
    ensures { (h : Header) (rest : List ℕ) → FitsHeader h → header_line h ≢ codes "> " ++ rest }
{}
