//! Laws over the bytes that may come one after the other.
ghost use Rattle.std.specs.Prelude.{◌≡◌, ◌≢◌, ◌↔◌, List, ℕ, true, IsUtf8, chars, nat_lt};
ghost use Rattle.std.specs.List.{list_all};
ghost use Rattle.sv_letters.specs.declared.letters.Letters.{Letters};
ghost use Rattle.sv_letters.specs.declared.letters.Awaits.{Awaits};
ghost use Rattle.sv_letters.specs.Letters.{is_letter, are_letters};

/// A law: bytes of a text may come one after the other and may then end, exactly where they are UTF-8 and these letters
/// have each of their characters.
#[tactic(auto, using(crate::proofs::TextLaws::text))]
pub fn texts_are_utf8()
    ensures { (letters : Letters) (bytes : List ℕ) → letters ≢ Letters.OfBytes
        → (are_letters letters Awaits.Character bytes ≡ true)
        ↔ (IsUtf8 bytes × (list_all (is_letter letters) (chars bytes) ≡ true)) }
{}

/// A law: where any bytes may come, all do.
#[tactic(auto, using(crate::proofs::TextLaws::any))]
pub fn any_bytes_may_come()
    ensures { (bytes : List ℕ) → are_letters Letters.OfBytes Awaits.Character bytes
        ≡ list_all (λ b. nat_lt b 256) bytes }
{}
