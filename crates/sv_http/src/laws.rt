//! What holds of the definitions that the contracts cite.
ghost use Rattle.std.specs.Prelude.{◌≡◌, ◌++◌, ◌∷◌, [], List, ℕ, true, codes};
ghost use Rattle.base64.specs.GeneralPurpose.{encode_of, IsBytes};
ghost use Rattle.base64.specs.Engines.{standard};
ghost use Rattle.sv_http.specs.Authorization.{IsCredentials, is_password, lets_in};
ghost use Rattle.sv_http.specs.RequestStream.{AreAsks};
ghost use Rattle.sv_http.specs.ReaderPlaces.{StandsFor, guard_of};
ghost use Rattle.sv_http.specs.AsksOf.{asks_of};
ghost use Rattle.sv_http.specs.declared.reader.HttpReader.{HttpReader};
ghost use Rattle.sv_http.specs.declared.ask.Ask.{Ask};
ghost use Rattle.sv_http.specs.declared.ask.Ask.TheVariants.{Bad};
ghost use Rattle.sv_http.specs.declared.status.Refusal.{Refusal};
ghost use Rattle.sv_http.specs.declared.guard.Guard.{Guard};

/// A stream has one list of asks.
pub fn a_stream_has_one_list_of_asks()
    ensures { (guard : Guard) (stream : List ℕ) (asks others : List Ask)
        → AreAsks guard stream asks → AreAsks guard stream others → asks ≡ others }
{}

/// The asks of what a reader stands for are those of the stream.
pub fn a_reader_gives_the_asks_of_its_stream()
    ensures { (reader : HttpReader) (stream : List ℕ) (asks : List Ask)
        → StandsFor reader stream asks → AreAsks (guard_of reader) stream asks }
{}

/// Nothing follows a refusal.
pub fn nothing_follows_a_refusal()
    ensures { (guard : Guard) (stream : List ℕ) (asks later : List Ask) (refusal : Refusal)
        → AreAsks guard stream (asks ++ Bad refusal ∷ later) → later ≡ [] }
{}

/// An Authorization field lets in exactly where it is `Basic` and the base64 of the username, a colon and the password.
pub fn credentials_let_in()
    ensures basic { (guard : Guard) (value : List ℕ) → lets_in guard value ≡ true
        → (text : List ℕ) × (value ≡ codes "Basic " ++ text) }
    ensures only { (guard : Guard) (text : List ℕ)
        → IsBytes text → lets_in guard (codes "Basic " ++ text) ≡ true → IsCredentials guard text }
    ensures every { (guard : Guard) (given : List ℕ)
        → IsBytes (guard.username ++ 58 ∷ given) → is_password guard.password given ≡ true
        → lets_in guard (codes "Basic " ++ encode_of standard (guard.username ++ 58 ∷ given))
        ≡ true }
{}

/// Each stream has its asks.
pub fn each_stream_has_its_asks()
    ensures { (guard : Guard) (stream : List ℕ) → AreAsks guard stream (asks_of guard stream) }
{}
