//! What holds of the client's request and the server's reader.
ghost use Rattle.std.specs.Prelude.{◌≡◌, ◌∷◌, [], List, ℕ, false};
ghost use Rattle.sv_http.specs.ReaderPlaces.{StandsFor};
ghost use Rattle.sv_http.specs.RequestStream.{AreAsks};
ghost use Rattle.sv_http.specs.RequestText.{request_text};
ghost use Rattle.sv_http.specs.declared.ask.Ask.{Ask};
ghost use Rattle.sv_http.specs.declared.ask.Ask.TheVariants.{Call};
ghost use Rattle.sv_http.specs.declared.guard.Guard.{Guard};
ghost use Rattle.sv_http.specs.declared.reader.HttpReader.{HttpReader};
ghost use Rattle.sv_http.specs.Sendable.Sendable.{IsSendable, LetsIn};

/// A law: a request of the client's asks one call, that of its body, and the link stays open. So a reader that was fed it, cut
/// anywhere, has given this call and no other ask.
pub fn a_request_is_read_as_its_call()
    ensures asks { (guard : Guard) (body host username password : List ℕ)
        → IsSendable body host username password → LetsIn guard username password
        → AreAsks guard (request_text body host username password) (Call body false ∷ []) }
    ensures read { (reader : HttpReader) (body host username password : List ℕ) (asks : List Ask)
        → IsSendable body host username password → LetsIn reader.guard username password
        → StandsFor reader (request_text body host username password) asks
        → asks ≡ Call body false ∷ [] }
{}
