//! What holds of the definitions that the contracts cite.

ghost use Rattle.std.specs.Prelude.{◌≡◌, ◌++◌, ◌∷◌, [], List, ℕ};
ghost use Rattle.sv_listener.specs.EventText.{CanBeHeard, Event, heard_of, text_of};
ghost use Rattle.sv_listener.specs.Hearing.{hearing_of, with_event};

/// A law: an event that stands first in a stream, as a daemon writes it, is heard, and then what follows it. Of a prefix of
/// it, without its last byte, nothing is heard.
pub fn a_written_event_is_heard()
    ensures whole { (event : Event) (more : List ℕ) → CanBeHeard event
        → hearing_of (text_of event ++ more) ≡ with_event (heard_of event) (hearing_of more) }
    ensures part { (event : Event) (front : List ℕ) (byte : ℕ) (rest : List ℕ) → CanBeHeard event
        → front ++ byte ∷ rest ≡ text_of event → (hearing_of front).events ≡ [] }
{}
