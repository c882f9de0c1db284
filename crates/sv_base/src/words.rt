//! The words of a configuration for signals, for yes and no, and for event types.
ghost use Rattle.std.specs.Prelude.{◌≡◌, ◌↔◌, Bool, Some, codes};
ghost use Rattle.std.specs.List.{find};
ghost use Rattle.std.specs.Str.{bytes_eq, str_to_ascii_lowercase};
ghost use Rattle.sv_base.specs.declared.kind.Kind.{Kind};
ghost use Rattle.sv_base.specs.declared.signal.Signal.{Signal};
ghost use Rattle.sv_base.specs.KindNames.{kind_name, all_kinds};
ghost use Rattle.sv_base.specs.SignalWords.{SpellsSignal, is_signal_word, all_signals};
ghost use Rattle.sv_base.specs.SignalWords.{signal_digits, signal_long_name};
ghost use Rattle.sv_base.specs.TruthWords.{SpellsTruth, truth_word, is_true_word, is_false_word};

use crate::kind::Kind;
use crate::signal::Signal;

/// The signal of one of its words, in any case of letters: its name with or without `SIG`, or its number without
/// leading zeros. `None` exactly for all other texts.
pub fn signal_of(text: &str) -> Option<Signal>
    ensures spells { (signal : Signal) → (result ≡ Some signal) ↔ SpellsSignal text.now signal }
    ensures found { result ≡ find (is_signal_word (str_to_ascii_lowercase text.now)) all_signals }
{
    first_signal(text)
}

const SIGNALS: [Signal; 7] = [
    Signal::Term,
    Signal::Hup,
    Signal::Int,
    Signal::Quit,
    Signal::Kill,
    Signal::Usr1,
    Signal::Usr2,
];

fn first_signal(text: &str) -> Option<Signal>
    ensures { result ≡ find (is_signal_word (str_to_ascii_lowercase text.now)) all_signals }
{
    SIGNALS
        .iter()
        .copied()
        .find(|signal| is_signal_word(text, *signal))
}

fn is_signal_word(text: &str, signal: Signal) -> bool
    ensures { result ≡ is_signal_word (str_to_ascii_lowercase text.now) signal }
{
    text.eq_ignore_ascii_case(signal.name())
        || text.eq_ignore_ascii_case(long_name(signal))
        || text.eq_ignore_ascii_case(digits(signal))
}

fn long_name(signal: Signal) -> &'static str
    ensures { result.now ≡ signal_long_name signal }
{
    match signal {
        Signal::Term => "SIGTERM",
        Signal::Hup => "SIGHUP",
        Signal::Int => "SIGINT",
        Signal::Quit => "SIGQUIT",
        Signal::Kill => "SIGKILL",
        Signal::Usr1 => "SIGUSR1",
        Signal::Usr2 => "SIGUSR2",
    }
}

fn digits(signal: Signal) -> &'static str
    ensures { result.now ≡ signal_digits signal }
{
    match signal {
        Signal::Term => "15",
        Signal::Hup => "1",
        Signal::Int => "2",
        Signal::Quit => "3",
        Signal::Kill => "9",
        Signal::Usr1 => "10",
        Signal::Usr2 => "12",
    }
}

/// The answer that a text gives, in any case of letters: yes, true, on and 1, or no, false, off and 0. `None` exactly
/// for all other texts.
pub fn truth_of(text: &str) -> Option<bool>
    ensures spells { (value : Bool) → (result ≡ Some value) ↔ SpellsTruth text.now value }
    ensures found { result ≡ truth_word (str_to_ascii_lowercase text.now) }
{
    truth_word(text)
}

fn truth_word(text: &str) -> Option<bool>
    ensures { result ≡ truth_word (str_to_ascii_lowercase text.now) }
{
    if is_true_word(text) {
        Some(true)
    } else if is_false_word(text) {
        Some(false)
    } else {
        None
    }
}

fn is_true_word(text: &str) -> bool
    ensures { result ≡ is_true_word (str_to_ascii_lowercase text.now) }
{
    text.eq_ignore_ascii_case("yes")
        || text.eq_ignore_ascii_case("true")
        || text.eq_ignore_ascii_case("on")
        || text.eq_ignore_ascii_case("1")
}

fn is_false_word(text: &str) -> bool
    ensures { result ≡ is_false_word (str_to_ascii_lowercase text.now) }
{
    text.eq_ignore_ascii_case("no")
        || text.eq_ignore_ascii_case("false")
        || text.eq_ignore_ascii_case("off")
        || text.eq_ignore_ascii_case("0")
}

/// The event type of this name, letter for letter. `None` exactly for all other texts.
pub fn kind_of(text: &str) -> Option<Kind>
    ensures spells { (kind : Kind) → (result ≡ Some kind) ↔ (text.now ≡ kind_name kind) }
    ensures found { result ≡ find (λ kind. bytes_eq (kind_name kind) text.now) all_kinds }
{
    first_kind(text)
}

const KINDS: [Kind; 27] = [
    Kind::Event,
    Kind::ProcessState,
    Kind::ProcessStateStarting,
    Kind::ProcessStateRunning,
    Kind::ProcessStateBackoff,
    Kind::ProcessStateStopping,
    Kind::ProcessStateExited,
    Kind::ProcessStateStopped,
    Kind::ProcessStateFatal,
    Kind::ProcessStateUnknown,
    Kind::ProcessCommunication,
    Kind::ProcessCommunicationStdout,
    Kind::ProcessCommunicationStderr,
    Kind::ProcessLog,
    Kind::ProcessLogStdout,
    Kind::ProcessLogStderr,
    Kind::RemoteCommunication,
    Kind::SupervisorStateChange,
    Kind::SupervisorStateChangeRunning,
    Kind::SupervisorStateChangeStopping,
    Kind::Tick,
    Kind::Tick5,
    Kind::Tick60,
    Kind::Tick3600,
    Kind::ProcessGroup,
    Kind::ProcessGroupAdded,
    Kind::ProcessGroupRemoved,
];

fn first_kind(text: &str) -> Option<Kind>
    ensures { result ≡ find (λ kind. bytes_eq (kind_name kind) text.now) all_kinds }
{
    KINDS.iter().copied().find(|kind| kind.name() == text)
}
