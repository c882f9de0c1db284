//! The signals that a child and the daemon can be sent.
ghost use Rattle.std.specs.Prelude.{◌≡◌, ◌≢◌, ◌↔◌, IsSome, IfSome};
ghost use Rattle.sv_base.specs.declared.signal.Signal.{Signal};
ghost use Rattle.sv_base.specs.Names.{signal_name};

use std::marker::Model;

/// A signal that a child can be sent.
#[derive(Clone, Copy, PartialEq, Eq, PartialOrd, Ord)]
pub enum Signal {
    Term,
    Hup,
    Int,
    Quit,
    Kill,
    Usr1,
    Usr2,
}

impl Signal {
    /// The name without `SIG`, in upper case.
    pub fn name(self) -> &'static str
        ensures { result.now ≡ signal_name self }
    {
        match self {
            Signal::Term => "TERM",
            Signal::Hup => "HUP",
            Signal::Int => "INT",
            Signal::Quit => "QUIT",
            Signal::Kill => "KILL",
            Signal::Usr1 => "USR1",
            Signal::Usr2 => "USR2",
        }
    }
}

/// A signal that the daemon itself can be sent: each but HUP.
#[derive(Drop)]
pub struct DaemonSignal {
    signal: Signal,
}

impl Model for DaemonSignal {
    ghost use Rattle.std.specs.Prelude.{◌≢◌};
    ghost use Rattle.sv_base.specs.declared.signal.Signal.{Signal};
    ghost use Rattle.sv_base.specs.declared.signal.Signal.TheVariants.{Hup};

    ghost Value = { Signal };

    ghost view = { λ a. a.signal };

    ghost invariant = { λ a. a.signal ≢ Hup };
}

impl DaemonSignal {
    /// This signal, or `None` exactly for HUP.
    pub fn new(signal: Signal) -> Option<DaemonSignal>
        ensures valid { IsSome result ↔ (signal ≢ Signal.Hup) }
        ensures value { IfSome result (λ a. a ≡ signal) }
    {
        match signal {
            Signal::Hup => None,
            _ => Some(DaemonSignal { signal }),
        }
    }

    /// The signal.
    pub fn get(&self) -> Signal
        ensures value { result ≡ self.now }
        ensures never { result ≢ Signal.Hup }
    {
        self.signal
    }
}
