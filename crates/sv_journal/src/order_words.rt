//! The tables of words of order lines.
ghost use Rattle.std.specs.Prelude.{◌≡◌};
ghost use Rattle.sv_base.specs.Names.{state_name};
ghost use Rattle.sv_journal.specs.OrderReading.{is_group, order_word, receiver_word};

use crate::word::Spelled;
use sv_base::state::State;

/// The first word of an order line.
#[derive(Clone, Copy)]
pub enum OrderWord {
    State,
    Dropped,
    Spawn,
    Kill,
    Stdin,
    Append,
    Shift,
    Fresh,
    Read,
    Clear,
    Names,
    Size,
    Send,
    More,
    Close,
    Halt,
}

/// Who is sent a signal: a process, or its group.
#[derive(Clone, Copy)]
pub enum Receiver {
    Child,
    Group,
}

pub const ORDER_WORDS: [OrderWord; 16] = [
    OrderWord::State,
    OrderWord::Dropped,
    OrderWord::Spawn,
    OrderWord::Kill,
    OrderWord::Stdin,
    OrderWord::Append,
    OrderWord::Shift,
    OrderWord::Fresh,
    OrderWord::Read,
    OrderWord::Clear,
    OrderWord::Names,
    OrderWord::Size,
    OrderWord::Send,
    OrderWord::More,
    OrderWord::Close,
    OrderWord::Halt,
];

pub const STATES: [State; 8] = [
    State::Stopped,
    State::Starting,
    State::Running,
    State::Backoff,
    State::Stopping,
    State::Exited,
    State::Fatal,
    State::Unknown,
];

pub const RECEIVERS: [Receiver; 2] = [Receiver::Child, Receiver::Group];

impl Receiver {
    /// Whether it is the group.
    pub fn is_group(self) -> bool
        ensures { result ≡ is_group self }
    {
        match self {
            Receiver::Child => false,
            Receiver::Group => true,
        }
    }
}

impl Spelled for OrderWord {
    ghost spelling_of = { order_word };

    fn spelling(&self) -> &'static str {
        match self {
            OrderWord::State => "state",
            OrderWord::Dropped => "dropped",
            OrderWord::Spawn => "spawn ",
            OrderWord::Kill => "kill ",
            OrderWord::Stdin => "stdin ",
            OrderWord::Append => "append",
            OrderWord::Shift => "shift",
            OrderWord::Fresh => "fresh",
            OrderWord::Read => "read",
            OrderWord::Clear => "clear",
            OrderWord::Names => "names",
            OrderWord::Size => "size",
            OrderWord::Send => "send ",
            OrderWord::More => "more ",
            OrderWord::Close => "close ",
            OrderWord::Halt => "halt",
        }
    }
}

impl Spelled for State {
    ghost spelling_of = { state_name };

    fn spelling(&self) -> &'static str {
        self.name()
    }
}

impl Spelled for Receiver {
    ghost spelling_of = { receiver_word };

    fn spelling(&self) -> &'static str {
        match self {
            Receiver::Child => " child",
            Receiver::Group => " group",
        }
    }
}
