//! The talk of an event listener: what it says on its standard output, and the events that were sent to it.

ghost use Rattle.std.specs.Prelude.{◌≡◌, ◌↔◌, ◌+◌, ◌<◌, ◌≤◌, ◌++◌, ◌∷◌, [], List, length, IfOk};
ghost use Rattle.std.specs.Prelude.{OnOk, OnErr, IsTrue, IsErr};
ghost use Rattle.sv_pipes.specs.PlaceBounds.{digits_in, length_in, room_in, word_in};

use crate::tokens::{TalkState, Token};
use crate::word::is_next;
use std::alloc::{AllocError, Global};
use std::mem;
use sv_base::bytes::Bytes;

/// What a listener says when it waits for an event.
const READY: &[u8] = b"READY\n";

/// How a listener begins its answer to an event.
const RESULT: &[u8] = b"RESULT ";

/// The most bytes of a result.
const RESULT_LIMIT: u64 = 1_048_576;

/// The most digits of a result's length.
const MOST_DIGITS: u8 = 7;

/// How far a talk has come.
#[derive(Clone, Copy)]
enum TalkProgress {
    /// So many bytes of `READY` and a line feed were said.
    Greeting { count: usize },
    /// An event is still to be sent.
    Idle,
    /// So many bytes of `RESULT` and a space were said.
    Word { count: usize },
    /// In a result's length: how many digits were said, and their number.
    Length { count: u8, number: u32 },
    /// In a result of so many bytes, which isn't empty, after so many digits.
    Body { count: u8, number: u32 },
    /// A byte was outside the talk.
    Lost,
    /// Memory was refused.
    Broken,
}

/// What a listener said so far, of which only the undecided bytes of a result are kept.
#[derive(Drop)]
pub struct ListenerTalk {
    place: TalkProgress,
    /// The bytes of a result so far.
    held: Vec<u8>,
    ghost short_word: { word_in place ≤ 6 },
    ghost few_digits: { digits_in place ≤ 7 },
    ghost short_result: { length_in place ≤ 1048576 },
    ghost open_result: { length held.items < room_in place },
}

impl TalkProgress {
    ghost use Rattle.sv_pipes.specs.TalkPlaces.{undecided_at};

    /// How many undecided bytes were said, where these of a result are kept.
    fn undecided(self, held: &[u8]) -> u64
        requires word { word_in self ≤ 6 }
        requires digits { digits_in self ≤ 7 }
        requires result { length_in self ≤ 1048576 }
        requires held { length held.now < room_in self }
        ensures value { result ≡ undecided_at self held.now }
        ensures bound { result ≤ 1048591 }
    {
        match self {
            TalkProgress::Greeting { count } => count as u64,
            TalkProgress::Word { count } => count as u64,
            TalkProgress::Length { count, number: _ } => 7 + u64::from(count),
            TalkProgress::Body { count, number: _ } => 8 + u64::from(count) + held.len() as u64,
            TalkProgress::Idle | TalkProgress::Lost | TalkProgress::Broken => 0,
        }
    }
}

impl ListenerTalk {
    ghost use Rattle.sv_pipes.specs.TalkPlaces.{StandsFor, IsBroken, state_in, shown, goes, lost};
    ghost use Rattle.sv_pipes.specs.TalkPlaces.{step, steps};
    ghost use Rattle.sv_pipes.specs.TalkPlaces.{after_greeting, after_word, after_digit};
    ghost use Rattle.sv_pipes.specs.TalkPlaces.{after_length, after_body};
    ghost use Rattle.sv_pipes.specs.TalkCalls.{Feeds, Tells, Sends, HasCut, IsRead, HasUndecided};
    ghost use Rattle.sv_pipes.specs.TalkCalls.{Holds, StandsForNone};
    ghost use Rattle.sv_pipes.specs.declared.talk.TalkProgress.{TalkProgress};
    ghost use Rattle.sv_pipes.specs.declared.tokens.TalkState.{TalkState};

    /// The talk of a listener that said nothing yet. It takes no memory.
    pub fn new(alloc: Global) -> ListenerTalk
        ensures { StandsFor result [] [] }
    {
        ListenerTalk {
            place: TalkProgress::Greeting { count: 0 },
            held: Vec::new(alloc),
        }
    }

    /// The state in which the talk leaves the listener.
    pub fn state(&self) -> TalkState
        ensures state { result ≡ state_in self.now }
        ensures cut { HasCut self.now result }
        ensures read { IsRead self.now result }
    {
        match self.place {
            TalkProgress::Greeting { count: _ } => TalkState::Acknowledged,
            TalkProgress::Idle => TalkState::Ready,
            TalkProgress::Word { count: _ } => TalkState::Busy,
            TalkProgress::Length {
                count: _,
                number: _,
            } => TalkState::Busy,
            TalkProgress::Body {
                count: _,
                number: _,
            } => TalkState::Busy,
            TalkProgress::Lost => TalkState::Unknown,
            TalkProgress::Broken => TalkState::Unknown,
        }
    }

    /// The number of bytes that were read and aren't decided yet: those of a token that isn't whole, with its word and
    /// digits. It is 0 after a byte outside the talk and after out of memory. It takes no memory.
    pub fn held(&self) -> u64
        ensures cut { HasUndecided self.now result }
        ensures read { Holds self.now result }
        ensures refused { IsBroken self.now → result ≡ 0 }
        ensures bound { result ≤ 1048591 }
    {
        self.place.undecided(self.held.as_slice())
    }

    /// Puts the mark of an event that was sent.
    pub fn sent(&mut self)
        requires { state_in self.old ≡ TalkState.Ready }
        ensures { Sends self.old self.new }
    {
        self.place = TalkProgress::Word { count: 0 };
    }

    /// Takes the next bytes of the listener's standard output and gives the tokens that they end.
    ///
    /// Out of memory leaves a value that stands for no talk, and each later call gives the same answer.
    pub fn feed(&mut self, alloc: Global, piece: &[u8]) -> Result<Vec<Token>, AllocError>
        ensures cut { IfOk result (λ told. Feeds self.old piece.now told.items self.new) }
        ensures read { IfOk result (λ told. Tells self.old piece.now told.items) }
        ensures refused { OnErr result (IsBroken self.new) }
        ensures none { OnErr result (StandsForNone self.new) }
        ensures stays_refused { IsBroken self.old → IsErr result }
    {
        if self.is_broken() {
            return Err(AllocError);
        }
        let mut tokens = Vec::new(alloc);
        match self.take_all(alloc, piece, &mut tokens) {
            Ok(()) => Ok(tokens),
            Err(refusal) => {
                self.held = Vec::new(alloc);
                self.place = TalkProgress::Broken;
                Err(refusal)
            }
        }
    }

    fn is_broken(&self) -> bool
        ensures { IsTrue result ↔ IsBroken self.now }
    {
        match self.place {
            TalkProgress::Broken => true,
            _ => false,
        }
    }

    fn take_all(
        &mut self,
        alloc: Global,
        piece: &[u8],
        tokens: &mut Vec<Token>,
    ) -> Result<(), AllocError>
        ensures { OnOk result (shown self.new tokens.new.items
            ≡ steps (shown self.old tokens.old.items) piece.now) }
    {
        let mut rest = piece;
        while let [byte, more @ ..] = rest {
            if let TalkProgress::Body { count, number } = self.place {
                let missing = number as usize - self.held.len();
                let (bytes, behind) = rest.split_at(missing.min(rest.len()));
                self.body(alloc, bytes, count, number, tokens)?;
                rest = behind;
            } else {
                self.take(alloc, *byte, tokens)?;
                rest = more;
            }
        }
        Ok(())
    }

    fn take(&mut self, alloc: Global, byte: u8, tokens: &mut Vec<Token>) -> Result<(), AllocError>
        ensures { OnOk result (shown self.new tokens.new.items
            ≡ step self.old.place byte self.old.held.items tokens.old.items) }
    {
        match self.place {
            TalkProgress::Greeting { count } => self.greeting(byte, count, tokens),
            TalkProgress::Idle => self.lose(tokens),
            TalkProgress::Word { count } => self.word(byte, count, tokens),
            TalkProgress::Length { count, number } if byte.is_ascii_digit() => {
                self.digit(
                    count,
                    u64::from(number) * 10 + u64::from(byte - b'0'),
                    tokens,
                )
            }
            TalkProgress::Length { count, number } if byte == b'\n' => self.length(
                alloc, count, number, tokens,
            ),
            TalkProgress::Length {
                count: _,
                number: _,
            } => self.lose(tokens),
            TalkProgress::Body { count, number } => self.body(
                alloc,
                &[byte],
                count,
                number,
                tokens,
            ),
            TalkProgress::Lost | TalkProgress::Broken => Ok(()),
        }
    }

    fn greeting(
        &mut self,
        byte: u8,
        count: usize,
        tokens: &mut Vec<Token>,
    ) -> Result<(), AllocError>
        requires { room_in self.old.place ≡ 1 }
        ensures { OnOk result (shown self.new tokens.new.items
            ≡ after_greeting count byte self.old.held.items tokens.old.items) }
    {
        if !is_next(READY, count, byte) {
            return self.lose(tokens);
        }
        if count == READY.len() - 1 {
            tokens.push(Token::Ready)?;
            self.place = TalkProgress::Idle;
        } else {
            self.place = TalkProgress::Greeting { count: count + 1 };
        }
        Ok(())
    }

    fn word(&mut self, byte: u8, count: usize, tokens: &mut Vec<Token>) -> Result<(), AllocError>
        requires { room_in self.old.place ≡ 1 }
        ensures { OnOk result (shown self.new tokens.new.items
            ≡ after_word count byte self.old.held.items tokens.old.items) }
    {
        if !is_next(RESULT, count, byte) {
            return self.lose(tokens);
        }
        if count == RESULT.len() - 1 {
            self.place = TalkProgress::Length {
                count: 0,
                number: 0,
            };
        } else {
            self.place = TalkProgress::Word { count: count + 1 };
        }
        Ok(())
    }

    fn digit(&mut self, count: u8, number: u64, tokens: &mut Vec<Token>) -> Result<(), AllocError>
        requires { room_in self.old.place ≡ 1 }
        ensures { OnOk result (shown self.new tokens.new.items
            ≡ after_digit count number self.old.held.items tokens.old.items) }
    {
        if count < MOST_DIGITS && number <= RESULT_LIMIT {
            self.place = TalkProgress::Length {
                count: count + 1,
                number: number as u32,
            };
            Ok(())
        } else {
            self.lose(tokens)
        }
    }

    fn length(
        &mut self,
        alloc: Global,
        count: u8,
        number: u32,
        tokens: &mut Vec<Token>,
    ) -> Result<(), AllocError>
        requires room { room_in self.old.place ≡ 1 }
        requires count { count ≤ 7 }
        requires number { number ≤ 1048576 }
        ensures { OnOk result (shown self.new tokens.new.items
            ≡ after_length count number self.old.held.items tokens.old.items) }
    {
        if count == 0 {
            return self.lose(tokens);
        }
        if number == 0 {
            tokens.push(Token::Result(Bytes::from_vec(Vec::new(alloc))))?;
            self.place = TalkProgress::Greeting { count: 0 };
        } else {
            self.place = TalkProgress::Body { count, number };
        }
        Ok(())
    }

    /// Takes bytes of a result that are no more than its missing ones, all at once.
    fn body(
        &mut self,
        alloc: Global,
        bytes: &[u8],
        count: u8,
        number: u32,
        tokens: &mut Vec<Token>,
    ) -> Result<(), AllocError>
        requires place { self.old.place ≡ TalkProgress.Body count number }
        requires within { length self.old.held.items + length bytes.now ≤ number }
        ensures { OnOk result (shown self.new tokens.new.items
            ≡ after_body count number (self.old.held.items ++ bytes.now) tokens.old.items) }
    {
        if self.held.len() + bytes.len() < number as usize {
            self.held.extend_from_slice(bytes)?;
        } else {
            let mut body = mem::replace(&mut self.held, Vec::new(alloc));
            body.extend_from_slice(bytes)?;
            tokens.push(Token::Result(Bytes::from_vec(body)))?;
            self.place = TalkProgress::Greeting { count: 0 };
        }
        Ok(())
    }

    fn lose(&mut self, tokens: &mut Vec<Token>) -> Result<(), AllocError>
        requires { room_in self.old.place ≡ 1 }
        ensures { OnOk result (shown self.new tokens.new.items
            ≡ lost self.old.held.items tokens.old.items) }
    {
        tokens.push(Token::Wrong)?;
        self.place = TalkProgress::Lost;
        Ok(())
    }
}
