//! Reading one byte of a text that has to be high enough.
ghost use Rattle.std.specs.Prelude.{◌≡◌, ◌<◌, IfOk};
ghost use Rattle.sv_journal.specs.Escapes.{is_escape, begins_escape, first_digit_of};
ghost use Rattle.sv_journal.specs.Escapes.{second_digit_of, escape_of, byte_of};
ghost use Rattle.sv_journal.specs.Names.{text_byte};
ghost use Rattle.sv_journal.specs.Reading.{GivesAlways};

use crate::token::{hex_value, stands_for_itself};
use sv_letters::{Awaits, BadByte, Letters};

/// Which byte of a text may come: one that fits at this place and isn't below `least`.
#[derive(Clone, Copy)]
pub struct TextByte {
    pub least: u8,
    pub awaits: Awaits,
}

impl TextByte {
    /// Whether this byte may come.
    fn allows(self, byte: u8) -> bool
        ensures { result ≡ text_byte self.least self.awaits byte }
    {
        self.least <= byte && self.awaits.allows(Letters::OfText, byte)
    }

    /// Whether this byte may come and is written as an escape.
    fn escapes(self, byte: u8) -> bool
        ensures { result ≡ is_escape (text_byte self.least self.awaits) byte }
    {
        self.allows(byte) && !stands_for_itself(byte)
    }

    /// Whether some byte that may come is an escape with this first digit.
    fn may_begin(self, high: u8) -> bool
        requires { high < 16 }
        ensures { result ≡ begins_escape (text_byte self.least self.awaits) high }
    {
        const LOW: [u8; 16] = [0, 1, 2, 3, 4, 5, 6, 7, 8, 9, 10, 11, 12, 13, 14, 15];
        LOW.iter().any(|low| self.escapes(16 * high + *low))
    }

    /// Reads the first digit of an escape.
    fn first_digit(self, bytes: &[u8]) -> Result<(u8, &[u8]), BadByte>
        ensures value { GivesAlways (λ x. (x.0, x.1.now)) result
            (first_digit_of (text_byte self.least self.awaits) bytes.now) }
        ensures bound { IfOk result (λ x. x.0 < 16) }
    {
        let [digit, rest @ ..] = bytes else {
            return Err(BadByte(0));
        };
        match hex_value(*digit) {
            Some(high) if self.may_begin(high) => Ok((high, rest)),
            _ => Err(BadByte(bytes.len())),
        }
    }

    /// Reads the second digit of an escape, and gives the byte.
    fn second_digit(self, high: u8, bytes: &[u8]) -> Result<(u8, &[u8]), BadByte>
        requires { high < 16 }
        ensures { GivesAlways (λ x. (x.0, x.1.now)) result
            (second_digit_of (text_byte self.least self.awaits) high bytes.now) }
    {
        let [digit, rest @ ..] = bytes else {
            return Err(BadByte(0));
        };
        match hex_value(*digit) {
            Some(low) if self.escapes(16 * high + low) => Ok((16 * high + low, rest)),
            _ => Err(BadByte(bytes.len())),
        }
    }

    /// Reads what follows the percent sign of an escape, and gives the byte.
    fn escape(self, bytes: &[u8]) -> Result<(u8, &[u8]), BadByte>
        ensures { GivesAlways (λ x. (x.0, x.1.now)) result
            (escape_of (text_byte self.least self.awaits) bytes.now) }
    {
        let (high, rest) = self.first_digit(bytes)?;
        self.second_digit(high, rest)
    }

    /// Reads the byte, as it is or as its escape.
    pub fn read(self, bytes: &[u8]) -> Result<(u8, &[u8]), BadByte>
        ensures { GivesAlways (λ x. (x.0, x.1.now)) result
            (byte_of (text_byte self.least self.awaits) bytes.now) }
    {
        match bytes {
            [b'%', rest @ ..] => self.escape(rest),
            [byte, rest @ ..] if stands_for_itself(*byte) && self.allows(*byte) => {
                Ok((*byte, rest))
            }
            _ => Err(BadByte(bytes.len())),
        }
    }
}
