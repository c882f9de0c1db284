//! A word that comes byte by byte.

ghost use Rattle.std.specs.Prelude.{◌≡◌, ◌<◌, length, IsTrue};
ghost use Rattle.sv_pipes.specs.TalkPlaces.{is_next};

/// Whether a word goes on with this byte, when so many of its bytes came.
pub(crate) fn is_next(word: &[u8], count: usize, byte: u8) -> bool
    ensures value { result ≡ is_next word.now count byte }
    ensures within { IsTrue result → count < length word.now }
{
    count < word.len() && word[count] == byte
}
