//! Where a line of a journal ends.
ghost use Rattle.std.specs.Prelude.{◌≡◌, MatchOption, false};
ghost use Rattle.sv_loop.specs.Reading.{IsCut, has_feed};

use memchr::memchr;

/// The bytes before the first line feed, and those after it.
pub(crate) fn cut(bytes: &[u8]) -> Option<(&[u8], &[u8])>
    ensures { MatchOption result (has_feed bytes.now ≡ false)
        (λ parts. IsCut bytes.now parts.0.now parts.1.now) }
{
    match memchr(b'\n', bytes) {
        Some(count) => {
            let (line, _) = bytes.split_at(count);
            let (_, behind) = bytes.split_at(count + 1);
            Some((line, behind))
        }
        None => None,
    }
}
