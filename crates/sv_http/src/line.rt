//! Where a head ends.
ghost use Rattle.std.specs.Prelude.{◌≡◌, ◌≤◌, ◌<◌, ◌++◌, List, ℕ, length, take, MatchOption};
ghost use Rattle.sv_http.specs.ReaderPlaces.{after, IsSearched, IsFound};

/// How the bytes of a head end that were looked at.
#[derive(Clone, Copy, PartialEq, Eq)]
pub(crate) enum Line {
    /// In a line, or before the first.
    Text,
    /// After a line feed.
    Feed,
    /// After a line feed and CR.
    FeedReturn,
}

impl Line {
    /// How the head ends with a further byte; `None` after the empty line.
    fn after(self, byte: u8) -> Option<Line>
        ensures { result ≡ after self byte }
    {
        match self {
            Line::Text if byte == b'\n' => Some(Line::Feed),
            Line::Text => Some(Line::Text),
            Line::Feed if byte == b'\n' => None,
            Line::Feed if byte == b'\r' => Some(Line::FeedReturn),
            Line::Feed => Some(Line::Text),
            Line::FeedReturn if byte == b'\n' => None,
            Line::FeedReturn => Some(Line::Text),
        }
    }
}

/// Looks for the empty line that ends a head: how many bytes it took to find it, or all of them, and how the head then
/// ends; `None` after the empty line.
pub(crate) fn look(line: Line, bytes: &[u8]) -> (usize, Option<Line>)
    ensures most { result.0 ≤ length bytes.now }
    ensures least { 0 < length bytes.now → 0 < result.0 }
    ensures searched { (earlier : List ℕ) → IsSearched earlier line
        → MatchOption result.1 (IsFound (earlier ++ take result.0 bytes.now))
        (IsSearched (earlier ++ take result.0 bytes.now)) }
{
    let mut at = line;
    let mut count = 0usize;
    for byte in bytes {
        count += 1;
        match at.after(*byte) {
            None => return (count, None),
            Some(next) => at = next,
        }
    }
    (count, Some(at))
}
