//! Where a comment begins in a line.
ghost use Rattle.std.specs.Prelude.{◌≡◌, ◌<◌, ◌≤◌, ◌+◌, ◌^◌, IfSome, length};
ghost use Rattle.sv_moving.specs.Comments.{counts, rank_after, first_mark, earlier, comment_in};
ghost use Rattle.sv_moving.specs.Comments.{content_of};

use crate::spaces;

/// Where the comment of a line begins. Of the first `;` and the first `#` that stand behind white space, or at the
/// line's beginning, it is the one with fewer marks of its own kind before it.
pub fn comment_in(line: &[char]) -> Option<usize>
    ensures place { result ≡ comment_in line.now }
    ensures inside { IfSome result (λ place. place < length line.now) }
{
    earlier(line, first_mark(';', line), first_mark('#', line))
}

/// The mark with fewer of its own kind before it, and of two with as many the left one.
fn earlier(
    line: &[char],
    one: Option<(usize, usize)>,
    other: Option<(usize, usize)>,
) -> Option<usize>
    requires one { IfSome one (λ mark. mark.1 < length line.now) }
    requires other { IfSome other (λ mark. mark.1 < length line.now) }
    ensures place { result ≡ earlier one other }
    ensures inside { IfSome result (λ place. place < length line.now) }
{
    match (one, other) {
        (None, None) => None,
        (Some(one), None) => Some(one.1),
        (None, Some(other)) => Some(other.1),
        (Some(one), Some(other)) if one.0 < other.0 => Some(one.1),
        (Some(one), Some(other)) if other.0 < one.0 => Some(other.1),
        (Some(one), Some(other)) => Some(one.1.min(other.1)),
    }
}

/// The first such mark that counts, told by how many such marks stand before it, and its place.
fn first_mark(mark: char, line: &[char]) -> Option<(usize, usize)>
    ensures mark { result ≡ first_mark mark line.now }
    ensures inside { IfSome result (λ found. found.1 < length line.now) }
{
    // The length bounds the numbers that count the characters.
    let _length = line.len();
    let mut rank = 0;
    let mut place = 0;
    let mut behind = true;
    let mut left = line;
    while let [c, rest @ ..] = left {
        if counts(mark, behind, *c) {
            return Some((rank, place));
        }
        rank = rank_after(mark, *c, rank);
        place += 1;
        behind = spaces::is_space(*c);
        left = rest;
    }
    None
}

/// Whether this is such a mark and counts.
fn counts(mark: char, behind: bool, c: char) -> bool
    ensures { result ≡ counts mark behind c }
{
    c == mark && behind
}

/// How many such marks there are, with this character behind so many.
fn rank_after(mark: char, c: char, rank: usize) -> usize
    requires { rank + 1 < 2 ^ 64 }
    ensures rank { result ≡ rank_after mark c rank }
    ensures more { result ≤ rank + 1 }
{
    if c == mark { rank + 1 } else { rank }
}

/// The line without its comment and the white space round it.
pub fn content_of(line: &[char]) -> &[char]
    ensures { result.now ≡ content_of line.now }
{
    match comment_in(line) {
        Some(place) => spaces::trimmed(line.split_at(place).0),
        None => spaces::trimmed(line),
    }
}
