//! Laws of what is printed of a log that is followed.
ghost use Rattle.std.specs.Prelude.{◌+◌, List, ℕ, length};
ghost use Rattle.sv_base.specs.declared.state.Stream.{Stream};
ghost use Rattle.sv_follow.specs.Follower.{first};
ghost use Rattle.sv_follow.specs.Following.{follow_said};
ghost use Rattle.sv_follow.specs.Replies.{AreTold, Begins, followed};
ghost use Rattle.sv_follow.specs.Seen.{seen_later};
ghost use Rattle.sv_follow.specs.Whole.{IsWhole};
ghost use Rattle.sv_ctl.specs.Talk.Answers.{Answer};

/// A law: where the answers are those of a log that has told bytes at each poll, what is printed is what is seen of them: the
/// log's end, and then what is appended, with a line before what was lost and one where it was rotated.
#[tactic(auto, using(crate::proofs::LawLemmas::printed_is_the_log))]
pub fn what_is_printed_is_the_log()
    ensures { (url name : List ℕ) (channel : Stream) (further : ℕ) (files : List (List ℕ))
        (answers : List Answer) → AreTold first files answers
        → Begins (follow_said url name channel (length files + further)) answers (followed files) }
{}

/// A law: of a log that is followed no byte is missing but those that are told as lost. At each poll after the first, where the
/// log begins with what it had at the poll before, or with nothing where it was found rotated then, what was appended is seen but
/// for the told number of bytes before it.
#[tactic(auto, using(crate::proofs::LawLemmas::nothing_else_is_missing))]
pub fn what_is_missing_is_told()
    ensures { (before : List ℕ) (polls : List (List ℕ))
        → IsWhole before polls (seen_later (length before) polls) }
{}
