//! What holds of the definitions that the contracts cite.

ghost use Rattle.std.specs.Prelude.{◌≡◌, List, ℕ};
ghost use Rattle.sv_pipes.specs.Talk.{Mark, IsCut as IsTalkCut, IsUndecided};
ghost use Rattle.sv_pipes.specs.TalkCut.{IsAttended, talk_tokens, talk_state, undecided_of};
ghost use Rattle.sv_pipes.specs.TalkPlaces.{StandsFor as TalkStandsFor, state_in};
ghost use Rattle.sv_pipes.specs.CaptureCut.{Decided, IsCut, IsClosed};
ghost use Rattle.sv_pipes.specs.CapturePlaces.{StandsFor, KeepsSame};
ghost use Rattle.sv_pipes.specs.StreamCut.{cut_of, closed_of};
ghost use Rattle.sv_pipes.specs.declared.talk.ListenerTalk.{ListenerTalk};
ghost use Rattle.sv_pipes.specs.declared.captured.Capture.{Capture};
ghost use Rattle.sv_pipes.specs.declared.parts.Side.{Side};
ghost use Rattle.sv_pipes.specs.declared.tokens.TalkState.{TalkState};
ghost use Rattle.sv_pipes.specs.declared.tokens.Token.{Token};

/// A law: a talk has one cut, so its bytes and marks alone decide its tokens and the state in which it leaves the
/// listener.
pub fn each_talk_has_one_cut()
    ensures { (talk : List Mark) (tokens others : List Token) (at also : TalkState)
        → IsTalkCut talk tokens at → IsTalkCut talk others also → (tokens ≡ others) × (at ≡ also) }
{}

/// A law: each talk in which events were sent where the listener waited for one has a cut, and the functions of the
/// whole talk give it.
pub fn each_talk_has_its_cut()
    ensures { (talk : List Mark) → IsAttended talk
        → IsTalkCut talk (talk_tokens talk) (talk_state talk) }
{}

/// A law: whatever cut a talk has, the functions of the whole talk give it.
pub fn a_cut_is_that_of_the_talk()
    ensures { (talk : List Mark) (tokens : List Token) (at : TalkState)
        → IsTalkCut talk tokens at → (tokens ≡ talk_tokens talk) × (at ≡ talk_state talk) }
{}

/// A law: the cut of a talk leaves one number of bytes undecided, and the function of the whole talk gives it.
pub fn a_talk_leaves_one_number_undecided()
    ensures { (talk : List Mark) (tokens : List Token) (at : TalkState) (count : ℕ)
        → IsUndecided talk tokens at count → count ≡ undecided_of talk }
{}

/// A law: a captured stream has one cut, so its bytes alone decide what is for the log, what makes a message, and
/// what is held.
pub fn each_stream_has_one_cut()
    ensures { (limit : ℕ) (stream : List ℕ) (decided others : List Decided) (side also : Side)
        (shown other held tail : List ℕ)
        → IsCut limit stream decided side shown held → IsCut limit stream others also other tail
        → (decided ≡ others) × (side ≡ also) × (shown ≡ other) × (held ≡ tail) }
{}

/// A law: each captured stream has a cut, and the function of the whole stream gives it.
pub fn each_stream_has_its_cut()
    ensures { (limit : ℕ) (stream : List ℕ) → let cut = cut_of limit stream in
        IsCut limit stream cut.decided cut.side cut.shown cut.held }
{}

/// A law: the end of a captured stream decides one thing.
pub fn each_stream_ends_in_one_way()
    ensures { (limit : ℕ) (stream : List ℕ) (decided others : List Decided)
        → IsClosed limit stream decided → IsClosed limit stream others → decided ≡ others }
{}

/// A law: the end of each captured stream decides something, and the function of the whole stream gives it.
pub fn each_stream_has_its_end()
    ensures { (limit : ℕ) (stream : List ℕ) → IsClosed limit stream (closed_of limit stream) }
{}

/// A law: two readers that were told the same talk gave the same tokens and are in the same state, in whatever pieces
/// each was told it.
pub fn pieces_of_a_talk_tell_the_same()
    ensures { (one other : ListenerTalk) (talk : List Mark) (tokens others : List Token)
        → TalkStandsFor one talk tokens → TalkStandsFor other talk others
        → (tokens ≡ others) × (state_in one ≡ state_in other) }
{}

/// A law: of one stream two captures of one limit gave the same bytes for the log and the same messages and keep the
/// same bytes, in whatever pieces each was told it.
pub fn pieces_of_a_stream_decide_the_same()
    ensures { (one other : Capture) (limit : ℕ) (stream : List ℕ) (decided others : List Decided)
        → StandsFor one limit stream decided → StandsFor other limit stream others
        → (decided ≡ others) × KeepsSame one other }
{}
