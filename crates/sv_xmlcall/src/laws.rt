//! Laws over what texts spell.
ghost use Rattle.std.specs.Prelude.{◌≡◌, ◌++◌, List, ℕ, Option, Some, None, Result, codes, length};
ghost use Rattle.sv_xmlcall.specs.Spelled.{Spelled, ACall, AReply};
ghost use Rattle.sv_xmlcall.specs.Called.{called, replied};
ghost use Rattle.sv_xmlcall.specs.Given.{IsWithin, OnlyCall, OnlyReply, IsBackCall, IsBackReply};
ghost use Rattle.sv_xmlcall.specs.Trees.{CallTree, Reply};
ghost use Rattle.sv_xmlcall.specs.SpelledTexts.{Spells, SpellsCall, SpellsReply};
ghost use Rattle.sv_xmlcall.specs.Beginnings.{BeginsCall, BeginsReply, IsLongest};
ghost use Rattle.sv_xmlcall.specs.Writable.{IsWritableCall, IsWritableReply};
ghost use Rattle.sv_xmlcall.specs.Written.{written_call, written_reply};
ghost use Rattle.sv_xmlcall.specs.WorkedTexts.{plain_call, declared_call, call_without_params};
ghost use Rattle.sv_xmlcall.specs.WorkedTexts.{version_call, version_text, version_reply};
ghost use Rattle.sv_xmlcall.specs.WorkedTexts.{three_values, value_declared};
ghost use Rattle.sv_xmlcall.specs.Openings.{amount_in, depth_in};
ghost use Rattle.sv_xmlcall.specs.declared.call.Call.{Call};
ghost use Rattle.sv_xmlcall.specs.declared.call.Answered.{Answered};
ghost use Rattle.sv_xmlcall.specs.declared.call.CallFault.{CallFault};

/// A law: no text spells two things.
pub fn no_text_spells_two()
    ensures { (bytes : List ℕ) (one two : Spelled) → Spells bytes one → Spells bytes two
        → one ≡ two }
{}

/// A law: bytes have one good prefix as a call, and one as a reply.
pub fn one_good_front()
    ensures calls { (bytes one two : List ℕ) → IsLongest BeginsCall bytes one
        → IsLongest BeginsCall bytes two → one ≡ two }
    ensures replies { (bytes one two : List ℕ) → IsLongest BeginsReply bytes one
        → IsLongest BeginsReply bytes two → one ≡ two }
{}

/// A law: the call that bytes are, as `called` says, is the one that they spell within the limits; so it is of replies.
pub fn what_bytes_are()
    ensures call_spelled { (bytes : List ℕ) (call : CallTree) → called bytes ≡ Some call
        → SpellsCall bytes call × IsWithin (ACall call) }
    ensures spelled_call { (bytes : List ℕ) (call : CallTree) → SpellsCall bytes call
        → IsWithin (ACall call) → called bytes ≡ Some call }
    ensures reply_spelled { (bytes : List ℕ) (reply : Reply) → replied bytes ≡ Some reply
        → SpellsReply bytes reply × IsWithin (AReply reply) }
    ensures spelled_reply { (bytes : List ℕ) (reply : Reply) → SpellsReply bytes reply
        → IsWithin (AReply reply) → replied bytes ≡ Some reply }
{}

/// A law: the written text of what can be written spells it.
pub fn written_texts_spell()
    ensures calls { (call : CallTree) → IsWritableCall call → SpellsCall (written_call call) call }
    ensures replies { (reply : Reply) → IsWritableReply reply
        → SpellsReply (written_reply reply) reply }
{}

/// A law: what is written within the limits is read again as it was, by whoever answers as the readers do.
pub fn written_texts_are_read()
    ensures calls { (call : CallTree) (result : Result Call CallFault) → IsWritableCall call
        → IsWithin (ACall call) → OnlyCall (written_call call) result → IsBackCall call result }
    ensures replies { (reply : Reply) (result : Result Answered CallFault) → IsWritableReply reply
        → IsWithin (AReply reply) → OnlyReply (written_reply reply) result
        → IsBackReply reply result }
{}

/// A law: three texts that spell one call, the reply to it as it is written, which call and which reply texts are, and that
/// with letters after it a call is none, the place at which they are refused, and what two prefixes open.
pub fn worked_texts()
    ensures plain { SpellsCall plain_call version_call }
    ensures declared { SpellsCall declared_call version_call }
    ensures without { SpellsCall call_without_params version_call }
    ensures written { written_reply version_reply ≡ version_text }
    ensures is_call { called declared_call ≡ Some version_call }
    ensures is_none { called (plain_call ++ codes " x") ≡ None }
    ensures is_reply { replied version_text ≡ Some version_reply }
    ensures good { IsLongest BeginsCall (plain_call ++ codes " x") (plain_call ++ codes " ") }
    ensures place { length (plain_call ++ codes " ") ≡ 75 }
    ensures opened { amount_in three_values ≡ 3 }
    ensures deep { depth_in three_values ≡ 2 }
    ensures undeclared { amount_in value_declared ≡ 0 }
{}
