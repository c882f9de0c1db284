//! The tags, with their spelling.
ghost use Rattle.std.specs.Prelude.{◌≡◌, ◌+◌, ◌<◌, IfOk, length};
ghost use Rattle.sv_xmlcall.specs.Tags.{spelling, word_at, tag_at};
ghost use Rattle.sv_xmlcall.specs.Outcome.{GivesAlways};

use sv_letters::BadByte;

/// What a text of XML-RPC is made of beside its characters: the tags, those of closing tags without the `>` at their
/// end, the beginning of the declaration, and the entities, those by number without their number.
#[derive(Clone, Copy, PartialEq, Eq)]
pub enum Tag {
    Declaration,
    MethodCall,
    MethodName,
    MethodResponse,
    Params,
    NoParams,
    Param,
    Fault,
    Value,
    NoValue,
    I4,
    Int,
    Boolean,
    String,
    NoString,
    Double,
    DateTime,
    Base64,
    Struct,
    NoMembers,
    Member,
    Name,
    Array,
    Data,
    NoData,
    EndMethodCall,
    EndMethodName,
    EndMethodResponse,
    EndParams,
    EndParam,
    EndFault,
    EndValue,
    EndI4,
    EndInt,
    EndBoolean,
    EndString,
    EndDouble,
    EndDateTime,
    EndBase64,
    EndStruct,
    EndMember,
    EndName,
    EndArray,
    EndData,
    Ampersand,
    Less,
    Greater,
    Quote,
    Apostrophe,
    Numbered,
}

impl Tag {
    /// The bytes of the tag.
    fn spelling(self) -> &'static str
        ensures value { result.now ≡ spelling self }
        ensures least { 0 < length result.now }
    {
        match self {
            Tag::Declaration => "<?xml",
            Tag::MethodCall => "<methodCall>",
            Tag::MethodName => "<methodName>",
            Tag::MethodResponse => "<methodResponse>",
            Tag::Params => "<params>",
            Tag::NoParams => "<params/>",
            Tag::Param => "<param>",
            Tag::Fault => "<fault>",
            Tag::Value => "<value>",
            Tag::NoValue => "<value/>",
            Tag::I4 => "<i4>",
            Tag::Int => "<int>",
            Tag::Boolean => "<boolean>",
            Tag::String => "<string>",
            Tag::NoString => "<string/>",
            Tag::Double => "<double>",
            Tag::DateTime => "<dateTime.iso8601>",
            Tag::Base64 => "<base64>",
            Tag::Struct => "<struct>",
            Tag::NoMembers => "<struct/>",
            Tag::Member => "<member>",
            Tag::Name => "<name>",
            Tag::Array => "<array>",
            Tag::Data => "<data>",
            Tag::NoData => "<data/>",
            Tag::EndMethodCall => "</methodCall",
            Tag::EndMethodName => "</methodName",
            Tag::EndMethodResponse => "</methodResponse",
            Tag::EndParams => "</params",
            Tag::EndParam => "</param",
            Tag::EndFault => "</fault",
            Tag::EndValue => "</value",
            Tag::EndI4 => "</i4",
            Tag::EndInt => "</int",
            Tag::EndBoolean => "</boolean",
            Tag::EndString => "</string",
            Tag::EndDouble => "</double",
            Tag::EndDateTime => "</dateTime.iso8601",
            Tag::EndBase64 => "</base64",
            Tag::EndStruct => "</struct",
            Tag::EndMember => "</member",
            Tag::EndName => "</name",
            Tag::EndArray => "</array",
            Tag::EndData => "</data",
            Tag::Ampersand => "&amp;",
            Tag::Less => "&lt;",
            Tag::Greater => "&gt;",
            Tag::Quote => "&quot;",
            Tag::Apostrophe => "&apos;",
            Tag::Numbered => "&#",
        }
    }
}

/// Reads this word, and gives what follows it.
fn word<'a>(wanted: &[u8], bytes: &'a [u8]) -> Result<&'a [u8], BadByte>
    ensures value { GivesAlways (λ rest. rest.now) result (word_at wanted.now bytes.now) }
    ensures shorter { IfOk result (λ rest. length rest.now + length wanted.now ≡ length bytes.now) }
{
    let mut left = wanted;
    let mut rest = bytes;
    while let [next, more @ ..] = left {
        match rest {
            [byte, after @ ..] if *byte == *next => rest = after,
            _ => return Err(BadByte(rest.len())),
        }
        left = more;
    }
    Ok(rest)
}

/// Reads one of these tags. Where none stands here, the bad byte is the first that goes on with none of them.
#[inline(always)]
pub fn next_tag<'a>(tags: &[Tag], bytes: &'a [u8]) -> Result<(Tag, &'a [u8]), BadByte>
    ensures value { GivesAlways (λ x. (x.0, x.1.now)) result (tag_at tags.now bytes.now) }
    ensures shorter { IfOk result (λ x. length x.1.now < length bytes.now) }
{
    let mut least = bytes.len();
    let mut left = tags;
    while let [next, more @ ..] = left {
        match word(next.spelling().as_bytes(), bytes) {
            Ok(rest) => return Ok((*next, rest)),
            Err(BadByte(bad)) => least = least.min(bad),
        }
        left = more;
    }
    Err(BadByte(least))
}
