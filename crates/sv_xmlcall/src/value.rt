//! The values of XML-RPC.
use sv_base::text::Text;

/// A value of XML-RPC. The specification of XML-RPC has 32 bits for an integer; the wider range is ours.
#[derive(Drop)]
pub enum Value {
    /// An integer, `<i4>` or `<int>`.
    Int(i64),
    /// A boolean.
    Truth(bool),
    /// A string.
    Text(Text),
    /// A value of another form, whose text is kept as it stands: the form's tag (`double`, `dateTime.iso8601` or
    /// `base64`) and the text.
    Other(Text, Text),
    /// The members of a struct, each with its name, in their order. Names may repeat.
    Struct(Vec<(Text, Value)>),
    /// The values of an array, in their order.
    Array(Vec<Value>),
}
