//! The statuses of replies, and the refusals.
ghost use Rattle.std.specs.Prelude.{◌≡◌};
ghost use Rattle.sv_http.specs.ReplyText.{number_of, reason_of};

/// Why a request is refused (RFC 9110, section 15.5; RFC 6585, section 5).
#[derive(Clone, Copy, Debug, PartialEq, Eq)]
pub enum Refusal {
    /// The head is no request head of HTTP/1.0 or 1.1 with at most 64 fields, or its length is no length, or the body is
    /// no call.
    BadRequest,
    /// No field has the username and the password.
    Unauthorized,
    /// The target is another than `/RPC2` and `/RPC2/`.
    NotFound,
    /// The method is another than POST.
    MethodNotAllowed,
    /// The length of the body isn't given, or the body has an encoding for the transfer.
    LengthRequired,
    /// The body has more than 1,048,576 bytes.
    ContentTooLarge,
    /// The head has more than 16,384 bytes.
    HeadTooLarge,
}

/// The status of a reply.
#[derive(Clone, Copy, PartialEq, Eq)]
pub enum Status {
    Ok,
    Bad(Refusal),
}

impl Status {
    /// The number that the status line has, from 200 to 431.
    pub fn number(self) -> u16
        ensures { result ≡ number_of self }
    {
        match self {
            Status::Ok => 200,
            Status::Bad(Refusal::BadRequest) => 400,
            Status::Bad(Refusal::Unauthorized) => 401,
            Status::Bad(Refusal::NotFound) => 404,
            Status::Bad(Refusal::MethodNotAllowed) => 405,
            Status::Bad(Refusal::LengthRequired) => 411,
            Status::Bad(Refusal::ContentTooLarge) => 413,
            Status::Bad(Refusal::HeadTooLarge) => 431,
        }
    }

    /// The reason phrase that the status line has.
    pub fn reason(self) -> &'static str
        ensures { result.now ≡ reason_of self }
    {
        match self {
            Status::Ok => "OK",
            Status::Bad(Refusal::BadRequest) => "Bad Request",
            Status::Bad(Refusal::Unauthorized) => "Unauthorized",
            Status::Bad(Refusal::NotFound) => "Not Found",
            Status::Bad(Refusal::MethodNotAllowed) => "Method Not Allowed",
            Status::Bad(Refusal::LengthRequired) => "Length Required",
            Status::Bad(Refusal::ContentTooLarge) => "Content Too Large",
            Status::Bad(Refusal::HeadTooLarge) => "Request Header Fields Too Large",
        }
    }
}
