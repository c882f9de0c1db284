//! Which bytes may follow which.
ghost use Rattle.std.specs.Prelude.{◌≡◌, ◌<◌, nat_lt};
ghost use Rattle.sv_letters.specs.declared.letters.Letters.{Letters};
ghost use Rattle.sv_letters.specs.declared.letters.Awaits.{Awaits};
ghost use Rattle.sv_letters.specs.Letters.{is_name_letter, is_plain, is_lead, whole_below};
ghost use Rattle.sv_letters.specs.Letters.{allows, after_lead, after};

/// Which characters may stand: those of any text, only those of a program's name, any bytes, or only those that XML
/// allows.
#[derive(Clone, Copy, PartialEq, Eq)]
pub enum Letters {
    OfText,
    OfName,
    OfBytes,
    OfXml,
}

/// What bytes go on with (RFC 3629, section 4): a character, or a byte within a character, from `low` to `high`, and so
/// many more bytes after it. `Private` is the second byte after 239, where XML leaves out the two characters U+FFFE and
/// U+FFFF.
#[derive(Clone, Copy, PartialEq, Eq)]
pub enum Awaits {
    Character,
    Private,
    Continuation { low: u8, high: u8, more: u8 },
}

/// Whether a name may have this character of ASCII.
fn is_name_letter(byte: u8) -> bool
    requires { byte < 128 }
    ensures { result ≡ is_name_letter byte }
{
    b' ' < byte && byte != 127 && byte != b':' && byte != b'/' && byte != b'*'
}

/// Whether XML allows this character of ASCII.
fn is_plain(byte: u8) -> bool
    ensures { result ≡ is_plain byte }
{
    byte >= 32 || byte == b'\t' || byte == b'\n' || byte == b'\r'
}

impl Letters {
    /// Whether this byte is a character by itself: in UTF-8 one of ASCII, among any bytes each of them.
    fn is_whole(self, byte: u8) -> bool
        ensures { result ≡ nat_lt byte (whole_below self) }
    {
        match self {
            Letters::OfText | Letters::OfName | Letters::OfXml => byte < 128,
            Letters::OfBytes => true,
        }
    }

    /// Whether these letters have the character that this byte is by itself.
    fn has(self, byte: u8) -> bool
        requires { byte < whole_below self }
        ensures { result ≡ is_lead self byte }
    {
        match self {
            Letters::OfText | Letters::OfBytes => true,
            Letters::OfName => is_name_letter(byte),
            Letters::OfXml => is_plain(byte),
        }
    }
}

impl Awaits {
    /// Whether this byte may come.
    pub fn allows(self, letters: Letters, byte: u8) -> bool
        ensures { result ≡ allows letters self byte }
    {
        match self {
            Awaits::Character if letters.is_whole(byte) => letters.has(byte),
            Awaits::Character => 194 <= byte && byte <= 244,
            Awaits::Private => 128 <= byte && byte <= 191,
            Awaits::Continuation { low, high, .. } => low <= byte && byte <= high,
        }
    }

    /// What may come after this byte.
    pub fn after(self, letters: Letters, byte: u8) -> Awaits
        ensures { result ≡ after letters self byte }
    {
        match self {
            Awaits::Character => after_lead(letters, byte),
            Awaits::Private => Awaits::Continuation {
                low: 128,
                high: if byte == 191 { 189 } else { 191 },
                more: 0,
            },
            Awaits::Continuation { more: 0, .. } => Awaits::Character,
            Awaits::Continuation { more, .. } => Awaits::Continuation {
                low: 128,
                high: 191,
                more: more - 1,
            },
        }
    }
}

/// What may come after the first byte of a character.
fn after_lead(letters: Letters, lead: u8) -> Awaits
    ensures { result ≡ after_lead letters lead }
{
    match lead {
        _ if letters.is_whole(lead) => Awaits::Character,
        0..=223 => Awaits::Continuation {
            low: if letters == Letters::OfName && lead == 194 {
                160
            } else {
                128
            },
            high: 191,
            more: 0,
        },
        239 if letters == Letters::OfXml => Awaits::Private,
        224..=239 => Awaits::Continuation {
            low: if lead == 224 { 160 } else { 128 },
            high: if lead == 237 { 159 } else { 191 },
            more: 1,
        },
        _ => Awaits::Continuation {
            low: if lead == 240 { 144 } else { 128 },
            high: if lead == 244 { 143 } else { 191 },
            more: 2,
        },
    }
}
