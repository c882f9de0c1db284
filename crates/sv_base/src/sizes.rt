//! Sizes in bytes, as a configuration writes them.
ghost use Rattle.std.specs.Prelude.{◌≡◌, ◌+◌, ◌-◌, ◌*◌, ◌^◌, ◌<◌, ◌≤◌, length, Some, None, take};
ghost use Rattle.std.specs.Prelude.{drop};
ghost use Rattle.std.specs.List.{prefix_len};
ghost use Rattle.std.specs.Option.{SomeIff};
ghost use Rattle.std.specs.Char.{is_ascii_digit};
ghost use Rattle.std.specs.Str.{str_to_ascii_lowercase};
ghost use Rattle.sv_base.specs.SizeText.{size_of, unit_of, number_of};

/// The size in bytes that a text writes: decimal digits, then nothing, `KB`, `MB` or `GB` in any case of letters,
/// which are 1,024 bytes, its square and its cube. `None` exactly for other texts and for sizes past 64 bits.
pub fn size_of_text(text: &str) -> Option<u64>
    ensures { result ≡ size_of text.now }
{
    let bytes = text.as_bytes();
    let digits = digits_of(bytes);
    if digits == 0 {
        return None;
    }
    let unit = unit_of(&bytes[digits..])?;
    let number = number_of(&bytes[..digits])?;
    number.checked_mul(unit)
}

/// How many digits stand at the front.
fn digits_of(bytes: &[u8]) -> usize
    ensures count { result ≡ prefix_len is_ascii_digit bytes.now }
    ensures within { result ≤ length bytes.now }
{
    bytes
        .iter()
        .take_while(|byte| byte.is_ascii_digit())
        .count()
}

fn unit_of(bytes: &[u8]) -> Option<u64>
    ensures { result ≡ unit_of (str_to_ascii_lowercase bytes.now) }
{
    if bytes.eq_ignore_ascii_case(b"") {
        Some(1)
    } else if bytes.eq_ignore_ascii_case(b"kb") {
        Some(1_024)
    } else if bytes.eq_ignore_ascii_case(b"mb") {
        Some(1_048_576)
    } else if bytes.eq_ignore_ascii_case(b"gb") {
        Some(1_073_741_824)
    } else {
        None
    }
}

#[tactic(auto, using(crate::proofs::Digits::next_digit))]
fn number_of(digits: &[u8]) -> Option<u64>
    ensures { SomeIff result (number_of 0 digits.now < 2 ^ 64) (number_of 0 digits.now) }
{
    let mut number = 0;
    for digit in digits {
        match with_digit(number, *digit) {
            None => return None,
            Some(longer) => number = longer,
        }
    }
    Some(number)
}

fn with_digit(number: u64, digit: u8) -> Option<u64>
    ensures { SomeIff result (10 * number + (digit - 48) < 2 ^ 64) (10 * number + (digit - 48)) }
{
    number
        .checked_mul(10)?
        .checked_add(digit.saturating_sub(b'0') as u64)
}
