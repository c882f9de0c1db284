//! Texts put together from pieces.
ghost use Rattle.std.specs.Prelude.{◌≡◌, ◌++◌, ◌∷◌, IfOk, OnOk, string_bytes};
ghost use Rattle.std.specs.Fmt.{decimal};

use std::alloc::{AllocError, Global};
use sv_base::bytes::Bytes;

/// Adds a label and what it labels.
pub(crate) fn push_field(text: &mut String, label: &str, value: &str) -> Result<(), AllocError>
    ensures { OnOk result (string_bytes text.new
        ≡ string_bytes text.old ++ label.now ++ value.now) }
{
    text.push_str(label)?;
    text.push_str(value)?;
    Ok(())
}

/// Adds a label and a number in decimal digits.
pub(crate) fn push_number(
    alloc: Global,
    text: &mut String,
    label: &str,
    number: u64,
) -> Result<(), AllocError>
    ensures { OnOk result (string_bytes text.new
        ≡ string_bytes text.old ++ label.now ++ decimal number) }
{
    let digits = number.to_string(alloc)?;
    push_field(text, label, digits.as_str())
}

/// The text as a line, and then these bytes.
pub(crate) fn with_lines(line: String, bytes: &[u8]) -> Result<Bytes, AllocError>
    ensures { IfOk result (λ b. b ≡ string_bytes line ++ 10 ∷ bytes.now) }
{
    let mut all = line.into_bytes();
    all.push(b'\n')?;
    all.extend_from_slice(bytes)?;
    Ok(Bytes::from_vec(all))
}
