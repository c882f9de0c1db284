//! Why a configuration is refused.

ghost use Rattle.std.specs.Prelude.{◌≡◌, ◌++◌, ◌∷◌, IfOk};
ghost use Rattle.std.specs.Fmt.{decimal};
ghost use Rattle.sv_sections.specs.declared.fault.ConfFault.TheVariants.{OutOfMemory};
ghost use Rattle.sv_sections.specs.FaultTexts.{ini_text};

use std::alloc::{AllocError, AllocFailed, Global};
use sv_base::text::Text;
use sv_ini::fault::IniFault;
use thiserror::Error;

/// Why a configuration is refused: its first fault.
#[derive(Debug, Drop, Error)]
pub enum ConfFault {
    /// The text, or an included one, has no sections; never when out of memory.
    #[error("1 Ini {0}")]
    Ini(IniFault),
    /// The section lacks a key that it must have.
    #[error("2 Missing {} {}", .0.as_str(), .1.as_str())]
    Missing(Text, Text),
    /// A key of the section has a value that isn't one of its values; or, with `name` in the place of the key, the name
    /// in the section's title can't be a name.
    #[error("3 BadValue {} {}", .0.as_str(), .1.as_str())]
    BadValue(Text, Text),
    /// The value of a key of the section can't be expanded.
    #[error("4 Expand {} {}", .0.as_str(), .1.as_str())]
    Expand(Text, Text),
    /// The section stands for several processes, and their name has no `%(process_num)` form.
    #[error("5 NeedsNumber {}", .0.as_str())]
    NeedsNumber(Text),
    /// The group names a program that has no section.
    #[error("6 NoSuchProgram {} {}", .0.as_str(), .1.as_str())]
    NoSuchProgram(Text, Text),
    /// A section for a part that isn't supported.
    #[error("7 Unsupported {}", .0.as_str())]
    Unsupported(Text),
    /// Two groups have this name, or two processes of one group.
    #[error("8 TwiceNamed {}", .0.as_str())]
    TwiceNamed(Text),
    /// More than 256 groups, or more than 1,024 processes.
    #[error("9 TooMany")]
    TooMany,
    /// There was no memory left for the answer.
    #[error("out of memory")]
    OutOfMemory,
}

impl ConfFault {
    ghost use Rattle.sv_sections.specs.FaultTexts.{fault_number, fault_text};

    /// The number by which the fault is printed; out of memory has none.
    pub fn number(&self) -> Option<u32>
        ensures { result ≡ fault_number self.now }
    {
        match self {
            ConfFault::Ini(_) => Some(1),
            ConfFault::Missing(_, _) => Some(2),
            ConfFault::BadValue(_, _) => Some(3),
            ConfFault::Expand(_, _) => Some(4),
            ConfFault::NeedsNumber(_) => Some(5),
            ConfFault::NoSuchProgram(_, _) => Some(6),
            ConfFault::Unsupported(_) => Some(7),
            ConfFault::TwiceNamed(_) => Some(8),
            ConfFault::TooMany => Some(9),
            ConfFault::OutOfMemory => None,
        }
    }

    /// The text that is printed: the number, the name and the parts with single spaces.
    pub fn text(&self, alloc: Global) -> Result<Text, AllocError>
        ensures { IfOk result (λ text. text ≡ fault_text self.now) }
    {
        match self {
            ConfFault::Ini(fault) => ini_text(alloc, fault),
            ConfFault::Missing(section, key) => with_two(alloc, "2 Missing", section, key),
            ConfFault::BadValue(section, key) => with_two(alloc, "3 BadValue", section, key),
            ConfFault::Expand(section, key) => with_two(alloc, "4 Expand", section, key),
            ConfFault::NeedsNumber(section) => with_one(alloc, "5 NeedsNumber", section),
            ConfFault::NoSuchProgram(group, name) => {
                with_two(alloc, "6 NoSuchProgram", group, name)
            }
            ConfFault::Unsupported(section) => with_one(alloc, "7 Unsupported", section),
            ConfFault::TwiceNamed(name) => with_one(alloc, "8 TwiceNamed", name),
            ConfFault::TooMany => Ok(Text::fixed("9 TooMany")),
            ConfFault::OutOfMemory => Ok(Text::fixed("out of memory")),
        }
    }
}

fn with_one(alloc: Global, head: &str, part: &Text) -> Result<Text, AllocError>
    ensures { IfOk result (λ text. text ≡ head.now ++ 32 ∷ part.now) }
{
    let part = part.as_str();
    Ok(Text::from_string(format!(in alloc; "{head} {part}")?))
}

fn with_two(alloc: Global, head: &str, one: &Text, other: &Text) -> Result<Text, AllocError>
    ensures { IfOk result (λ text. text ≡ head.now ++ 32 ∷ (one.now ++ 32 ∷ other.now)) }
{
    let one = one.as_str();
    let other = other.as_str();
    Ok(Text::from_string(format!(in alloc; "{head} {one} {other}")?))
}

fn ini_text(alloc: Global, fault: &IniFault) -> Result<Text, AllocError>
    ensures { IfOk result (λ text. text ≡ ini_text fault.now) }
{
    match fault {
        IniFault::NotUtf8(place) => with_number(alloc, "1 Ini 1 NotUtf8", *place),
        IniFault::BadLine(line) => with_number(alloc, "1 Ini 2 BadLine", *line),
        IniFault::OutsideSection(line) => with_number(alloc, "1 Ini 3 OutsideSection", *line),
        IniFault::TooLong => Ok(Text::fixed("1 Ini 4 TooLong")),
        IniFault::OutOfMemory => Ok(Text::fixed("out of memory")),
    }
}

fn with_number(alloc: Global, head: &str, number: usize) -> Result<Text, AllocError>
    ensures { IfOk result (λ text. text ≡ head.now ++ 32 ∷ decimal number) }
{
    Ok(Text::from_string(format!(in alloc; "{head} {number}")?))
}

impl From<AllocError> for ConfFault {
    ghost from_gives = { λ _ e. e ≡ OutOfMemory };

    fn from(_: AllocError) -> ConfFault {
        ConfFault::OutOfMemory
    }
}

impl<T: Drop> From<AllocFailed<T>> for ConfFault {
    ghost from_gives = { λ _ e. e ≡ OutOfMemory };

    fn from(_: AllocFailed<T>) -> ConfFault {
        ConfFault::OutOfMemory
    }
}
