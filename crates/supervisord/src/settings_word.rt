//! The word by which the launcher asks what the configuration says of the daemon itself.

use crate::told::{Told, told_by};
use crate::unbegun::Unbegun;
use std::alloc::{AllocError, Global};
use sv_base::{Host, Text};
use sv_out::Shelf;

/// The word: `supervisord --settings -c FILE`.
pub const WORD: &str = "--settings";

/// The status where there is no configuration that could be told.
const REFUSED: u8 = 2;

/// What the configuration of the words behind the first one says of the daemon itself, where that is the word.
pub fn asked<S: Shelf>(
    alloc: Global,
    words: &[Text],
    host: &Host,
    shelf: &mut S,
) -> Result<Option<Unbegun>, Unbegun> {
    match words {
        [word, rest @ ..] if word.as_str() == WORD => match told_by(alloc, rest, host, shelf) {
            Ok(Some(told)) => Ok(Some(Unbegun::Told(Text::from_string(lines_of(alloc, &told)?)))),
            Err(Unbegun::OutOfMemory) => Err(Unbegun::OutOfMemory),
            _ => Ok(Some(Unbegun::Ended(REFUSED))),
        },
        _ => Ok(None),
    }
}

/// A line `KEY=VALUE` for each setting that is the launcher's to apply, where it is set.
fn lines_of(alloc: Global, told: &Told) -> Result<String, AllocError> {
    let settings = &told.settings;
    let mut lines = String::new(alloc);
    let all = [
        ("umask", &settings.umask),
        ("user", &settings.user),
        ("minfds", &settings.minfds),
        ("minprocs", &settings.minprocs),
        ("pidfile", &settings.pidfile),
        ("directory", &settings.directory),
    ];
    for (key, value) in all {
        if !value.as_str().is_empty() {
            let value = value.as_str();
            lines.push_str(format!(in alloc; "{key}={value}\n")?.as_str())?;
        }
    }
    Ok(lines)
}
