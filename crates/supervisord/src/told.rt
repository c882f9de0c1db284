//! What the daemon is told by its words and its configuration, before anything is opened or started.

use crate::unbegun::Unbegun;
use std::alloc::{AllocError, Global};
use sv_base::{Config, Host, Text};
use sv_load::{LoadFault, Loaded, load};
use sv_out::Shelf;
use sv_sections::ConfFault;
use sv_sections::includes::sections_in;
use sv_sections::sections::with_included;
use sv_settings::{Settings, settings_of};
use sv_supervise::arguments_of;

/// The words of the daemon's own start, and what its configuration says.
pub struct Told {
    /// The configuration's file.
    pub file: Text,
    /// Whether a journal is written to standard output.
    pub journal: bool,
    /// Whether the daemon was asked to stay in the foreground.
    pub foreground: bool,
    pub settings: Settings,
    pub config: Config,
}

impl Drop for Told {
    fn drop(self) {
        let Self {
            file: _,
            journal: _,
            foreground: _,
            settings: _,
            config: _,
        } = self;
    }
}

/// What these words and the configuration that they name say; none where the daemon's own call refuses them, and says so.
/// Refused where a key is for the edge alone and its value can't be read.
pub fn told_by<S: Shelf>(
    alloc: Global,
    words: &[Text],
    host: &Host,
    shelf: &mut S,
) -> Result<Option<Told>, Unbegun> {
    let Some(arguments) = arguments_of(alloc, words)? else {
        return Ok(None);
    };
    let loaded = match load(alloc, arguments.file.as_str(), host, shelf) {
        Ok(loaded) => loaded,
        Err(LoadFault::OutOfMemory) => return Err(Unbegun::OutOfMemory),
        Err(_) => return Ok(None),
    };
    let settings = match settings_in(alloc, &loaded, host) {
        Ok(settings) => settings,
        Err(fault) => return Err(refused(alloc, &fault)?),
    };
    let Loaded { config, .. } = loaded;
    Ok(Some(Told {
        file: arguments.file,
        journal: arguments.journal,
        foreground: words.iter().any(asks_for_foreground),
        settings,
        config,
    }))
}

/// The settings of a configuration that was read, each of which can be read.
fn settings_in(alloc: Global, loaded: &Loaded, host: &Host) -> Result<Settings, ConfFault> {
    let main = sections_in(alloc, loaded.main.as_slice())?;
    let sections = with_included(alloc, main, loaded.included.as_slice())?;
    let settings = settings_of(alloc, sections.as_slice(), host)?;
    settings.judged()?;
    Ok(settings)
}

/// The line for a configuration with this fault.
fn refused(alloc: Global, fault: &ConfFault) -> Result<Unbegun, AllocError> {
    if matches!(fault, ConfFault::OutOfMemory) {
        return Err(AllocError);
    }
    let text = fault.text(alloc)?;
    let text = text.as_str();
    Ok(Unbegun::Refused(Text::from_string(format!(in alloc; "Error: conf {text}\n")?)))
}

/// Whether a word that was accepted asks for the foreground.
fn asks_for_foreground(word: &Text) -> bool {
    word.as_str().starts_with("-n") || word.as_str() == "--nodaemon"
}
