//! Values that Supervisor reads in a form that isn't read here, and how to write them.

use crate::meaning::Meaning;
use crate::spaces;
use std::alloc::{AllocError, Global};

/// The forms of values that are forgiven in Supervisor.
#[derive(Clone, Copy)]
enum Form {
    /// A word in any case of letters, which is written in small ones here.
    Small,
    /// Words in any case of letters, which are written in capitals here.
    Capitals,
    /// A number, which may have white space round it, a sign before it, and underscores between its digits.
    Number,
    /// A size, whose number may stand apart from its unit.
    Size,
    /// A log, for which `off` is none.
    Log,
    /// What is read alike.
    Plain,
}

/// How the value of this key is to be written here, where it has to be written otherwise.
pub fn cure(alloc: Global, meaning: &Meaning) -> Result<Option<String>, AllocError> {
    let value = meaning.value.as_str();
    match form_of(meaning) {
        Form::Small => Ok(Some(value.to_ascii_lowercase(alloc)?)),
        Form::Capitals => Ok(Some(capitals(alloc, value)?)),
        Form::Number => Ok(Some(number(alloc, value)?)),
        Form::Size => Ok(Some(without_gaps(alloc, value)?)),
        Form::Log if value.eq_ignore_ascii_case("off") => Ok(Some(String::from_str(
            alloc, "NONE",
        )?)),
        Form::Log | Form::Plain => Ok(None),
    }
}

fn form_of(meaning: &Meaning) -> Form {
    let section = meaning.section.as_str();
    let key = meaning.key.as_str();
    if section == "supervisord" {
        daemon_form(key)
    } else if begins_with(section, "program:") {
        program_form(key)
    } else if begins_with(section, "eventlistener:") {
        listener_form(key)
    } else if begins_with(section, "group:") && key == "priority" {
        Form::Number
    } else {
        Form::Plain
    }
}

fn daemon_form(key: &str) -> Form {
    match key {
        "loglevel" => Form::Small,
        "minfds" | "minprocs" | "logfile_backups" => Form::Number,
        "logfile_maxbytes" => Form::Size,
        _ => Form::Plain,
    }
}

fn listener_form(key: &str) -> Form {
    match key {
        "events" => Form::Capitals,
        "buffer_size" => Form::Number,
        _ => program_form(key),
    }
}

fn program_form(key: &str) -> Form {
    match key {
        "numprocs" | "numprocs_start" | "priority" | "startsecs" | "startretries" => Form::Number,
        "stopwaitsecs" | "stdout_logfile_backups" | "stderr_logfile_backups" => Form::Number,
        "stdout_logfile_maxbytes" | "stderr_logfile_maxbytes" => Form::Size,
        "stdout_capture_maxbytes" | "stderr_capture_maxbytes" => Form::Size,
        "stdout_logfile" | "stderr_logfile" => Form::Log,
        _ => Form::Plain,
    }
}

fn begins_with(text: &str, word: &str) -> bool {
    text.as_bytes().starts_with(word.as_bytes())
}

/// The words in capitals and in one line.
fn capitals(alloc: Global, value: &str) -> Result<String, AllocError> {
    let text = value.to_ascii_uppercase(alloc)?;
    text.as_str().replace(alloc, "\n", " ")
}

/// The number without a plus before it and underscores, and without white space.
fn number(alloc: Global, value: &str) -> Result<String, AllocError> {
    let mut text = String::new(alloc);
    for c in value.chars() {
        if c != '_' && c != '+' && !spaces::is_space(c) {
            text.push(c)?;
        }
    }
    Ok(text)
}

fn without_gaps(alloc: Global, value: &str) -> Result<String, AllocError> {
    let mut text = String::new(alloc);
    for c in value.chars() {
        if !spaces::is_space(c) {
            text.push(c)?;
        }
    }
    Ok(text)
}
