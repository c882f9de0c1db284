//! Where a server's URL leads.
ghost use Rattle.std.specs.Prelude.{◌≡◌, ◌≤◌, Some, IfOk, length};
ghost use Rattle.std.specs.List.{list_any};
ghost use Rattle.std.specs.Option.{option_map};
ghost use Rattle.std.specs.Str.{IsUtf8};
ghost use Rattle.sv_ctl.specs.Ask.ServerUrl.{behind, without_slash, parted, port_of, is_host, is_slash};
ghost use Rattle.sv_ctl.specs.Ask.ServerUrl.{digits_from, inet_at, inet_of, unix_of, place_of, host_of};

use std::alloc::{AllocError, Global};
use sv_base::{Place, Text};

/// The place of a URL of the form `http://HOST:PORT`, after which one slash may stand, or `unix://PATH`; none exactly
/// where it has neither form. A host isn't empty and has no colon and no slash, a port is a number from 1 to 65,535, and
/// a path isn't empty.
pub fn place_of(alloc: Global, url: &str) -> Result<Option<Place>, AllocError>
    ensures { IfOk result (λ place. place ≡ place_of url.now) }
{
    if let Some(rest) = behind("http://", url) {
        return inet_of(alloc, without_slash(rest));
    }
    match behind("unix://", url) {
        Some(path) => unix_of(alloc, path),
        None => Ok(None),
    }
}

/// The Host of a request to the server of a URL: `HOST:PORT` as it stands there, or `localhost` for a socket's path.
pub fn host_of(url: &str) -> &str
    ensures { result.now ≡ host_of url.now }
{
    match behind("http://", url) {
        Some(rest) => without_slash(rest),
        None => "localhost",
    }
}

/// What follows a prefix, where the text begins with it.
fn behind<'a>(front: &str, text: &'a str) -> Option<&'a str>
    ensures { option_map (λ rest. rest.now) result ≡ behind front.now text.now }
{
    text.strip_prefix(front)
}

/// The text without one slash at its end.
fn without_slash(text: &str) -> &str
    ensures { result.now ≡ without_slash text.now }
{
    if text.ends_with('/') {
        text.split_at(text.len() - 1).0
    } else {
        text
    }
}

/// What stands before and after the first colon.
fn parted(text: &str) -> Option<(&str, &str)>
    ensures { option_map (λ parts. (parts.0.now, parts.1.now)) result ≡ parted text.now }
{
    text.split_once(':')
}

/// A host and a port.
fn inet_of(alloc: Global, text: &str) -> Result<Option<Place>, AllocError>
    ensures { IfOk result (λ place. place ≡ inet_of (parted text.now)) }
{
    match parted(text) {
        Some((host, digits)) => inet_at(alloc, host, port_of(digits.as_bytes())),
        None => Ok(None),
    }
}

fn inet_at(alloc: Global, host: &str, port: Option<u16>) -> Result<Option<Place>, AllocError>
    ensures { IfOk result (λ place. place ≡ inet_at host.now port) }
{
    match port {
        Some(port) if is_host(host) => Ok(Some(Place::Inet(Text::from_str(alloc, host)?, port))),
        _ => Ok(None),
    }
}

fn is_host(host: &str) -> bool
    ensures { result ≡ is_host host.now }
{
    !host.is_empty() && !has_slash(host.as_bytes())
}

fn has_slash(bytes: &[u8]) -> bool
    ensures { result ≡ list_any is_slash bytes.now }
{
    bytes.iter().any(|byte| *byte == b'/')
}

/// A port: decimal digits alone, a number from 1 to 65,535.
fn port_of(digits: &[u8]) -> Option<u16>
    ensures { result ≡ port_of digits.now }
{
    match number_of(digits) {
        Some(number) if 1 <= number => Some(number),
        _ => None,
    }
}

/// The number of decimal digits, where it is at most 65,535.
fn number_of(digits: &[u8]) -> Option<u16>
    ensures { result ≡ digits_from 0 digits.now }
{
    let mut number = 0u16;
    let mut left = digits;
    while let [digit, rest @ ..] = left {
        if !digit.is_ascii_digit() {
            return None;
        }
        let longer = 10 * u32::from(number) + u32::from(*digit - b'0');
        if longer > 65_535 {
            return None;
        }
        number = longer as u16;
        left = rest;
    }
    Some(number)
}

/// A path that isn't empty.
fn unix_of(alloc: Global, path: &str) -> Result<Option<Place>, AllocError>
    ensures { IfOk result (λ place. place ≡ unix_of path.now) }
{
    if path.is_empty() {
        return Ok(None);
    }
    Ok(Some(Place::Unix(Text::from_str(alloc, path)?)))
}
