//! The text of the client's request.
ghost use Rattle.std.specs.Prelude.{◌≡◌, ◌++◌, ◌∷◌, IfOk, OnOk, codes};
ghost use Rattle.sv_http.specs.ReplyText.{line};
ghost use Rattle.sv_http.specs.RequestText.{request_text, credentials};

use crate::reply::put_length;
use base64::engine::general_purpose::STANDARD;
use std::alloc::{AllocError, Global};
use sv_base::Bytes;

/// The text of a call with this body to this host, with an Authorization field where the username isn't empty.
#[tactic(auto, using(crate::proofs::Replies::seven_parts))]
pub fn request(
    alloc: Global,
    body: &[u8],
    host: &str,
    username: &str,
    password: &str,
) -> Result<Bytes, AllocError>
    ensures { IfOk result (λ text. text
        ≡ request_text body.now host.now username.now password.now) }
{
    let mut text = Vec::new(alloc);
    text.extend_from_slice(b"POST /RPC2 HTTP/1.1\r\n")?;
    put_host(&mut text, host)?;
    text.extend_from_slice(b"Content-Type: text/xml\r\n")?;
    put_length(&mut text, body.len() as u64)?;
    put_credentials(alloc, &mut text, username, password)?;
    text.extend_from_slice(b"\r\n")?;
    text.extend_from_slice(body)?;
    Ok(Bytes::from_vec(text))
}

#[tactic(auto, using(crate::proofs::Replies::three_parts))]
fn put_host(text: &mut Vec<u8>, host: &str) -> Result<(), AllocError>
    ensures { OnOk result (text.new.items ≡ text.old.items ++ line (codes "Host: " ++ host.now)) }
{
    text.extend_from_slice(b"Host: ")?;
    text.extend_from_slice(host.as_bytes())?;
    text.extend_from_slice(b"\r\n")?;
    Ok(())
}

fn put_credentials(
    alloc: Global,
    text: &mut Vec<u8>,
    username: &str,
    password: &str,
) -> Result<(), AllocError>
    ensures { OnOk result (text.new.items
        ≡ text.old.items ++ credentials username.now password.now) }
{
    if username.is_empty() {
        return Ok(());
    }
    let pair = pair_of(alloc, username, password)?;
    let encoded = STANDARD.encode(alloc, pair.as_slice())?;
    put_authorization(text, encoded.as_str())
}

/// The username, a colon and the password.
fn pair_of(alloc: Global, username: &str, password: &str) -> Result<Vec<u8>, AllocError>
    ensures { IfOk result (λ pair. pair.items ≡ username.now ++ 58 ∷ password.now) }
{
    let mut pair = Vec::from_slice(alloc, username.as_bytes())?;
    pair.push(b':')?;
    pair.extend_from_slice(password.as_bytes())?;
    Ok(pair)
}

#[tactic(auto, using(crate::proofs::Replies::three_parts))]
fn put_authorization(text: &mut Vec<u8>, encoded: &str) -> Result<(), AllocError>
    ensures { OnOk result (text.new.items ≡ text.old.items
        ++ line (codes "Authorization: Basic " ++ encoded.now)) }
{
    text.extend_from_slice(b"Authorization: Basic ")?;
    text.extend_from_slice(encoded.as_bytes())?;
    text.extend_from_slice(b"\r\n")?;
    Ok(())
}
