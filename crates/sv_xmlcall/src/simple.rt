//! Values with nothing inside them.
ghost use Rattle.std.specs.Prelude.{◌≡◌, ◌++◌, ◌≤◌, ◌<◌, IfOk, OnOk, length};
ghost use Rattle.std.specs.List.{list_all};
ghost use Rattle.sv_xmlcall.specs.Simple.{is_simple, begins_run, simple_run, behind_run};

use std::alloc::AllocError;

/// How many bytes are tested side by side, as long as so many are left, and how many then.
const LARGE: usize = 64;

const SMALL: usize = 16;

/// Whether this byte stands for itself in a text, read or written. The test has no branch, so that many bytes are
/// tested side by side.
fn is_simple(byte: u8) -> bool
    ensures { result ≡ is_simple byte }
{
    (32 <= byte) & (byte < 128) & (byte != b'&') & (byte != b'<') & (byte != b'>')
}

fn are_simple(bytes: &[u8]) -> bool
    ensures { result ≡ list_all is_simple bytes.now }
{
    let mut all = true;
    for byte in bytes {
        all &= is_simple(*byte);
    }
    all
}

/// What is after the blocks of simple bytes, each of this size, with which these begin.
#[inline(always)]
fn behind_blocks(size: usize, bytes: &[u8]) -> &[u8]
    requires { 0 < size }
    ensures value { behind_run result.now ≡ behind_run bytes.now }
    ensures shorter { length result.now ≤ length bytes.now }
{
    let mut rest = bytes;
    while rest.len() >= size {
        let (block, after) = rest.split_at(size);
        if !are_simple(block) {
            break;
        }
        rest = after;
    }
    rest
}

fn begins_run(bytes: &[u8]) -> bool
    ensures { result ≡ begins_run bytes.now }
{
    match bytes {
        [first, ..] => is_simple(*first),
        [] => false,
    }
}

/// What is after the run of simple bytes with which these begin.
#[tactic(auto, using(crate::proofs::SimpleLaws::no_run))]
fn behind_run(bytes: &[u8]) -> &[u8]
    ensures value { result.now ≡ behind_run bytes.now }
    ensures shorter { length result.now ≤ length bytes.now }
{
    // Where other bytes stand one after the other, no block is tested at each of them.
    if !begins_run(bytes) {
        return bytes;
    }
    let mut rest = behind_blocks(SMALL, behind_blocks(LARGE, bytes));
    while let [byte, after @ ..] = rest {
        if !is_simple(*byte) {
            break;
        }
        rest = after;
    }
    rest
}

/// Adds the run of simple bytes with which these begin, and gives what is after it.
#[tactic(auto, using(crate::proofs::SimpleLaws::run_taken))]
pub fn push_run<'a>(out: &mut Vec<u8>, bytes: &'a [u8]) -> Result<&'a [u8], AllocError>
    ensures run { OnOk result (out.new.items ≡ out.old.items ++ simple_run bytes.now) }
    ensures behind { IfOk result (λ rest. rest.now ≡ behind_run bytes.now) }
    ensures shorter { IfOk result (λ rest. length rest.now ≤ length bytes.now) }
{
    let rest = behind_run(bytes);
    out.extend_from_slice(&bytes[..bytes.len() - rest.len()])?;
    Ok(rest)
}
