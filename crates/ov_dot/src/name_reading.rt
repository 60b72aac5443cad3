ghost use Rattle.std.specs.Prelude.{◌≡◌, ◌++◌, false, IfErr, IfOk, OnOk};
ghost use Rattle.ov_dot.specs.Tokens.{lexeme};
ghost use Rattle.ov_dot.specs.Names.{begins_escape, escaped, inside, said_by, text_of, unquoted};
ghost use Rattle.ov_dot.specs.Code.Seen.{IsBadName};

use crate::fault::{DotFault, Why};
use crate::{Kind, Token};
use ov_dump::Name;
use ov_ids::OutOfMemory;
use std::alloc::{AllocError, Global};

/// The name that a token says. UnreadLine is returned, with its line, if it is not in UTF-8, and OutOfMemory if an
/// allocation was refused.
pub(crate) fn read_name(alloc: Global, token: &Token<'_>) -> Result<Name, DotFault>
    ensures name { IfOk result (λ name. name ≡ text_of (lexeme token.now)) }
    ensures fault { IfErr result (λ fault. IsBadName (lexeme token.now) fault) }
{
    let bytes = read_text(alloc, token)?;
    match String::from_utf8(bytes) {
        Ok(text) => Ok(Name::new(text)),
        Err(_) => Err(DotFault::UnreadLine {
            line: token.line,
            why: Why::NotUtf8,
        }),
    }
}

/// The bytes that a name says.
fn read_text(alloc: Global, token: &Token<'_>) -> Result<Vec<u8>, OutOfMemory>
    ensures { IfOk result (λ text. text.items ≡ text_of (lexeme token.now)) }
{
    match token.kind {
        Kind::Quoted => Ok(unquoted(alloc, inside(token.text))?),
        _ => Ok(Vec::from_slice(alloc, token.text)?),
    }
}

/// A text without its first and its last byte.
fn inside(text: &[u8]) -> &[u8]
    ensures { result.now ≡ inside text.now }
{
    if text.len() < 2 {
        return &[];
    }
    &text[1..text.len() - 1]
}

/// What the bytes between two quotes say.
fn unquoted(alloc: Global, inner: &[u8]) -> Result<Vec<u8>, AllocError>
    ensures { IfOk result (λ text. text.items ≡ unquoted false inner.now) }
{
    let mut text = Vec::new(alloc);
    let mut behind_backslash = false;
    for byte in inner {
        push_said(&mut text, behind_backslash, *byte)?;
        behind_backslash = begins_escape(behind_backslash, *byte);
    }
    if behind_backslash {
        text.push(b'\\')?;
    }
    Ok(text)
}

/// Whether a backslash is still to be read behind a byte.
fn begins_escape(behind_backslash: bool, byte: u8) -> bool
    ensures { result ≡ begins_escape behind_backslash byte }
{
    !behind_backslash && byte == b'\\'
}

/// Appends what a byte between two quotes says.
fn push_said(text: &mut Vec<u8>, behind_backslash: bool, byte: u8) -> Result<(), AllocError>
    ensures { OnOk result (text.new.items ≡ text.old.items ++ said_by behind_backslash byte) }
{
    if behind_backslash {
        return push_escaped(text, byte);
    }
    if byte == b'\\' {
        return Ok(());
    }
    text.push(byte)?;
    Ok(())
}

/// Appends what a backslash and the byte behind it say.
fn push_escaped(text: &mut Vec<u8>, byte: u8) -> Result<(), AllocError>
    ensures { OnOk result (text.new.items ≡ text.old.items ++ escaped byte) }
{
    if byte == b'\n' {
        return Ok(());
    }
    if byte == b'"' {
        text.push(b'"')?;
        return Ok(());
    }
    text.push(b'\\')?;
    text.push(byte)?;
    Ok(())
}
