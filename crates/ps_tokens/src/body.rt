//! Procedures and whole tokens.

ghost use Rattle.std.specs.Prelude.{◌≡◌, ◌≤◌, length, false, IfOk};
ghost use Rattle.{ps_steps.specs.Tokens.{begins, is_skipped}, ps_tokens.specs.Reading.{IsBodyRead, IsTokenRead}};

use crate::front::{TokenStart, front};
use crate::scan::skip;
use mus_units::{Memory, Row};
use ps_steps::{Cause, MachineToken, SimpleToken};
use std::alloc::Global;

/// The tokens of a procedure and the rest after its end, or why there is no procedure.
#[derive(Drop)]
pub enum BodyRead<'a> {
    Whole(Row<SimpleToken>, &'a [u8]),
    Not(Cause),
}

/// A token and the rest after it, or why there is no token.
#[derive(Drop)]
pub enum TokenRead<'a> {
    Found(MachineToken, &'a [u8]),
    Not(Cause),
}

/// Reads the procedure whose `{` precedes these bytes.
pub fn body(alloc: Global, bytes: &[u8]) -> Result<BodyRead<'_>, Memory>
    ensures { IfOk result (IsBodyRead bytes.now) }
{
    let mut tokens = Row::new(alloc);
    let mut rest = bytes;
    loop {
        let here = skip(rest);
        if here.is_empty() {
            return Ok(BodyRead::Not(Cause::Unclosed));
        }
        match front(alloc, here)? {
            TokenStart::Found(t, after) => {
                tokens.push(t)?;
                rest = after;
            }
            TokenStart::Closing(after) => return Ok(BodyRead::Whole(tokens, after)),
            TokenStart::Opening(_) => return Ok(BodyRead::Not(Cause::BadToken)),
            TokenStart::Unread(cause) => return Ok(BodyRead::Not(cause)),
        }
    }
}

/// Reads the token at the start of bytes that don't begin with a blank or a comment.
pub fn token(alloc: Global, bytes: &[u8]) -> Result<TokenRead<'_>, Memory>
    requires some { 1 ≤ length bytes.now }
    requires starts { begins is_skipped bytes.now ≡ false }
    ensures { IfOk result (IsTokenRead bytes.now) }
{
    match front(alloc, bytes)? {
        TokenStart::Found(t, after) => Ok(TokenRead::Found(MachineToken::Simple(t), after)),
        TokenStart::Closing(_) => Ok(TokenRead::Not(Cause::Unclosed)),
        TokenStart::Unread(cause) => Ok(TokenRead::Not(cause)),
        TokenStart::Opening(after) => match body(alloc, after)? {
            BodyRead::Whole(tokens, following) => {
                Ok(TokenRead::Found(MachineToken::Procedure(tokens), following))
            }
            BodyRead::Not(cause) => Ok(TokenRead::Not(cause)),
        },
    }
}
