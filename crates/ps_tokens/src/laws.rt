//! A law of tokens.

ghost use Rattle.ps_tokens.specs.OneToken.{BeginsInOneWay};

/// The law that a text begins with at most one token and that, if it begins with none, there is one cause.
pub fn one_token()
    ensures { BeginsInOneWay }
{}
