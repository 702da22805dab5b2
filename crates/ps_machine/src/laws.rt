//! A law of runs.

ghost use Rattle.ps_machine.specs.OneAnswer.{HasOneAnswer};

use ps_tokens::one_token;

/// The law that a run has one result: it paints one list of pages, or it halts at one token for one cause.
pub fn one_answer()
    ensures { HasOneAnswer }
{
    one_token();
}
