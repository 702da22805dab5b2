ghost use Rattle.std.specs.Prelude.{◌≡◌, ◌+◌, ◌-◌, ◌<◌, ◌^◌, ℕ, IfOk, length, slice_index_or, false};
ghost use Rattle.lay_spans.specs.Forced.{is_forced};

use mus_units::{Memory, Row};
use std::alloc::Global;

/// Returns for each bar from 0 to `n` whether it is forced; bar 0 isn't.
pub(crate) fn marks_of(alloc: Global, forced: &[u32], n: usize) -> Result<Row<bool>, Memory>
    requires { n < 2 ^ 32 }
    ensures count { IfOk result (λ marks. length marks ≡ n + 1) }
    ensures each { IfOk result (λ marks. (b : ℕ) → slice_index_or marks b false ≡ is_forced n forced.now b) }
{
    let mut marks = vec![in alloc; false; n + 1]?;
    mark(&mut marks, forced);
    Ok(Row { items: marks })
}

/// Marks the forced bars past 0.
fn mark(marks: &mut [bool], forced: &[u32])
    requires some { 0 < length marks.old }
    requires free { (b : ℕ) → slice_index_or marks.old b false ≡ false }
    ensures { (b : ℕ) → slice_index_or marks.new b false ≡ is_forced (length marks.old - 1) forced.now b }
{
    for bar in forced {
        let bar = *bar as usize;
        if 0 < bar && bar < marks.len() {
            marks[bar] = true;
        }
    }
}
