use std::marker::Model;

/// Borrowed columns, which contracts see as a list.
#[derive(Drop)]
pub struct BorrowedColumns<'a, C> {
    pub columns: &'a [C],
}

impl<'a, C> Model for BorrowedColumns<'a, C> {
    ghost use Rattle.std.specs.Prelude.{List};
    ghost use Rattle.std.specs.Coded.{coded_list};

    ghost Value = { List C };

    ghost coded = { coded_list C.code };

    ghost view = { λ lent. lent.columns.now };
}
