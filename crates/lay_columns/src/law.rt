ghost use Rattle.lay_columns.specs.Law.{MeasuresJoin};

/// The law of this crate: the columns of a system's marks are those of each of its measures, as
/// `measure_columns` returns them, one after the other. Does nothing.
pub fn measures_join()
    ensures { MeasuresJoin }
{}
