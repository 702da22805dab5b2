//! The painting machine's law about documents, as a call that does nothing.

ghost use Rattle.ps_paint.specs.Laws.{PaintsSheets};

/// The law that a document paints its sheet: with a budget of at least 100 tokens per byte, a run of the document
/// paints what the sheet paints.
pub fn paints_sheets()
    ensures { PaintsSheets }
{}
