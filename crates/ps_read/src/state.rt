ghost use Rattle.std.specs.Prelude.{◌≡◌, IfOk};
ghost use Rattle.ps_read.specs.ReaderStates.{with_item, with_page, staff_with_mark, system_with_staff, system_ended};

use mus_units::{Memory, Row, Text};
use ps_text::{Frame, Item, Page, PageMark, Sheet, Staff};

/// The line that joins the staves of a system: its two heights.
#[derive(Clone, Copy, PartialEq, Eq)]
pub struct Joined {
    pub top: i64,
    pub foot: i64,
}

/// A page whose items are being read, after whole pages.
#[derive(Drop)]
pub struct OpenPage {
    pub sheet: Sheet,
    pub items: Row<Item>,
}

/// A system whose staves are being read.
#[derive(Drop)]
pub struct OpenSystem {
    pub page: OpenPage,
    pub a: u32,
    pub b: u32,
    pub join: Option<Joined>,
    pub staves: Row<Staff>,
}

/// What the lines so far have said.
#[derive(Drop)]
pub enum ReaderState {
    /// No line yet.
    Begun,
    /// The first line.
    Titled,
    /// The bounding box; `rest` precedes the scale.
    Boxed { wide: u32, high: u32, rest: Text },
    /// The frame; `rest` ends the prolog.
    Framed { frame: Frame, rest: Text },
    /// Whole pages.
    Between(Sheet),
    /// The number of a page.
    Headed(Sheet),
    /// The beginning of a page, a tune or a title.
    Items(OpenPage),
    /// The measures of a system, or the line that joins its staves.
    System(OpenSystem),
    /// The number of a staff.
    Staff(OpenSystem),
    /// The five lines of a staff, or a mark of it.
    Marks { system: OpenSystem, staff: Staff },
    /// All items of a page.
    Closed(OpenPage),
    /// All pages.
    Trailer(Sheet),
    /// The number of pages.
    Counted(Sheet),
    /// The whole document.
    Ended(Sheet),
}

/// Adds an item to the page.
pub fn with_item(mut page: OpenPage, item: Item) -> Result<OpenPage, Memory>
    ensures { IfOk result (λ p. p ≡ with_item page item) }
{
    page.items.push(item)?;
    Ok(page)
}

/// Ends the page.
pub fn with_page(page: OpenPage) -> Result<Sheet, Memory>
    ensures { IfOk result (λ s. s ≡ with_page page) }
{
    let OpenPage { mut sheet, items } = page;
    sheet.pages.push(Page { items })?;
    Ok(sheet)
}

/// Adds a mark to the staff.
pub fn staff_with_mark(mut staff: Staff, mark: PageMark) -> Result<Staff, Memory>
    ensures { IfOk result (λ s. s ≡ staff_with_mark staff mark) }
{
    staff.marks.push(mark)?;
    Ok(staff)
}

/// Ends the staff.
pub fn system_with_staff(mut system: OpenSystem, staff: Staff) -> Result<OpenSystem, Memory>
    ensures { IfOk result (λ o. o ≡ system_with_staff system staff) }
{
    system.staves.push(staff)?;
    Ok(system)
}

/// Ends the staff and its system.
pub fn system_ended(system: OpenSystem, staff: Staff) -> Result<OpenPage, Memory>
    ensures { IfOk result (λ p. p ≡ system_ended system staff) }
{
    let OpenSystem {
        page,
        a,
        b,
        join: _,
        mut staves,
    } = system;
    staves.push(staff)?;
    with_item(page, Item::System { a, b, staves })
}
