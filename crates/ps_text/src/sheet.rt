use crate::marks::PageMark;
use mus_units::{Row, Size, Text};

/// The paper: its width and height in points, its left and bottom margins in u, and its scale in
/// percent, 40 to 150.
#[derive(Clone, Copy, PartialEq, Eq)]
pub struct Frame {
    pub wide: u32,
    pub high: u32,
    pub left: u32,
    pub bottom: u32,
    pub scale: u16,
}

/// A staff: the height of its lowest line, the length of its lines (1 to
/// 2^31), both in u, and its marks in the order in which they are drawn.
#[derive(Drop)]
pub struct Staff {
    pub y: i64,
    pub width: u32,
    pub marks: Row<PageMark>,
}

/// An item of a page.
#[derive(Drop)]
pub enum Item {
    /// Tune `ordinal`, from 1, begins here.
    Tune {
        ordinal: u32,
    },
    /// A row of a title block.
    Title {
        x: i64,
        y: i64,
        size: Size,
        text: Text,
    },
    /// The measures `a` to `b` - 1 on at least one staff.
    System {
        a: u32,
        b: u32,
        staves: Row<Staff>,
    },
}

/// A page, with its items from the top.
#[derive(Drop)]
pub struct Page {
    pub items: Row<Item>,
}

/// A whole document.
#[derive(Drop)]
pub struct Sheet {
    pub frame: Frame,
    pub pages: Row<Page>,
}
