ghost use Rattle.std.specs.Prelude.{◌≡◌, length};
ghost use Rattle.ps_text.specs.Names.{size_name, way_name};

use mus_units::{Size, Way};

/// Returns the procedure that shows words: `t1` or `t2`.
pub fn size_name_of(size: Size) -> &'static [u8]
    ensures value { result.now ≡ size_name size }
    ensures letters { length result.now ≡ 2 }
{
    match size {
        Size::Small => b"t1",
        Size::Big => b"t2",
    }
}

/// Returns the procedure that fills a beam: `bu`, `bd` or `gb`.
pub fn way_name_of(way: Way) -> &'static [u8]
    ensures value { result.now ≡ way_name way }
    ensures letters { length result.now ≡ 2 }
{
    match way {
        Way::Up => b"bu",
        Way::Down => b"bd",
        Way::Grace => b"gb",
    }
}
