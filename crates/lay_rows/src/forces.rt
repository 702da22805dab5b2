ghost use Rattle.std.specs.Prelude.{◌≡◌, ◌≤◌, ◌^◌};
ghost use Rattle.lay_rows.specs.Badness.{badness_of};

/// Returns the cost of a span with a force: the square of the distance of the force from 256, and
/// four times that below 256. If the span ends with the tune, which is `last`, a force of 256 or
/// more counts as 256 and costs nothing.
pub fn badness(force: u16, last: bool) -> u64
    ensures value { result ≡ badness_of last force }
    ensures small { result ≤ 2 ^ 40 }
{
    let force = u64::from(force);
    if last && 256 <= force {
        return 0;
    }
    if 256 <= force {
        (force - 256) * (force - 256)
    } else {
        4 * ((256 - force) * (256 - force))
    }
}
