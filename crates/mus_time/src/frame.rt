ghost use Rattle.mus_score.specs.Limits.{measure_limit};
ghost use Rattle.std.specs.Prelude.{◌≤◌, ◌<◌, length};
ghost use Rattle.{mus_onsets.specs.Ranks.{AreRanked}, mus_time.specs.Frame.{ranked_prop}};

use mus_onsets::ColumnKey;

/// The system of measures `a` to `b` - 1 in which voices are drawn: the keys of its columns, and the lengths of all
/// measures.
#[derive(Drop)]
pub struct SystemFrame<'a> {
    pub keys: &'a [ColumnKey],
    pub lengths: &'a [u64],
    pub a: u32,
    pub b: u32,
    pub ghost ranked: { AreRanked keys.now } by { ranked_prop keys.now },
    pub ghost order: { a < b },
    pub ghost within: { b ≤ length lengths.now },
    pub ghost few: { length lengths.now ≤ measure_limit },
}
