//! The end of a source.
ghost use Rattle.std.specs.Prelude.{◌≡◌, ◌-◌, drop, length};

use sources::Placed;

/// At most the last so many items.
///
/// ```text
/// take_last(RangeSplit::range(1, 9)?, 3)    // 6, 7, 8
/// ```
pub fn take_last<S: Placed>(source: S, number: u64) -> S
    ensures { S.items result ≡ drop (length (S.items source) - number) (S.items source) }
{
    let before = source.count().saturating_sub(number);
    source.after_first(before)
}
