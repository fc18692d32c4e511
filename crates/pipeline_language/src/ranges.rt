//! Ranges of numbers, as a source line names them.

ghost use Rattle.std.specs.Prelude.{◌≡◌, ◌≤◌, ◌^◌, ◌+ℤ◌, ◌-ℤ◌, pos};
ghost use Rattle.pipeline_language.specs.Steps.{steps_up};

/// `range A B`: A, A + 1, .., B - 1, at most 2^62 numbers.
#[derive(Clone, Copy)]
pub struct OpenRange {
    pub start: i64,
    pub end: i64,
    ghost few: { steps_up (end -ℤ start) ≤ 2 ^ 62 },
}

/// `closed A B`: A, A + 1, .., B, at most 2^62 numbers.
#[derive(Clone, Copy)]
pub struct ClosedRange {
    pub start: i64,
    pub last: i64,
    ghost few: { steps_up ((last +ℤ pos 1) -ℤ start) ≤ 2 ^ 62 },
}

impl OpenRange {
    ghost use Rattle.pipeline_language.specs.Content.{Takes, open_origin};
    ghost use Rattle.pipeline_language.specs.Syntax.{Range, is_short};

    /// The range, where it isn't too long.
    pub(crate) fn of(start: i64, end: i64) -> Option<OpenRange>
        ensures { Takes open_origin is_short (Range start end) result }
    {
        if steps_up(start, end) <= MOST_ITEMS {
            Some(OpenRange { start, end })
        } else {
            None
        }
    }
}

impl ClosedRange {
    ghost use Rattle.pipeline_language.specs.Content.{Takes, closed_origin};
    ghost use Rattle.pipeline_language.specs.Syntax.{Closed, is_short};

    /// The range, where it isn't too long.
    pub(crate) fn of(start: i64, last: i64) -> Option<ClosedRange>
        ensures { Takes closed_origin is_short (Closed start last) result }
    {
        if start > last {
            return Some(ClosedRange { start, last });
        }
        if steps_up(start, last) < MOST_ITEMS {
            Some(ClosedRange { start, last })
        } else {
            None
        }
    }
}

/// How many steps of 1 lead from `start` to `end`, none where `end` lies below.
fn steps_up(start: i64, end: i64) -> u64
    ensures { result ≡ steps_up (end -ℤ start) }
{
    if start < end { end.abs_diff(start) } else { 0 }
}

/// The most items of a range.
const MOST_ITEMS: u64 = 1 << 62;
