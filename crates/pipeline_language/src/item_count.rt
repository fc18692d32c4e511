//! Numbers of items.

ghost use Rattle.std.specs.Prelude.{◌≡◌, ◌≢◌, ◌<◌, ◌≤◌, ◌+◌, ◌*◌, ◌^◌, ℕ, min, IfNone, IfSome};

/// A number of items: below 2^63.
#[derive(Clone, Copy, PartialEq)]
pub struct ItemCount {
    pub number: u64,
    ghost fits: { number < 2 ^ 63 },
}

impl ItemCount {
    /// The number of items, if it is below 2^63.
    ///
    /// `ItemCount::of(3)` has 3 items; of 2^63 there is none.
    pub fn of(number: u64) -> Option<ItemCount>
        ensures number { IfSome result (λ count. count.number ≡ number) }
        ensures none { IfNone result (2 ^ 63 ≤ number) }
    {
        if number < 1 << 63 {
            Some(ItemCount { number })
        } else {
            None
        }
    }

    /// The number.
    pub fn get(self) -> u64
        ensures value { result ≡ self.number }
        ensures fits { result < 2 ^ 63 }
    {
        self.number
    }

    /// The lesser of two.
    pub fn least(self, other: ItemCount) -> ItemCount
        ensures { result.number ≡ min self.number other.number }
    {
        ItemCount {
            number: self.number.min(other.number),
        }
    }

    /// Both together, if they are below 2^63.
    pub fn plus(self, other: ItemCount) -> Option<ItemCount>
        ensures sum { IfSome result (λ sum. sum.number ≡ self.number + other.number) }
        ensures none { IfNone result (2 ^ 63 ≤ self.number + other.number) }
    {
        ItemCount::of(self.number + other.number)
    }

    /// An equal part of them, if there are so many equal parts.
    ///
    /// A third of 6 is 2; of 7 there is none, and there are no parts by 0.
    pub fn part(self, parts: u64) -> Option<ItemCount>
        ensures part { IfSome result (λ part. self.number ≡ parts * part.number) }
        ensures none { IfNone result (1 ≤ parts → (part : ℕ) → self.number ≢ parts * part) }
    {
        if parts == 0 {
            return None;
        }
        if self.number % parts != 0 {
            return None;
        }
        let number = self.number / parts;
        Some(ItemCount { number })
    }
}
