//! An item beside its key, as the best so far.
ghost use Rattle.std.specs.Prelude.{◌≡◌, option_map};
ghost use Rattle.derived_collectors.specs.FirstBest.{is_better, takes_place};

use crate::best::Best;
use spliterator::SortedValue;

/// An item, and its key.
#[derive(Drop)]
pub struct Keyed<T, J> {
    pub item: T,
    pub key: J,
}

/// Whether an item of this key takes the place of the one that is kept, if one is.
pub fn takes_place<T, J: SortedValue>(best: Best, key: &J, kept: &Option<Keyed<T, J>>) -> bool
    ensures { let kept_key = option_map (λ k. J.content k.key) kept.now in
        result ≡ takes_place (is_better best J.order) kept_key (J.content key.now) }
{
    match kept {
        Some(earlier) => best.is_better(key, &earlier.key),
        None => true,
    }
}

/// The item that is kept.
pub fn item_of<T, J: Drop>(kept: Option<Keyed<T, J>>) -> Option<T>
    ensures { result ≡ option_map (λ k. k.item) kept }
{
    match kept {
        Some(best) => Some(best.item),
        None => None,
    }
}
