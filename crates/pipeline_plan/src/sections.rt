//! Counted sources of plans: they absorb limits and skips.

ghost use Rattle.std.specs.Prelude.{◌≡◌};
ghost use Rattle.pipeline_meaning.specs.Stages.{part_list};

use crate::flags::flags_of;
use crate::{Kind, PlanSource, StageOf};
use pipeline_language::{Barrier, ItemCount, Part, Stage};
use sources::Placed;
use spliterator::Spliterator;
use stages::StreamFlags;

/// Items of a source of which any front, and what follows it, is such a source.
#[derive(Clone, Copy)]
pub struct Section<S> {
    pub source: S,
}

/// The source of the part that a limit or a skip leaves.
pub(crate) fn part_of<S: Placed>(source: S, part: Part, number: ItemCount) -> S
    ensures { S.items result ≡ part_list part number.number (S.items source) }
{
    match part {
        Part::Front => source.first(number.get()),
        Part::Rest => source.after_first(number.get()),
    }
}

impl<K, S> PlanSource<K> for Section<S>
where
    K: Kind,
    S: Placed + Spliterator<Item = K::Item> + Copy,
{
    ghost items = { λ section. S.items section.source };

    fn absorbed(&self, stage: &StageOf<K>) -> Option<Section<S>> {
        match *stage {
            Stage::Barrier(Barrier::Counted(part, number)) => {
                let source = part_of(self.source, part, number);
                Some(Section { source })
            }
            _ => None,
        }
    }

    fn flags(&self) -> StreamFlags {
        flags_of(&self.source)
    }
}
