//! Copies and words for a sink that takes no more.
ghost use Rattle.std.specs.Prelude.{⊤};

use pipeline_language::{Expansion, NumberStage, TextStage};
use pipeline_meaning::{NumberSteps, TextSteps};
use spliterator::{NoMemory, Value};
use stages::{Sink, Stage};
use std::test::Fail;

/// It counts the items that come, promises nothing of them, and is full once two have come.
#[derive(Drop)]
struct Two {
    came: usize,
}

impl<T: Value + Drop> Sink<T> for Two {
    ghost takes = { λ _ _ _. ⊤ };

    ghost spoils = { λ _ _. ⊤ };

    ghost takes_none = { λ _. tt };

    ghost spoils_nothing = { λ _. tt };

    ghost takes_both = { λ _ _ _ _ _ _ _. tt };

    ghost spoils_later = { λ _ _ _ _ _ _. tt };

    ghost stays_ready = { λ _ _ _ _ _. tt };

    fn take(&mut self, _x: T) -> Result<(), NoMemory> {
        self.came = self.came.saturating_add(1);
        Ok(())
    }

    // as one that looks at no single item
    fn take_all(&mut self, items: &mut Vec<T>) -> Result<(), NoMemory> {
        self.came = self.came.saturating_add(items.len());
        Ok(())
    }

    fn is_full(&self) -> bool {
        self.came >= 2
    }
}

// Copies of numbers come in rooms of at most 1,024, those of texts one by one.
#[test]
fn no_more_is_fed_once_a_sink_is_full(rt: HostRuntime) -> Result<(), Fail> {
    for (often, most) in [(1_000, 1_000), (3_000, 1_024)] {
        let mut steps = NumberSteps::new(rt.alloc());
        steps.put(&NumberStage::FlatMap(often))?;
        let mut two = Two { came: 0 };
        steps.feed_all(&mut Vec::from_array(rt.alloc(), [7, 8])?, &mut two)?;
        assert!(rt; two.came == most, "{} of {often}", two.came);
    }
    for stage in [
        TextStage::FlatMap(Expansion::Repeat(5)),
        TextStage::FlatMap(Expansion::Words),
    ] {
        let mut steps = TextSteps::new(rt.alloc());
        steps.put(&stage)?;
        let mut two = Two { came: 0 };
        steps.feed("a b c", &mut two)?;
        assert!(rt; two.came == 2, "{}", two.came);
    }
    Ok(())
}
