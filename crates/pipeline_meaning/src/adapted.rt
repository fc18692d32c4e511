//! A collector over some of the items, or over their images, as is chosen at run time.
ghost use Rattle.std.specs.Prelude.{◌≡◌};
ghost use Rattle.pipeline_meaning.specs.Adapting.{AdaptedReady, adapted_items, adapted_add, adapted_laws};

use collectors::Collector;
use spliterator::NoMemory;
use stages::{Mapping, Test};
use value_text::{Summarizes, Written};

/// What comes before another collector.
#[derive(Drop)]
pub enum Adapting<F, P> {
    Nothing,
    Mapping(F),
    Filtering(P),
}

/// A collector over the items as they are, over their images, or over those that pass, and with the containers of the one behind it.
#[derive(Drop)]
pub struct Adapted<F, P, D> {
    step: Adapting<F, P>,
    downstream: D,
}

impl<F, P, D> Adapted<F, P, D> {
    pub fn new(step: Adapting<F, P>, downstream: D) -> Adapted<F, P, D>
        ensures step { result.step ≡ step }
        ensures downstream { result.downstream ≡ downstream }
    {
        Adapted { step, downstream }
    }
}

impl<D: Collector, F: Mapping<D::Item, Out = D::Item>, P: Test<D::Item>> Collector
    for Adapted<F, P, D>
where
    D::Item: Drop,
{
    type Item = D::Item;

    type Acc = D::Acc;

    type Out = D::Out;

    ghost ready = { λ c. AdaptedReady F.ready P.ready c.step × D.ready c.downstream };

    ghost Content = { D.Content };

    ghost content = { λ c. D.content c.downstream };

    ghost empty = { λ c. D.empty c.downstream };

    ghost add = { λ c. adapted_add F.image P.holds (D.empty c.downstream) (D.add c.downstream) c.step };

    ghost merge = { λ c. D.merge c.downstream };

    ghost gives = { λ c l. D.gives c.downstream (adapted_items F.image P.holds c.step l) };

    ghost laws = { λ c. adapted_laws F.image P.holds (D.empty c.downstream) (D.add c.downstream) D.Item.is_value F.images_are_values (D.merge c.downstream) (D.laws c.downstream) c.step };

    fn supply(&self) -> Result<D::Acc, NoMemory> {
        self.downstream.supply()
    }

    #[inline(always)]
    fn accumulate(&self, acc: &mut D::Acc, x: &D::Item) -> Result<(), NoMemory> {
        match &self.step {
            Adapting::Nothing => self.downstream.accumulate(acc, x),
            Adapting::Mapping(mapping) => {
                let image = mapping.image(x)?;
                self.downstream.accumulate(acc, &image)
            }
            Adapting::Filtering(test) => {
                if test.holds(x) {
                    self.downstream.accumulate(acc, x)
                } else {
                    Ok(())
                }
            }
        }
    }

    fn accumulate_all(&self, acc: &mut D::Acc, items: &[D::Item]) -> Result<(), NoMemory> {
        if let Adapting::Nothing = self.step {
            return self.downstream.accumulate_all(acc, items);
        }
        for item in items {
            self.accumulate(acc, item)?;
        }
        Ok(())
    }

    fn combine(&self, left: &mut D::Acc, right: D::Acc) -> Result<(), NoMemory> {
        self.downstream.combine(left, right)
    }

    fn finish(&self, acc: D::Acc) -> Result<D::Out, NoMemory> {
        self.downstream.finish(acc)
    }

    fn is_light(&self, acc: &D::Acc) -> bool {
        self.downstream.is_light(acc)
    }
}

impl<D: Summarizes, F: Mapping<D::Item, Out = D::Item>, P: Test<D::Item>> Summarizes
    for Adapted<F, P, D>
where
    D::Item: Drop,
    D::Out: Written,
{
    ghost summary = { λ c l. D.summary c.downstream (adapted_items F.image P.holds c.step l) };

    ghost tells = { λ c l. D.tells c.downstream (adapted_items F.image P.holds c.step l) };
}
