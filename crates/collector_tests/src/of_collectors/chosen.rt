//! A collector that is chosen at run time.
use super::cuts::check;
use super::parted::check_groups;
use collectors::{Collector, Counting, SummingLong, ToList};
use either::{Either, Left, Right};
use spliterator::NoMemory;
use std::alloc::Global;
use stream_functions::{Itself, Modulo};

// One of three collectors, by its number.
type Chosen = Either<Counting<i64>, Either<SummingLong<i64, Itself>, ToList<i64>>>;

fn choose(alloc: Global, number: u8) -> Chosen {
    match number {
        0 => Left(Counting::new()),
        1 => Right(Left(SummingLong::new(Itself))),
        _ => Right(Right(ToList::new(alloc))),
    }
}

/// The number of a collector, and lists with the texts of their results.
static CHOSEN: [(u8, &[(&[i64], &str)]); 3] = [
    (0, &[(&[5, 2, 7], "3")]),
    (1, &[(&[5, 2, 7], "14")]),
    (2, &[(&[5, 2, 7], "[5, 2, 7]"), (&[], "[]")]),
];

static GROUPED: [(&[i64], &str); 1] = [(&[5, 2, 7, 4, 5], "{1=17, 0=6}")];

#[test]
fn collects_on_the_chosen_side(rt: HostRuntime) -> Result<(), NoMemory> {
    let alloc = rt.alloc();
    for &(number, rows) in &CHOSEN {
        check(&rt, alloc, choose(alloc, number), rows)?;
    }
    check_groups(&rt, alloc, Modulo::by(2), choose(alloc, 1), &GROUPED)
}

/// What a collector makes of a container that has an item and an empty container taken in.
fn finished<C: Collector<Item = i64>>(
    collector: &C,
    mut container: C::Acc,
) -> Result<C::Out, NoMemory>
    requires { C.ready collector.now }
{
    collector.accumulate(&mut container, &5)?;
    collector.combine(&mut container, collector.supply()?)?;
    collector.finish(container)
}

#[test]
fn a_container_of_the_other_side_takes_nothing_in(rt: HostRuntime) -> Result<(), NoMemory> {
    let alloc = rt.alloc();
    let foreign = choose(alloc, 2).supply()?;
    let result = finished(&choose(alloc, 0), foreign)?;
    assert!(&rt; result.left() == Some(0));
    Ok(())
}
