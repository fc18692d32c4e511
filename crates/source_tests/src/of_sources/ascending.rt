//! A list that is sorted.
use super::told::check;
use sources::SortedSplit;
use spliterator::NoMemory;

#[test]
fn a_sorted_list_tells_that_it_ascends(rt: HostRuntime) -> Result<(), NoMemory> {
    let mut numbers = vec![in rt.alloc(); 5, 2, 2]?;
    numbers.sort()?;
    check(
        &rt,
        rt.alloc(),
        SortedSplit::new(&numbers),
        0x4554,
        Some(1),
        &[&2, &2, &5],
    )
}
