use crate::parcel::Parcel;
use spliterator::characteristics::{
    CONCURRENT, DISTINCT, IMMUTABLE, NONNULL, ORDERED, SIZED, SORTED, SUBSIZED,
};
use spliterator::{MAX_ESTIMATE, NoMemory, SortedValue, Text, Value};
use std::alloc::{AllocError, Global};
use std::cmp::Ordering;

#[test]
fn characteristics_have_javas_numbers(rt: HostRuntime) {
    let told = [
        DISTINCT, SORTED, ORDERED, SIZED, NONNULL, IMMUTABLE, CONCURRENT, SUBSIZED,
    ];
    let java = [0x1, 0x4, 0x10, 0x40, 0x100, 0x400, 0x1000, 0x4000];
    assert!(rt; told == java && MAX_ESTIMATE == u64::MAX / 2);
}

/// Whether each member is a value that stands below the next one, and equals itself alone, as the bound tells it.
fn ascends<T: SortedValue>(members: &[T]) -> bool {
    let mut is_ascending = true;
    let mut before: Option<&T> = None;
    for member in members {
        is_ascending = is_ascending && member.is_value() && member == member;
        if let Some(lower) = before {
            is_ascending = is_ascending && lower.cmp(member) == Ordering::Less && lower != member;
        }
        before = Some(member);
    }
    is_ascending
}

fn texts(alloc: Global) -> Result<[String; 4], AllocError> {
    Ok([
        String::new(alloc),
        String::from_str(alloc, "a")?,
        String::from_str(alloc, "aé")?,
        String::from_str(alloc, "é")?,
    ])
}

#[test]
fn values_are_ordered_by_their_contents(rt: HostRuntime) -> Result<(), AllocError> {
    assert!(rt; ascends(&[i64::MIN, -1, 0, i64::MAX]) && !ascends(&[1, 1]));
    assert!(rt; ascends(&["", "a", "ab", "z", "é"]) && !ascends(&["é", "z"]));
    assert!(rt; ascends(&texts(rt.alloc())?));
    Ok(())
}

#[test]
fn lists_of_numbers_are_ordered_by_their_contents(rt: HostRuntime) -> Result<(), AllocError> {
    let alloc = rt.alloc();
    let first = Vec::from_array(alloc, [-1])?;
    let second = Vec::from_array(alloc, [-1, 0])?;
    let third = Vec::from_array(alloc, [0])?;
    assert!(rt; ascends(&[Vec::new(alloc), first, second, third]));
    Ok(())
}

#[test]
fn lists_of_texts_are_ordered_by_their_contents(rt: HostRuntime) -> Result<(), AllocError> {
    let alloc = rt.alloc();
    let [empty, short, long, last] = texts(alloc)?;
    let first = Vec::from_array(alloc, [empty])?;
    let second = Vec::from_array(alloc, [short])?;
    let third = Vec::from_array(alloc, [long, last])?;
    assert!(rt; ascends(&[Vec::new(alloc), first, second, third]));
    Ok(())
}

/// Whether tuples of four parts and more are ordered by the first part that differs.
fn longer_tuples_ascend() -> bool {
    let fours = [("", 0, 0, 1), ("", 0, 1, 0), ("", 1, 0, 0), ("a", 0, 0, 0)];
    let fives = [("", 0, 0, 0, 1), ("", 0, 0, 1, 0), ("a", 0, 0, 0, 0)];
    let sixes = [
        ("", 0, 0, 0, 0, 1),
        ("", 0, 0, 0, 1, 0),
        ("a", 0, 0, 0, 0, 0),
    ];
    let sevens = [
        ("", 0, 0, 0, 0, 0, 1),
        ("", 0, 0, 0, 0, 1, 0),
        ("a", 0, 0, 0, 0, 0, 0),
    ];
    let eights = [
        ("", 0, 0, 0, 0, 0, 0, 1),
        ("", 0, 0, 0, 0, 0, 1, 0),
        ("", 1, 0, 0, 0, 0, 0, 0),
        ("a", 0, 0, 0, 0, 0, 0, 0),
    ];
    let some = ascends(&fours) && ascends(&fives) && ascends(&sixes);
    some && ascends(&sevens) && ascends(&eights)
}

/// Each part by its own type's order, the first that differs.
#[test]
fn tuples_are_ordered_part_by_part(rt: HostRuntime) {
    let unsigned = [
        (0u8, 0u16, 0u32),
        (0, 0, u32::MAX),
        (0, u16::MAX, 0),
        (u8::MAX, 0, 0),
    ];
    let signed = [
        (i8::MIN, 9i16, 0i32),
        (-1, i16::MIN, 0),
        (-1, -1, i32::MIN),
        (-1, -1, -1),
        (0, -1, -1),
    ];
    let long = [
        (0u64, 9usize, 'z'),
        (u64::MAX, 0, 'z'),
        (u64::MAX, usize::MAX, 'a'),
        (u64::MAX, usize::MAX, '😀'),
    ];
    let optional = [
        (false, None),
        (false, Some("")),
        (false, Some("a")),
        (true, None),
    ];
    assert!(rt; ascends(&unsigned) && ascends(&signed) && ascends(&long));
    assert!(rt; longer_tuples_ascend());
    assert!(rt; ascends(&optional) && !ascends(&[(true, None), (false, Some(""))]));
}

/// Parcels of these senders, weights and places.
fn parcels(alloc: Global, rows: &[(&str, i64, i64)]) -> Result<Vec<Parcel>, AllocError> {
    let mut parcels = Vec::new(alloc);
    for &(sender, grams, place) in rows {
        let sender = String::from_str(alloc, sender)?;
        parcels.push(Parcel {
            sender,
            grams,
            place,
        })?;
    }
    Ok(parcels)
}

#[test]
fn records_are_ordered_field_by_field(rt: HostRuntime) -> Result<(), AllocError> {
    let rows = [
        ("ann", 2, 9),
        ("bob", -1, 5),
        ("bob", 3, i64::MIN),
        ("bob", 3, 0),
    ];
    let parcels = parcels(rt.alloc(), &rows)?;
    assert!(rt; ascends(parcels.as_slice()));
    Ok(())
}

/// The number of bytes of a text.
fn length_in_bytes<T: Text>(text: &T) -> usize {
    text.text().len()
}

#[test]
fn texts_are_their_bytes(rt: HostRuntime) -> Result<(), AllocError> {
    let text = String::from_str(rt.alloc(), "aé\n")?;
    let empty = length_in_bytes(&String::new(rt.alloc()));
    assert!(rt; [length_in_bytes(&"aé\n"), length_in_bytes(&text), empty] == [4, 4, 0]);
    Ok(())
}

#[test]
fn a_want_of_memory_is_told(rt: HostRuntime) -> Result<(), AllocError> {
    let text = format!(in rt.alloc(); "{}", NoMemory::from(AllocError))?;
    assert!(rt; text.as_str() == "out of memory");
    Ok(())
}
