//! Tight loops over a block of numbers: one for every function, one for every test, and one for copies.
//!
//! A function or a test comes by value: its numbers stay in registers, where through a reference they are read again behind each write.
ghost use Rattle.std.specs.Prelude.{◌≡◌, ◌≤◌, ◌+◌, ◌*◌, OnOk, [], ◌∷◌, cond, filter, flat_map, length, map, pos, take};
ghost use Rattle.std.specs.Int.{int_rem_euclid};
ghost use Rattle.std.proofs.Math.ListN.{replicate};

use crate::small_divisor::{SmallDivisor, all_near, all_near_natural};
use crate::{Divisor, Modulo};
use spliterator::NoMemory;
use stages::{Mapping, Test};

/// Puts each number's image in its place.
fn map_slice<M: Mapping<i64, Out = i64> + Copy>(
    mapping: M,
    items: &mut [i64],
) -> Result<(), NoMemory>
    requires { M.ready mapping }
    ensures { OnOk result (items.new ≡ map (M.image mapping) items.old) }
{
    for x in items.iter_mut() {
        let number = *x;
        *x = mapping.image(&number)?;
    }
    Ok(())
}

/// Puts each number's image in its place.
pub fn map_all<M: Mapping<i64, Out = i64> + Copy>(
    mapping: M,
    items: &mut Vec<i64>,
) -> Result<(), NoMemory>
    requires { M.ready mapping }
    ensures { OnOk result (items.new.items ≡ flat_map (λ x. M.image mapping x ∷ []) items.old.items) }
{
    map_slice(mapping, items.as_mut_slice())?;
    Ok(())
}

/// Puts each number's remainder in its place. Where the divisor is small and the numbers are near, several are taken at a time.
pub fn remainders(divisor: Divisor, items: &mut Vec<i64>) -> Result<(), NoMemory>
    ensures { OnOk result (items.new.items ≡ flat_map (λ x. int_rem_euclid x (pos divisor.number) ∷ []) items.old.items) }
{
    match SmallDivisor::of(divisor) {
        Some(small) if all_near_natural(items.as_slice()) => {
            small.put_natural_remainders(items.as_mut_slice());
            Ok(())
        }
        Some(small) if all_near(items.as_slice()) => {
            small.put_remainders(items.as_mut_slice());
            Ok(())
        }
        _ => map_all(Modulo { divisor }, items),
    }
}

/// Moves the numbers that meet a test to the front, in order, and says how many they are. No number costs a branch.
fn keep_front<P: Test<i64> + Copy>(test: P, items: &mut [i64]) -> usize
    requires { P.ready test }
    ensures within { result ≤ length items.old }
    ensures kept { take result items.new ≡ filter (P.holds test) items.old }
{
    let mut kept = 0;
    for i in 0..items.len() {
        let x = items[i];
        items[kept] = x;
        kept += usize::from(test.holds(&x));
    }
    kept
}

/// Leaves the numbers that meet a test.
pub fn keep_all<P: Test<i64> + Copy>(test: P, items: &mut Vec<i64>)
    requires { P.ready test }
    ensures { items.new.items ≡ flat_map (λ x. cond (P.holds test x) (x ∷ []) []) items.old.items }
{
    let kept = keep_front(test, items.as_mut_slice());
    items.truncate(kept);
}

/// Leaves the numbers that meet a test which mostly tells the same of neighbours: where it does so of a whole block, no number moves.
pub fn keep_runs<P: Test<i64> + Copy>(test: P, items: &mut Vec<i64>)
    requires { P.ready test }
    ensures { items.new.items ≡ flat_map (λ x. cond (P.holds test x) (x ∷ []) []) items.old.items }
{
    let meeting = test.count_meeting(items.as_slice());
    if meeting == 0 {
        items.clear();
    } else if meeting < items.len() {
        keep_all(test, items);
    }
}

/// How many copies are written at once.
const AT_ONCE: usize = 4;

/// Writes so many copies of each number to the front of a room, some at once: more of them may follow, which the next number's overwrite.
fn write_copies(number: usize, items: &[i64], room: &mut [i64])
    requires { number * length items.now + 4 ≤ length room.old }
    ensures { take (number * length items.now) room.new ≡ flat_map (replicate number) items.now }
{
    let mut end = 0;
    for x in items {
        let mut place = end;
        end += number;
        while place < end {
            room[place..place + AT_ONCE].copy_from_slice(&[*x; AT_ONCE]);
            place += AT_ONCE;
        }
    }
}

/// Puts so many copies of each number into a room, in turn.
pub fn copy_each(number: usize, items: &[i64], room: &mut Vec<i64>) -> Result<(), NoMemory>
    ensures { OnOk result (room.new.items ≡ flat_map (replicate number) items.now) }
{
    // (of more copies than can be told, the room is refused)
    let count = number.saturating_mul(items.len());
    room.resize(count.saturating_add(AT_ONCE), 0)?;
    write_copies(number, items, room.as_mut_slice());
    room.truncate(count);
    Ok(())
}
