//! What is kept of the leaves is put in its places, and the leaves that the answer needs are picked.
ghost use Rattle.std.specs.Prelude.{◌≡◌, ◌<◌, length, IfOk, OnOk, All, None, replicate, map, false};
ghost use Rattle.stealing_pool.specs.Gathers.{put_in, place_shifts, HoldsLeaves, HasLeaves, IsRow};

use crate::job::LeafJob;
use crate::worker::{Ran, Shift};
use leaf_reading::{Portion, is_enough};
use spliterator::NoMemory;
use std::alloc::Global;

/// Puts what is kept of each leaf in its place.
fn put_all<K: Drop>(places: &mut Vec<Option<Portion<K>>>, ran: Vec<Ran<K>>)
    requires { All (λ r. r.leaf < length places.old.items) ran.items }
    ensures { places.new.items ≡ put_in places.old.items ran.items }
{
    for one in ran {
        let Ran { leaf, portion } = one;
        places[leaf] = Some(portion);
    }
}

/// A place for each leaf, all empty.
fn empty_places<K: Drop>(alloc: Global, n: usize) -> Result<Vec<Option<Portion<K>>>, NoMemory>
    ensures { IfOk result (λ v. v.items ≡ replicate n None) }
{
    let mut places = Vec::with_capacity(alloc, n)?;
    for _at in 0..n {
        places.push(None)?;
    }
    Ok(places)
}

/// Takes the shifts apart: the seats, and what is kept of each leaf in its place.
pub fn sort_shifts<T: Drop, K: Drop>(
    alloc: Global,
    n: usize,
    shifts: Vec<Shift<T, K>>,
) -> Result<(Vec<T>, Vec<Option<Portion<K>>>), NoMemory>
    requires { All (λ s. All (λ r. r.leaf < n) s.ran.items) shifts.items }
    ensures seats { IfOk result (λ r. r.0.items ≡ map (λ s. s.seat) shifts.items) }
    ensures places { IfOk result (λ r. r.1.items ≡ place_shifts (replicate n None) shifts.items) }
    ensures served { OnOk result (All (λ s. s.refused ≡ false) shifts.items) }
{
    let mut seats = Vec::with_capacity(alloc, shifts.len())?;
    let mut places = empty_places(alloc, n)?;
    for shift in shifts {
        let Shift { seat, ran, refused } = shift;
        if refused {
            return Err(NoMemory);
        }
        put_all(&mut places, ran);
        seats.push(seat)?;
    }
    Ok((seats, places))
}

/// What is kept of the first leaves, from left to right, up to the one at which their counts add up to the need. The rest is dropped.
pub fn pick_row<J: LeafJob>(
    alloc: Global,
    job: &J,
    places: Vec<Option<Portion<J::Kept>>>,
) -> Result<Vec<J::Kept>, NoMemory>
    requires ready { J.ready job.now }
    requires all { length places.items ≡ (J.work job.now).leaves }
    requires some { 0 < (J.work job.now).leaves }
    requires holds { HoldsLeaves (J.work job.now) places.items }
    requires has { HasLeaves (J.work job.now) places.items }
    ensures { IfOk result (λ row. IsRow (J.work job.now) row.items) }
{
    let need = job.need();
    let mut row = Vec::with_capacity(alloc, places.len())?;
    let mut total = 0;
    for place in places {
        let Some(portion) = place else { unreachable!() };
        let Portion { count, kept } = portion;
        row.push(kept)?;
        total += count;
        if is_enough(need, total) {
            return Ok(row);
        }
    }
    Ok(row)
}
