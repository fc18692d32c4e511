//! Items joined in four strands at once: a join of one strand need not wait for that of another.
ghost use Rattle.std.specs.Prelude.{◌≡◌, ◌<◌, ◌++◌, fold, length, map, All, OnOk, IfOk};
ghost use Rattle.spliterator.specs.Clones.{ClonesAlike};
ghost use Rattle.stages.specs.Operators.{IsAssociative};

use crate::reducing::join_into;
use spliterator::{NoMemory, Value};
use stages::Operator;

// What is joined so far in each strand.
#[derive(Drop)]
struct Strands<T> {
    first: T,
    second: T,
    third: T,
    fourth: T,
}

// Joins an item to each strand.
#[inline(always)]
fn join_row<T: Value + Drop, O: Operator<T>>(
    operator: &O,
    strands: &mut Strands<T>,
    a: &T,
    b: &T,
    c: &T,
    d: &T,
) -> Result<(), NoMemory>
    requires { O.ready operator.now }
    ensures first { OnOk result (T.content strands.new.first ≡ O.join operator.now (T.content strands.old.first) (T.content a.now)) }
    ensures second { OnOk result (T.content strands.new.second ≡ O.join operator.now (T.content strands.old.second) (T.content b.now)) }
    ensures third { OnOk result (T.content strands.new.third ≡ O.join operator.now (T.content strands.old.third) (T.content c.now)) }
    ensures fourth { OnOk result (T.content strands.new.fourth ≡ O.join operator.now (T.content strands.old.fourth) (T.content d.now)) }
{
    join_into(operator, &mut strands.first, a)?;
    join_into(operator, &mut strands.second, b)?;
    join_into(operator, &mut strands.third, c)?;
    join_into(operator, &mut strands.fourth, d)
}

// Joins the items of a slice to each strand.
fn join_rows<T: Value + Drop, O: Operator<T>>(
    operator: &O,
    strands: &mut Strands<T>,
    a: &[T],
    b: &[T],
    c: &[T],
    d: &[T],
) -> Result<(), NoMemory>
    requires ready { O.ready operator.now }
    requires b { length b.now ≡ length a.now }
    requires c { length c.now ≡ length a.now }
    requires d { length d.now ≡ length a.now }
    ensures first { OnOk result (T.content strands.new.first ≡ fold (O.join operator.now) (T.content strands.old.first) (map T.content a.now)) }
    ensures second { OnOk result (T.content strands.new.second ≡ fold (O.join operator.now) (T.content strands.old.second) (map T.content b.now)) }
    ensures third { OnOk result (T.content strands.new.third ≡ fold (O.join operator.now) (T.content strands.old.third) (map T.content c.now)) }
    ensures fourth { OnOk result (T.content strands.new.fourth ≡ fold (O.join operator.now) (T.content strands.old.fourth) (map T.content d.now)) }
{
    for i in 0..a.len() {
        join_row(operator, strands, &a[i], &b[i], &c[i], &d[i])?;
    }
    Ok(())
}

/// Says of each item that it is a value.
pub fn are_values<T: Value>(items: &[T])
    ensures { All T.is_value (map T.content items.now) }
{
    for item in items {
        let _value = item.is_value();
    }
}

// The first strand goes on from what was joined before, each other begins with a clone of its first item.
#[inline(always)]
fn begin<T: Value + Clone + Drop, O: Operator<T>>(
    operator: &O,
    joined: &T,
    a: &T,
    b: &T,
    c: &T,
    d: &T,
) -> Result<Strands<T>, NoMemory>
    requires ready { O.ready operator.now }
    requires clones { ClonesAlike T.is_clone T.content }
    ensures first { IfOk result (λ r. T.content r.first ≡ O.join operator.now (T.content joined.now) (T.content a.now)) }
    ensures second { IfOk result (λ r. T.content r.second ≡ T.content b.now) }
    ensures third { IfOk result (λ r. T.content r.third ≡ T.content c.now) }
    ensures fourth { IfOk result (λ r. T.content r.fourth ≡ T.content d.now) }
{
    Ok(Strands {
        first: operator.join(joined, a)?,
        second: b.clone()?,
        third: c.clone()?,
        fourth: d.clone()?,
    })
}

// Joins four slices of one length to what was joined before.
#[inline(always)]
fn join_slices<T: Value + Clone + Drop, O: Operator<T>>(
    operator: &O,
    joined: &mut T,
    a: &[T],
    b: &[T],
    c: &[T],
    d: &[T],
) -> Result<(), NoMemory>
    requires ready { O.ready operator.now }
    requires clones { ClonesAlike T.is_clone T.content }
    requires associative { IsAssociative T.is_value (O.join operator.now) }
    requires b { length b.now ≡ length a.now }
    requires c { length c.now ≡ length a.now }
    requires d { length d.now ≡ length a.now }
    ensures { OnOk result (T.content joined.new ≡ fold (O.join operator.now) (T.content joined.old) (map T.content (a.now ++ b.now ++ c.now ++ d.now))) }
{
    if a.is_empty() {
        return Ok(());
    }
    let _value = joined.is_value();
    are_values(a);
    are_values(b);
    are_values(c);
    are_values(d);
    let mut strands = begin(operator, joined, &a[0], &b[0], &c[0], &d[0])?;
    join_rows(operator, &mut strands, &a[1..], &b[1..], &c[1..], &d[1..])?;
    join_into(operator, &mut strands.first, &strands.second)?;
    join_into(operator, &mut strands.first, &strands.third)?;
    join_into(operator, &mut strands.first, &strands.fourth)?;
    *joined = strands.first;
    Ok(())
}

// Joins a slice's items to what was joined before.
#[inline(always)]
pub(crate) fn join_all<T: Value + Clone + Drop, O: Operator<T>>(
    operator: &O,
    joined: &mut T,
    items: &[T],
) -> Result<(), NoMemory>
    requires ready { O.ready operator.now }
    requires clones { ClonesAlike T.is_clone T.content }
    requires associative { IsAssociative T.is_value (O.join operator.now) }
    ensures { OnOk result (T.content joined.new ≡ fold (O.join operator.now) (T.content joined.old) (map T.content items.now)) }
{
    let quarter = items.len() / 4;
    let (a, rest) = items.split_at(quarter);
    let (b, rest) = rest.split_at(quarter);
    let (c, rest) = rest.split_at(quarter);
    let (d, rest) = rest.split_at(quarter);
    join_slices(operator, joined, a, b, c, d)?;
    for x in rest {
        join_into(operator, joined, x)?;
    }
    Ok(())
}
