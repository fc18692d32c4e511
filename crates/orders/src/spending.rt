//! What customers spent by orders above ten euros.
ghost use Rattle.mohairjade.specs.Words.{int_lt, string_bytes};

use crate::order::{Order, next_batch};
use csv::{Error, Reader};
use indexmap::IndexMap;
use mohairjade::*;
use std::hash::RandomState;
use std::io::Read;
use std::thread::Threads;
use std::time::Clock;

#[derive(Drop)]
struct Customer;

impl<'a> Gives<Order, &'a str> for Customer {
    ghost gives = { λ _ o. string_bytes o.customer };
}

#[derive(Drop)]
struct Cents;

impl Gives<Order, i64> for Cents {
    ghost gives = { λ _ o. o.cents };
}

#[derive(Drop)]
struct Above(i64);

impl Tells<Order> for Above {
    ghost tells = { λ t o. int_lt t.0 o.cents };
}

/// What the orders of each customer come to, where 64 bits have room for it.
pub type Sums = IndexMap<String, Option<i64>, RandomState>;

/// Adds what orders come to. No sum falls, since each order that counts is above zero.
pub fn add<R: Threads + Clock + Sync, H: Gate + Sync>(
    engine: &Engine<'_, R, H>,
    orders: &[Order],
    all: &mut Sums,
) -> Result<(), NoMemory> {
    let alloc = engine.alloc;
    let customer = made_by(Customer, |o: &Row<Order>| -> &str { o.0.customer.as_str() });
    let cents = made_by(Cents, |o: &Row<Order>| -> i64 { o.0.cents });
    let dear = rows(orders).filter(such(Above(1000), |o: &Row<Order>| o.0.cents > 1000));
    let sums = GroupingBy::with_hasher(alloc, customer, summing_checked(cents), *all.hasher());
    for (customer, cents) in dear.collect_on(engine, &sums)? {
        match all.get_mut(customer) {
            Some(sum) => *sum = sum.and_then(|sum| sum.checked_add(cents?)),
            None => {
                let _none = all.insert(String::from_str(alloc, customer)?, cents)?;
            }
        }
    }
    Ok(())
}

/// Adds what all orders that are read come to, batch after batch.
pub fn add_all<R: Threads + Clock + Sync, H: Gate + Sync, I: Read + Drop>(
    engine: &Engine<'_, R, H>,
    mut reader: Reader<I>,
    all: &mut Sums,
) -> Result<(), Error> {
    for _ in 0..u64::MAX {
        let batch = next_batch(engine.alloc, &mut reader)?;
        if batch.is_empty() {
            break;
        }
        add(engine, &batch, all).map_err(|_| Error::out_of_memory())?;
    }
    Ok(())
}
