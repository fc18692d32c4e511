//! The orders of a CSV text.
use csv::{Error, ErrorKind, Reader};
use program_frame::{Failure, Host, Task};
use serde::Deserialize;
use std::alloc::{AllocError, Global};
use std::io::Read;
use std::rt::Files;
use std::time::Clock;

/// An order: who ordered, and for how much.
#[derive(Deserialize, Drop)]
pub struct Order {
    pub customer: String,
    pub cents: i64,
}

/// How many orders a batch has.
const BATCH: usize = 1 << 17;

/// The next batch of orders, of which only the last has fewer.
pub fn next_batch<I: Read + Drop>(
    alloc: Global,
    reader: &mut Reader<I>,
) -> Result<Vec<Order>, Error> {
    let mut batch = Vec::new(alloc);
    for order in reader.deserialize().take(BATCH) {
        batch.push(order?).map_err(|_| Error::out_of_memory())?;
    }
    Ok(batch)
}

/// The failure of a text.
pub fn no_text<R: Host + Files + Input + Clock>(task: &Task<'_, '_, R>, error: Error) -> Failure {
    let what = format!(in task.engine.alloc; "{error}");
    match (error.into_kind(), what) {
        (ErrorKind::Io(error), _) => task.unread(error),
        (ErrorKind::OutOfMemory, _) | (_, Err(_)) => Failure::NoMemory(AllocError),
        (_, Ok(what)) => task.bad_data(&what),
    }
}
