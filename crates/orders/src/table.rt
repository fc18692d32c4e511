//! The orders of a table of a SQLite database. Its files are read into memory, and never written.
ghost use Rattle.std.specs.Prelude.{IsTrue, IfOk};
ghost use Rattle.sqlite_disk.specs.Memory.{memory_is_usable};

use crate::order::Order;
use program_frame::{Failure, Host, Task};
use sqlite::{Connection, Error, ErrorCode, FileStore, Options, Row};
use sqlite_disk::{Disk, Memory};
use std::alloc::{AllocError, Global};
use std::fs;
use std::hash::BuildHasher;
use std::io::{ErrorKind, Read};
use std::rt::Files;
use std::time::Clock;

/// The orders of a table, by its rowids.
pub fn orders_of_table<R: Host + Files + Input + Clock>(
    task: &Task<'_, '_, R>,
    table: &str,
) -> Result<Vec<Order>, Failure> {
    let alloc = task.engine.alloc;
    let told = |error| failed(task, table, error);
    let name = table.replace(alloc, "\"", "\"\"")?;
    let query = format!(in alloc; "SELECT customer, cents, rowid FROM \"{name}\"")?;
    let mut database = database_of(task)?;
    let mut rows = database.query(&query, &[]).map_err(told)?;
    let mut orders = Vec::new(alloc);
    for _ in 0..u64::MAX {
        let Some(row) = rows.next().map_err(told)? else {
            break;
        };
        orders.push(order_of(task, row)?)?;
    }
    Ok(orders)
}

/// The order of a row.
fn order_of<R: Host + Files + Input + Clock>(
    task: &Task<'_, '_, R>,
    row: &Row,
) -> Result<Order, Failure> {
    let (what, error) = match (row.get(0), row.get(1)) {
        (Ok(customer), Ok(cents)) => return Ok(Order { customer, cents }),
        (Err(error), _) => ("customer is no text", error),
        (_, Err(error)) => ("cents is no whole number of 64 bits", error),
    };
    if error == NO_MEMORY {
        return Err(Failure::NoMemory(AllocError));
    }
    let id: i64 = row.get(2).unwrap_or(0);
    let what = format!(in task.engine.alloc; "row {id}: {what}")?;
    Err(task.bad_data(&what))
}

/// The database of the file, with what its log holds.
fn database_of<R: Host + Files + Input + Clock>(
    task: &Task<'_, '_, R>,
) -> Result<Connection<FileStore<Memory>>, Failure> {
    let alloc = task.engine.alloc;
    let mut bytes = Vec::new(alloc);
    task.input()?
        .read_to_end(&mut bytes)
        .map_err(|error| task.unread(error))?;
    if beside(task, "-journal")?
        .first()
        .is_some_and(|&byte| byte != 0)
    {
        return Err(task.bad_data(&"a write was cut off: open it with sqlite3 first"));
    }
    let files = sqlite::Files {
        log: disk_of(alloc, &beside(task, "-wal")?)?,
        db: disk_of(alloc, &bytes)?,
    };
    let seed = task.hashes()?.hash_one(&0u8);
    Connection::open_files(alloc, files, Options::new(seed)).map_err(|(error, _)| failed(
        task,
        "sqlite_schema",
        error,
    ))
}

/// The bytes of a file beside the database's; none where it is missing.
fn beside<R: Host + Files + Input + Clock>(
    task: &Task<'_, '_, R>,
    ending: &str,
) -> Result<Vec<u8>, Failure> {
    let alloc = task.engine.alloc;
    let Some(name) = task.file() else {
        return Ok(Vec::new(alloc));
    };
    let name = format!(in alloc; "{name}{ending}")?;
    match fs::read(task.engine.rt, &name) {
        Ok(bytes) => Ok(bytes),
        Err(error) if error.kind() == ErrorKind::NotFound => Ok(Vec::new(alloc)),
        Err(error) => Err(task.unread(error)),
    }
}

/// A disk in memory.
fn disk_of(alloc: Global, bytes: &[u8]) -> Result<Memory, AllocError>
    ensures { IfOk result (λ disk. IsTrue (memory_is_usable disk)) }
{
    let mut disk = Memory::new(alloc);
    match disk.write_at(0, bytes) {
        Ok(()) => Ok(disk),
        Err(_) => Err(AllocError),
    }
}

const NO_MEMORY: Error = Error::SqliteFailure(ErrorCode::OutOfMemory);

/// The failure of a database.
fn failed<R: Host + Files + Input + Clock>(
    task: &Task<'_, '_, R>,
    table: &str,
    error: Error,
) -> Failure {
    if error == NO_MEMORY {
        return Failure::NoMemory(AllocError);
    }
    match format!(in task.engine.alloc; "table {table}: {error}") {
        Ok(what) => task.bad_data(&what),
        Err(refused) => Failure::NoMemory(refused),
    }
}
