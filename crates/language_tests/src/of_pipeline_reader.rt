//! Files and what is read or told of them, in both versions of the language.

mod faults;
mod numbers;
mod texts;
mod version_two;

use file_words::ReadError;
use pipeline_reader::read_pipeline;
use std::alloc::{AllocError, Global};

/// `read`, or the fault's line as the program tells it.
fn told(alloc: Global, file: &[u8]) -> Result<String, AllocError> {
    match read_pipeline(alloc, file) {
        Ok(_) => format!(in alloc; "read"),
        Err(ReadError::Fault(fault)) => format!(in alloc; "{fault}"),
        Err(ReadError::NoMemory) => Err(AllocError),
    }
}

/// The first of the rows, each of the lines behind the first one and of what is told behind `-> `, that is told otherwise.
fn first_wrong<'a>(
    alloc: Global,
    first_line: &[u8],
    rows: &[&'a str],
) -> Result<Option<&'a str>, AllocError> {
    for row in rows {
        let (lines, wanted) = row.split_once("-> ").unwrap_or((*row, ""));
        let mut file = Vec::new(alloc);
        file.extend_from_slice(first_line)?;
        file.extend_from_slice(lines.as_bytes())?;
        if told(alloc, file.as_slice())?.as_str() != wanted {
            return Ok(Some(*row));
        }
    }
    Ok(None)
}
