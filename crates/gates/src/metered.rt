//! A reader that is watched.

use crate::Meter;
use std::io::{self, Read};
use std::time::Clock;

/// A reader, whose bytes a meter is told of, where there is one. Made by [`Meter::reading`].
///
/// ```text
/// let log = Metered { reader: file, meter: None };    // the file as it is
/// ```
#[derive(Drop)]
pub struct Metered<'m, 'a, I, R> {
    pub reader: I,
    pub meter: Option<&'m Meter<'a, R>>,
}

impl<I: Read, R: Clock + Eprint> Read for Metered<'_, '_, I, R> {
    ghost remaining = { λ m. I.remaining m.reader };

    fn read(&mut self, buf: &mut [u8]) -> io::Result<usize> {
        let count = self.reader.read(buf)?;
        if let Some(meter) = self.meter {
            meter.add(count);
        }
        Ok(count)
    }
}
