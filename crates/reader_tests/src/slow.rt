//! A reader that is slow.
use std::io::{self, Error, ErrorKind, Read};

/// It gives three bytes at a time, is interrupted at every other call, and fails at its end, if it is to.
#[derive(Drop)]
pub struct ThreeBytes<'a> {
    rest: &'a [u8],
    is_interrupted: bool,
    fails: bool,
}

impl Read for ThreeBytes<'_> {
    fn read(&mut self, buf: &mut [u8]) -> io::Result<usize> {
        self.is_interrupted = !self.is_interrupted;
        if self.is_interrupted {
            return Err(Error::from(ErrorKind::Interrupted));
        }
        if self.rest.is_empty() && self.fails {
            return Err(Error::from(ErrorKind::BrokenPipe));
        }
        let number = 3.min(buf.len()).min(self.rest.len());
        buf[..number].copy_from_slice(&self.rest[..number]);
        self.rest = &self.rest[number..];
        Ok(number)
    }
}

pub fn slow(bytes: &[u8]) -> ThreeBytes<'_> {
    ThreeBytes {
        rest: bytes,
        is_interrupted: false,
        fails: false,
    }
}

pub fn fails_behind(bytes: &[u8]) -> ThreeBytes<'_> {
    ThreeBytes {
        rest: bytes,
        is_interrupted: false,
        fails: true,
    }
}
