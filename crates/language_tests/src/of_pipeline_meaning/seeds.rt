//! Seeds from a random source of the tests' own.
use pipeline_meaning::{Seed, SeededHashes};
use std::hash::{BuildHasher, FoldHasher, Hasher};
use std::io::{self, ErrorKind};
use std::random::RandomSource;
use std::test::Fail;

/// Gives a byte and those that follow it, or no bytes.
#[derive(Drop)]
struct Following(Option<u8>);

impl RandomSource for Following {
    fn fill_bytes(&self, buf: &mut [u8]) -> io::Result<()> {
        let Some(mut byte) = self.0 else {
            return Err(io::Error::from(ErrorKind::Other));
        };
        for place in buf.iter_mut() {
            *place = byte;
            byte = byte.wrapping_add(1);
        }
        Ok(())
    }
}

/// The hash of nothing, from a seed of the source.
fn hash_of_nothing(source: &Following) -> u64 {
    SeededHashes::of(Seed::draw(source)).build_hasher().finish()
}

/// Sixteen bytes, each one more than the one before.
static BYTES: [[u8; 16]; 2] = [
    [7, 8, 9, 10, 11, 12, 13, 14, 15, 16, 17, 18, 19, 20, 21, 22],
    [
        9, 10, 11, 12, 13, 14, 15, 16, 17, 18, 19, 20, 21, 22, 23, 24,
    ],
];

#[test]
fn a_seed_is_the_sixteen_bytes_that_were_drawn(rt: HostRuntime) -> Result<(), Fail> {
    for bytes in &BYTES {
        let mut start = FoldHasher::default();
        start.write(bytes);
        assert!(rt; hash_of_nothing(&Following(Some(bytes[0]))) == start.finish());
    }
    let none = hash_of_nothing(&Following(None));
    assert!(rt; none == hash_of_nothing(&Following(None)));
    Ok(())
}
