//! A caller's own source.
ghost use Rattle.std.proofs.Common.{sym, true≢false};
ghost use Rattle.std.specs.Prelude.{◌≡◌, ◌<◌, ◌^◌, pos, replicate, length};
ghost use Rattle.spliterator.specs.Spliterator.{IsSplit};

use super::answers::{check, check_items, counted, limited, reduced, same};
use super::rows::second;
use super::{Case, Suite, at, run_test};
use parallel_streams::{Plumbing, Run, Source, Stream, StreamError, of};
use spliterator::{NoMemory, Spliterator};
use stages::WrapAdd;
use std::alloc::Global;
use std::process::Abort;
use std::sync::atomic::{AtomicU64, Ordering};
use std::thread::Threads;
use std::time::Clock;
use stealing_pool::NoGate;

/// The number 7 again and again: a source that never splits, and tells nothing but its order. It lends a block, and counts how often it did.
#[derive(Clone, Copy)]
struct Again<'a> {
    left: u64,
    block: &'a [i64],
    lent: &'a AtomicU64,
    ghost few: { left < 2 ^ 63 },
    ghost alike: { block.now ≡ replicate (length block.now) (pos 7) },
}

impl Spliterator for Again<'_> {
    type Item = i64;

    ghost items = { λ s. replicate s.left (pos 7) };

    ghost weight = { λ s. s.left };

    ghost estimate = { λ s. s.left };

    ghost told = { λ _. 0x10 };

    ghost MayRefuse = { λ _. ⊥ };

    ghost split_gives = { IsSplit (λ s. replicate s.left (pos 7)) (λ s. s.left) (λ s. s.left) (λ _. 0x10) };

    fn try_advance(&mut self) -> Result<Option<i64>, NoMemory> {
        if self.left == 0 {
            return Ok(None);
        }
        self.left -= 1;
        Ok(Some(7))
    }

    fn lent_block(&self, most: usize) -> Option<(&[i64], Self)> {
        self.lent.fetch_add(1, Ordering::SeqCst);
        let number = most.min(self.block.len());
        if number == 0 || number as u64 > self.left {
            return None;
        }
        let (block, _) = self.block.split_at(number);
        let rest = Again {
            left: self.left - number as u64,
            block: self.block,
            lent: self.lent,
        };
        Some((block, rest))
    }

    fn try_split(&mut self) -> Option<Self> {
        None
    }

    fn estimate_size(&self) -> u64 {
        self.left
    }

    fn characteristics(&self) -> u32 {
        0x10
    }

    ghost split_law = { λ s part rest h. h };

    ghost size_law = { λ s. record { exact = λ h. absurd (true≢false (sym h)); at_most = s.few } };

    ghost flag_law = { λ s. record { distinct = λ h. absurd (true≢false (sym h)); sorted = λ h. absurd (true≢false (sym h)) } };
}

/// So many sevens, which are lent 1,024 at a time.
fn sevens(left: u64, lent: &AtomicU64) -> Source<Again<'_>>
    requires { left < 2 ^ 63 }
{
    of(Again {
        left,
        block: &[7; 1024],
        lent,
    })
}

// Three sevens: their number, their sum, the first two, and the second.
fn check_three<
    R: Threads + Clock + Abort + Alloc<A = Global> + Sync,
    X: Stream<Item = i64> + Copy + Drop + Sync,
>(rt: &R, run: &Run<'_, NoGate>, three: X) -> Result<(), StreamError>
    requires { X.ready three }
{
    same(rt, three.known_size(), None);
    let sum = reduced(rt, run, &three, 0, &WrapAdd::new());
    check(rt, counted(rt, run, &three), 3)
        .and(check(rt, sum, 21))
        .and(check_items(rt, limited(rt, run, three, 2), &[7, 7]))
        .and(check_items(rt, second(rt, run, three), &[7]))
}

/// Rows of one setting.
pub fn rows<R: Threads + Clock + Abort + Alloc<A = Global> + Sync>(
    rt: &R,
    run: &Run<'_, NoGate>,
) -> Result<(), StreamError> {
    let lent = AtomicU64::new(0);
    check_three(rt, run, sevens(3, &lent))
}

#[test]
fn a_source_of_the_callers_own(rt: HostRuntime) -> Result<(), StreamError> {
    run_test(&rt, Case::AtEachSetting(Suite::OwnSource))
}

// Of a billion blocks one is lent.
#[test]
fn a_lent_leaf_that_has_enough_ends(rt: HostRuntime) -> Result<(), StreamError> {
    let lent = AtomicU64::new(0);
    let first = limited(&rt, &at((1, 0)), sevens(1 << 40, &lent), 1);
    check_items(&rt, first, &[7]).and(check(&rt, Ok(lent.load(Ordering::SeqCst)), 1))
}
