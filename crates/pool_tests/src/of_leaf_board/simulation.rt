// Calls of several seats, told or in random orders, each answer compared with the plain rule.
ghost use Rattle.std.specs.Prelude.{◌≡◌, ℕ, ◌<◌, ◌^◌, length, slice_index, slice_index_or, None, IfOk};
ghost use Rattle.barriers.specs.Needs.{need_of, IsBelow};
ghost use Rattle.leaf_board.specs.Case.{IsLawful};
ghost use Rattle.leaf_board.specs.Knowledge.{IsHeld};
ghost use Rattle.leaf_board.specs.Seats.{SameSeat};
ghost use Rattle.leaf_board.specs.Statuses.{AreSeats};
ghost use Rattle.leaf_board.specs.Hands.{IsOn, number_of};
ghost use Rattle.leaf_board.specs.Boards.{case_of, Holds, AllHold};

use super::plain::{Plain, Setting};
use barriers::Need;
use leaf_board::{Board, BoardSeat, Case, Draw, LeafBoard, LeafPass, Record};
use spliterator::NoMemory;
use std::alloc::{AllocError, Global};
use std::marker::Brand;
use std::mem;
use std::process::Abort;

// Marsaglia's xorshift generator of 64 bits.
#[derive(Drop)]
struct Dice {
    state: u64,
}

impl Dice {
    fn roll(&mut self) -> u64 {
        let mut x = self.state;
        x ^= x << 13;
        x ^= x >> 7;
        x ^= x << 17;
        self.state = x;
        x
    }

    fn below(&mut self, bound: usize) -> usize
        requires { 0 < bound }
        ensures { result < bound }
    {
        within(self.roll() as usize, bound)
    }
}

fn within(number: usize, bound: usize) -> usize
    requires { 0 < bound }
    ensures { result < bound }
{
    number % bound
}

// What a seat does in its turn. With no pass in hand it draws, whatever the act, but for a settle.
#[derive(Clone, Copy)]
enum Act {
    Settle(usize),
    Draw,
    GiveUp,
    Skip,
    // the full count
    Publish,
    // as many as are needed, where the full count is greater
    PublishEnough,
}

// One turn of one seat: which seat, what it does, and where it is told, the leaf in its hand and the board's cut after the turn.
#[derive(Clone, Copy)]
struct Step(usize, Act, Option<(Option<usize>, Option<usize>)>);

// A lawful count of the leaf: the full one, or one that is enough.
fn lawful_count<R: Abort>(rt: &R, setting: &Setting, leaf: usize, act: Act) -> u64
    requires { leaf < setting.now.leaves }
    ensures lawful { IsLawful (need_of setting.now.need) (slice_index setting.now.full.items leaf) result }
    ensures small { result < 2 ^ 63 }
{
    let full = setting.full[leaf];
    assert!(rt; full < 1000);
    match setting.need {
        Need::Reach(need) if need < full && matches!(act, Act::PublishEnough) => need,
        _ => full,
    }
}

fn draw<C: Case, R: Abort>(
    rt: &R,
    board: &Board<C>,
    setting: &Setting,
    plain: &mut Plain,
    seat: &mut BoardSeat<C>,
) -> Option<LeafPass>
    requires { seat.old.board ≡ board.now }
    ensures seat { SameSeat seat.old seat.new }
    ensures hand { Holds C.case.leaves seat.new result }
{
    let expected = plain.draw(setting, seat.number() as usize);
    match board.draw(seat) {
        Draw::Leaf(pass) => {
            assert!(rt; expected == Some(pass.leaf()));
            Some(pass)
        }
        Draw::Drained => {
            assert!(rt; expected.is_none());
            None
        }
    }
}

// Gives the leaf up, skips it if it is cut, or publishes it.
fn spend<C: Case, R: Abort>(
    rt: &R,
    board: &Board<C>,
    setting: &Setting,
    plain: &mut Plain,
    seat: &mut BoardSeat<C>,
    pass: LeafPass,
    act: Act,
) -> Option<LeafPass>
    requires seat { (seat.old.board ≡ board.now) × IsHeld seat.old.knows pass × (pass < C.case.leaves) }
    requires case { C.case ≡ case_of setting.now.leaves setting.now.full.items (need_of setting.now.need) setting.now.seats }
    ensures seat { SameSeat seat.old seat.new }
    ensures hand { Holds C.case.leaves seat.new result }
{
    let leaf = pass.leaf();
    match act {
        Act::Skip => {
            let told = board.skip(seat, pass);
            assert!(rt; told.is_ok() == plain.is_cut(leaf));
            told.err()
        }
        Act::Publish | Act::PublishEnough => {
            let count = lawful_count(rt, setting, leaf, act);
            plain.publish(leaf, count);
            board.publish(seat, pass, count);
            None
        }
        Act::Settle(_) | Act::Draw | Act::GiveUp => {
            board.give_up(seat, pass);
            None
        }
    }
}

// Settles up to a leaf, and then asks of each leaf whether it is cut.
fn settle<C: Case, R: Abort>(
    rt: &R,
    board: &Board<C>,
    setting: &Setting,
    plain: &mut Plain,
    seat: &mut BoardSeat<C>,
    leaf: usize,
)
    requires { (seat.old.board ≡ board.now) × (setting.now.leaves ≡ C.case.leaves) }
    ensures seat { SameSeat seat.old seat.new }
    ensures leaves { seat.new.knows.leaves ≡ seat.old.knows.leaves }
{
    let last = within(leaf, setting.leaves);
    plain.settle(setting, last);
    board.settle(seat, last);
    for leaf in 0..setting.leaves {
        assert!(rt; board.is_cut(seat, leaf) == plain.is_cut(leaf));
    }
}

// One turn of one seat, which has at most one pass in hand.
fn turn<C: Case, R: Abort>(
    rt: &R,
    board: &Board<C>,
    setting: &Setting,
    plain: &mut Plain,
    seat: &mut BoardSeat<C>,
    hand: &mut Option<LeafPass>,
    act: Act,
)
    requires seat { (seat.old.board ≡ board.now) × Holds C.case.leaves seat.old hand.old }
    requires case { C.case ≡ case_of setting.now.leaves setting.now.full.items (need_of setting.now.need) setting.now.seats }
    ensures seat { SameSeat seat.old seat.new }
    ensures hand { Holds C.case.leaves seat.new hand.new }
{
    if let Act::Settle(leaf) = act {
        settle(rt, board, setting, plain, seat, leaf);
        return;
    }
    let next = match hand.take() {
        None => draw(rt, board, setting, plain, seat),
        Some(pass) => spend(rt, board, setting, plain, seat, pass, act),
    };
    // The hand is empty by now, but a pass is never let go.
    if let Some(pass) = mem::replace(hand, next) {
        board.give_up(seat, pass);
    }
}

// The passes that are still in hand are given up.
fn give_up_all<C: Case>(
    board: &Board<C>,
    seats: &mut Vec<BoardSeat<C>>,
    mut hands: Vec<Option<LeafPass>>,
)
    requires seats { AreSeats (IsOn board.now) number_of C.case.seats seats.old.items }
    requires hands { AllHold C.case.leaves seats.old.items hands.items }
    ensures { AreSeats (IsOn board.now) number_of C.case.seats seats.new.items }
{
    while let Some(hand) = hands.pop() {
        if let Some(pass) = hand {
            let at = hands.len();
            board.give_up(&mut seats[at], pass);
        }
    }
    hands.destroy_empty();
}

// Whether the hand and the cut are what was told.
fn agrees(step: &Step, hand: &Option<LeafPass>, plain: &Plain) -> bool {
    match step.2 {
        None => true,
        Some((leaf, cut)) => hand.as_ref().map(|pass| pass.leaf()) == leaf && plain.cut() == cut,
    }
}

fn compare<R: Abort>(rt: &R, setting: &Setting, plain: &Plain, told: &Record)
    requires { told.now.leaves ≡ setting.now.leaves }
{
    assert!(rt; told.cut() == plain.cut());
    for leaf in 0..setting.leaves {
        assert!(rt; told.count(leaf) == plain.count(leaf));
    }
}

fn empty_hands(alloc: Global, seats: usize) -> Result<Vec<Option<LeafPass>>, AllocError>
    ensures { IfOk result (λ v. (length v.items ≡ seats) × ((w : ℕ) → slice_index_or v.items w None ≡ None)) }
{
    let mut hands = Vec::with_capacity(alloc, seats)?;
    for _seat in 0..seats {
        hands.push_reserved(None);
    }
    Ok(hands)
}

// What the plain rule says at the end, as the board does.
fn simulate<C: Case, R: Abort>(
    rt: &R,
    alloc: Global,
    setting: &Setting,
    steps: &[Step],
) -> Result<Plain, NoMemory>
    requires case { C.case ≡ case_of setting.now.leaves setting.now.full.items (need_of setting.now.need) setting.now.seats }
    requires need { IsBelow (need_of setting.now.need) (2 ^ 63) }
{
    let (board, mut seats) = Board::<C>::new(alloc, setting.leaves, setting.need, setting.seats)?;
    let mut plain = Plain::new(alloc, setting.leaves)?;
    let mut hands = empty_hands(alloc, setting.seats)?;
    for step in steps {
        let at = within(step.0, setting.seats);
        turn(
            rt,
            &board,
            setting,
            &mut plain,
            &mut seats[at],
            &mut hands[at],
            step.1,
        );
        assert!(rt; agrees(step, &hands[at], &plain));
    }
    give_up_all(&board, &mut seats, hands);
    compare(rt, setting, &plain, &LeafBoard::close(board, seats));
    Ok(plain)
}

// A setting by the dice: few leaves, seats and counts, so that cuts, empty shares and enough leaves of their own are common.
fn setting(alloc: Global, dice: &mut Dice) -> Result<Setting, AllocError>
    ensures { IfOk result (λ s. IsBelow (need_of s.need) (2 ^ 63)) }
{
    let leaves = 1 + dice.below(12);
    let mut full = vec![in alloc; 0; leaves]?;
    for leaf in 0..leaves {
        full[leaf] = dice.below(5) as u64;
    }
    let need = if dice.below(6) == 0 {
        Need::Never
    } else {
        Need::Reach(dice.below(16) as u64)
    };
    let seats = 1 + dice.below(6);
    Ok(Setting {
        leaves,
        full,
        need,
        seats,
    })
}

// A step by the dice.
fn any_step(dice: &mut Dice, setting: &Setting) -> Step {
    let seat = dice.below(setting.seats);
    let act = match dice.below(20) {
        0..=4 => Act::Settle(dice.below(setting.leaves)),
        5..=7 => Act::GiveUp,
        8..=13 => Act::Skip,
        14..=16 => Act::Publish,
        _ => Act::PublishEnough,
    };
    Step(seat, act, None)
}

#[test]
fn random_orders_answer_as_the_plain_rule(rt: HostRuntime) -> Result<(), NoMemory> {
    let mut dice = Dice {
        state: 88_172_645_463_325_252,
    };
    let mut cuts: u64 = 0;
    for _run in 0..100_000 {
        let setting = setting(rt.alloc(), &mut dice)?;
        let mut steps = Vec::new(rt.alloc());
        for _turn in 0..60 {
            steps.push(any_step(&mut dice, &setting))?;
        }
        let plain = simulate::<Brand, HostRuntime>(&rt, rt.alloc(), &setting, steps.as_slice())?;
        if plain.cut().is_some() {
            cuts = cuts.wrapping_add(1);
        }
    }
    // Both kinds of run are common.
    assert!(rt; cuts > 20_000 && cuts < 90_000);
    Ok(())
}

// A board on which so many items are needed.
fn needing<R: Abort>(
    rt: &R,
    alloc: Global,
    full: &[u64],
    need: u8,
    seats: usize,
) -> Result<Setting, AllocError>
    ensures { IfOk result (λ s. IsBelow (need_of s.need) (2 ^ 63)) }
{
    let leaves = full.len();
    assert!(rt; 0 < leaves && leaves <= 65536 && 0 < seats && seats <= 64);
    let full = full.to_vec(alloc)?;
    Ok(Setting {
        leaves,
        full,
        need: Need::Reach(u64::from(need)),
        seats,
    })
}

// The counts at the end are these.
fn play<R: Abort>(
    rt: &R,
    alloc: Global,
    setting: &Setting,
    steps: &[Step],
    counts: &[Option<u64>],
) -> Result<(), NoMemory>
    requires { IsBelow (need_of setting.now.need) (2 ^ 63) }
{
    let plain = simulate::<Brand, R>(rt, alloc, setting, steps)?;
    for (leaf, count) in counts.iter().enumerate() {
        assert!(rt; plain.count(leaf) == *count);
    }
    Ok(())
}

// The counts of the leaves, how many items are needed, the seats, their steps, and the counts at the end.
type Play<'a> = (&'a [u64], u8, usize, &'a [Step], &'a [Option<u64>]);

// Leaves right of the cut are skipped.
static SKIPPED: Play<'_> = (
    &[2, 1, 5, 0],
    3,
    1,
    &[
        Step(0, Act::Draw, Some((Some(0), None))),
        Step(0, Act::Publish, Some((None, None))),
        Step(0, Act::Settle(0), Some((None, None))),
        Step(0, Act::Draw, Some((Some(1), None))),
        Step(0, Act::Publish, Some((None, None))),
        Step(0, Act::Settle(1), Some((None, Some(1)))),
        Step(0, Act::Draw, Some((Some(2), Some(1)))),
        Step(0, Act::Skip, Some((None, Some(1)))),
        Step(0, Act::Draw, Some((Some(3), Some(1)))),
        Step(0, Act::Skip, Some((None, Some(1)))),
        Step(0, Act::Draw, Some((None, Some(1)))),
        Step(0, Act::Draw, Some((None, Some(1)))),
    ],
    &[Some(2), Some(1), None, None],
);

// A gap is no bar to a cut: one is sought though leaves left of it are not finished.
static PAST_A_GAP: Play<'_> = (
    &[2, 1, 5, 0],
    3,
    4,
    &[
        Step(0, Act::Draw, Some((Some(0), None))),
        Step(1, Act::Draw, Some((Some(1), None))),
        Step(2, Act::Draw, Some((Some(2), None))),
        Step(2, Act::PublishEnough, Some((None, None))),
        Step(2, Act::Settle(2), Some((None, Some(2)))),
        Step(0, Act::Skip, Some((Some(0), Some(2)))),
        Step(0, Act::Publish, Some((None, Some(2)))),
        Step(1, Act::Publish, Some((None, Some(2)))),
        Step(1, Act::Settle(1), Some((None, Some(1)))),
        Step(0, Act::Draw, Some((Some(3), Some(1)))),
        Step(0, Act::Skip, Some((None, Some(1)))),
        Step(0, Act::Draw, Some((None, Some(1)))),
    ],
    &[Some(2), Some(1), Some(3), None],
);

// What was published right of the leaf adds nothing to a settle up to that leaf, whichever seat settles.
static UP_TO_ITS_OWN: Play<'_> = (
    &[2, 1, 5, 0],
    3,
    4,
    &[
        Step(0, Act::Draw, Some((Some(0), None))),
        Step(2, Act::Draw, Some((Some(2), None))),
        Step(2, Act::PublishEnough, Some((None, None))),
        Step(0, Act::Publish, Some((None, None))),
        Step(0, Act::Settle(0), Some((None, None))),
        Step(2, Act::Settle(0), Some((None, None))),
        Step(3, Act::Settle(1), Some((None, None))),
    ],
    &[Some(2), None, Some(3), None],
);

// No items are enough where none are needed.
static NONE_NEEDED: Play<'_> = (
    &[5, 5],
    0,
    1,
    &[
        Step(0, Act::Draw, Some((Some(0), None))),
        Step(0, Act::PublishEnough, Some((None, None))),
        Step(0, Act::Settle(0), Some((None, Some(0)))),
        Step(0, Act::Draw, Some((Some(1), Some(0)))),
        Step(0, Act::Skip, Some((None, Some(0)))),
        Step(0, Act::Draw, Some((None, Some(0)))),
    ],
    &[Some(0), None],
);

// The second seat's settle sees what the first published.
static OF_OTHER_SEATS: Play<'_> = (
    &[1, 1, 1],
    2,
    2,
    &[
        Step(0, Act::Draw, Some((Some(0), None))),
        Step(1, Act::Draw, Some((Some(1), None))),
        Step(0, Act::Publish, Some((None, None))),
        Step(0, Act::Settle(0), Some((None, None))),
        Step(1, Act::Publish, Some((None, None))),
        Step(1, Act::Settle(1), Some((None, Some(1)))),
        // finds no cut of its own, and tells of the other seat's
        Step(0, Act::Settle(0), Some((None, Some(1)))),
        Step(0, Act::Draw, Some((Some(2), Some(1)))),
        Step(0, Act::Skip, Some((None, Some(1)))),
    ],
    &[Some(1), Some(1), None],
);

fn replay<R: Abort>(
    rt: &R,
    alloc: Global,
    &(full, need, seats, steps, counts): &Play<'_>,
) -> Result<(), NoMemory> {
    let setting = needing(rt, alloc, full, need, seats)?;
    play(rt, alloc, &setting, steps, counts)
}

#[test]
fn told_orders_answer_as_told(rt: HostRuntime) -> Result<(), NoMemory> {
    for &play in &[
        &SKIPPED,
        &PAST_A_GAP,
        &UP_TO_ITS_OWN,
        &NONE_NEEDED,
        &OF_OTHER_SEATS,
    ] {
        replay(&rt, rt.alloc(), play)?;
    }
    Ok(())
}
