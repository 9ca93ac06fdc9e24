//! Two seats in two threads, and one history with the entries of both.
ghost use Rattle.std.specs.Prelude.{◌≡◌, ◌+◌, ◌<◌, length, false, IfSome};
ghost use Rattle.ap_turn.specs.Seats.{IsIdleAt, HasGiven, HasAtLeast};

use super::*;
use std::process::Abort;
use std::snapshot::Snapshot;
use std::sync::Wait;
use std::test::*;
use std::thread;
use std::thread::{Promise, Threads};

const TIMES: u64 = 20_000;

/// Which of two threads gave an entry.
#[derive(Clone, Copy)]
enum Side {
    Left,
    Right,
}

/// How many entries of each side the history has.
#[derive(Drop)]
struct Tally {
    left: u64,
    right: u64,
}

impl Held for Tally {
    type Entry = Side;

    ghost use Rattle.std.specs.Prelude.{◌≡◌, ◌+◌, length};

    ghost stands = { λ t log. t.left + t.right ≡ length log };
}

impl Says<Tally> for Side {
    ghost entry = { λ side _. side };
}

impl Tally {
    /// Counts one more of a side, and answers how many there were.
    fn add(&mut self, side: Side) -> u64
        requires { self.old.left + self.old.right + 1 < 18446744073709551616 }
        ensures { self.new.left + self.new.right ≡ self.old.left + self.old.right + 1 }
    {
        match side {
            Side::Left => {
                self.left += 1;
                self.left - 1
            }
            Side::Right => {
                self.right += 1;
                self.right - 1
            }
        }
    }
}

/// Adds the entries of a side, and answers whether each was counted once and in order.
fn add_all<R: Wait>(
    rt: &R,
    turn: &Turn<Tally>,
    mut seat: Seat<Tally>,
    side: Side,
) -> (Seat<Tally>, bool)
    requires { IsIdleAt turn.now seat }
    ensures { IsIdleAt turn.now result.0 × HasGiven TIMES seat result.0 }
{
    let mut in_order = true;
    for i in 0..TIMES {
        let mut tally = turn.take(rt, &mut seat);
        let before = tally.add(side);
        turn.give(&mut seat, tally, &side);
        in_order = in_order && before == i;
    }
    (seat, in_order)
}

/// The seat that comes back from a thread is the one that went there, and has given all its entries.
#[derive(Drop)]
struct ComesBack<'a> {
    turn: &'a Turn<Tally>,
    seat: Snapshot<Seat<Tally>>,
}

impl<'a> Promise<(Seat<Tally>, bool)> for ComesBack<'a> {
    ghost use Rattle.ap_turn.specs.declared.tests.TheConstants.{TIMES};
    ghost use Rattle.ap_turn.specs.Seats.{IsIdleAt, HasGiven};

    ghost kept_by = { λ p r. IsIdleAt p.turn.now r.0 × HasGiven TIMES p.seat.value r.0 };
}

/// Both seats give their entries, each in a thread of a scope.
fn add_both<R: Threads + Wait + Sync>(
    rt: &R,
    turn: &Turn<Tally>,
    left: Seat<Tally>,
    right: Seat<Tally>,
) -> Option<((Seat<Tally>, bool), (Seat<Tally>, bool))>
    requires { IsIdleAt turn.now left × IsIdleAt turn.now right }
    ensures { IfSome result (λ r. IsIdleAt turn.now r.0.0 × HasGiven TIMES left r.0.0 × IsIdleAt turn.now r.1.0 × HasGiven TIMES right r.1.0) }
{
    thread::scope(
        thread::scope_env(),
        rt,
        |scope| -> Option<((Seat<Tally>, bool), (Seat<Tally>, bool))>
            requires { IsIdleAt turn.now left × IsIdleAt turn.now right }
            ensures { IfSome result (λ r. IsIdleAt turn.entry.now r.0.0 × HasGiven TIMES left r.0.0 × IsIdleAt turn.entry.now r.1.0 × HasGiven TIMES right r.1.0) }
        {
            let promise = ComesBack {
                turn,
                seat: Snapshot::of(&left),
            };
            let one = scope
                .spawn_with(promise, move || add_all(rt, turn, left, Side::Left))
                .ok()?;
            let promise = ComesBack {
                turn,
                seat: Snapshot::of(&right),
            };
            let two = scope
                .spawn_with(promise, move || add_all(rt, turn, right, Side::Right))
                .ok()?;
            Some((one.join(rt), two.join(rt)))
        },
    )
}

/// Both seats give their entries, and one is joined to the other: its history has them all.
#[tactic(auto, using(crate::proofs::Prefixes::entries_grow))]
fn joined<R: Threads + Wait + Sync>(
    rt: &R,
    turn: &Turn<Tally>,
    left: Seat<Tally>,
    right: Seat<Tally>,
) -> Option<(Seat<Tally>, bool)>
    requires { IsIdleAt turn.now left × IsIdleAt turn.now right }
    ensures { IfSome result (λ r. IsIdleAt turn.now r.0 × HasAtLeast TIMES left.number r.0 × HasAtLeast TIMES right.number r.0) }
{
    let ((mut seat, left_in_order), (other, right_in_order)) = add_both(rt, turn, left, right)?;
    turn.join(&mut seat, other);
    Some((seat, left_in_order && right_in_order))
}

#[test]
fn one_history_has_the_entries_of_two_threads(rt: HostRuntime) -> Result<(), Fail> {
    let (turn, mut seat) = Turn::new(rt.alloc(), Tally { left: 0, right: 0 })?;
    let second = turn.split(&mut seat)?;
    let (mut seat, in_order) = joined(&rt, &turn, seat, second).ok_or("two threads start")?;
    let tally = turn.take(&rt, &mut seat);
    assert_eq!(rt; tally.left, TIMES);
    assert_eq!(rt; tally.right, TIMES);
    assert!(rt; in_order);
    Ok(())
}
