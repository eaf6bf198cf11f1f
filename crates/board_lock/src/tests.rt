ghost use Rattle.std.specs.Prelude.{◌≡◌, ◌+◌, ◌*◌, ◌^◌, ℕ, ◌<◌, ◌≤◌, ◌∷◌, ◌++◌, [], IfOk, OnOk, Contains};
ghost use mathlib.Core.List.{IsPrefix};

use super::*;
use std::alloc::{AllocError, Global};
use std::sync::Wait;
use std::test::*;
use std::thread::{Threads, join};
use thr_base::Recorded;

// Numbers, each of which is an entry.
#[derive(Drop)]
struct Numbers {
    numbers: Vec<u64>,
}

impl Recorded for Numbers {
    type Entry = u64;

    ghost history = { λ n. n.numbers.items };

    fn recorded(&self) -> u64 {
        self.numbers.len() as u64
    }
}

impl Numbers {
    fn push(&mut self, number: u64) -> Result<(), AllocError>
        ensures ok { OnOk result (self.new.numbers.items ≡ self.old.numbers.items ++ number ∷ []) }
        ensures grown { IsPrefix self.old.numbers.items self.new.numbers.items }
    {
        self.numbers.push(number)?;
        Ok(())
    }
}

// Takes the turn once, for one number.
fn append<R: Wait>(
    rt: &R,
    turn: &Turn<Numbers>,
    seat: Seat<u64>,
    number: u64,
) -> Result<Seat<u64>, AllocError>
    requires { seat.board ≡ turn.now }
    ensures board { IfOk result (λ after. after.board ≡ turn.now) }
    ensures begins { IfOk result (λ after. IsPrefix seat.seen after.seen) }
    ensures has { IfOk result (λ after. Contains after.seen number) }
{
    let mut held = turn.take_turn(rt, seat);
    let pushed = held.value().push(number);
    let seat = turn.give_turn(held);
    pushed?;
    Ok(seat)
}

// Takes a turn for each number from `from` on. The seat has seen them all.
fn append_all<R: Wait>(
    rt: &R,
    turn: &Turn<Numbers>,
    seat: Seat<u64>,
    from: u64,
    count: u64,
) -> Result<Seat<u64>, AllocError>
    requires board { seat.board ≡ turn.now }
    requires few { from + count < 2 ^ 64 }
    ensures board { IfOk result (λ after. after.board ≡ turn.now) }
    ensures has { IfOk result (λ after. (n : ℕ) → from ≤ n → n < from + count → Contains after.seen n) }
{
    let mut seat = seat;
    for number in from..from + count {
        seat = append(rt, turn, seat, number)?;
    }
    Ok(seat)
}

// Two threads take turns, `count` times each.
fn append_by_two<R: Threads + Wait + Sync>(
    rt: &R,
    alloc: Global,
    count: u64,
) -> Result<Vec<u64>, AllocError>
    requires { count < 2 ^ 32 }
    ensures { IfOk result (λ all. (n : ℕ) → n < 2 * count → Contains all.items n) }
{
    let numbers = Numbers {
        numbers: Vec::new(alloc),
    };
    let (turn, seat) = Turn::new(alloc, numbers)?;
    let (one, other) = turn.split(seat);
    let (one, other) = join(
        rt,
        || -> Result<Seat<u64>, AllocError>
            requires { (one.board ≡ turn) × (count < 2 ^ 32) }
            ensures board { IfOk result (λ after. after.board ≡ turn) }
            ensures has { IfOk result (λ after. (n : ℕ) → n < count → Contains after.seen n) }
        { append_all(rt, &turn, one, 0, count) },
        || -> Result<Seat<u64>, AllocError>
            requires { (other.board ≡ turn) × (count < 2 ^ 32) }
            ensures board { IfOk result (λ after. after.board ≡ turn) }
            ensures has { IfOk result (λ after. (n : ℕ) → count ≤ n → n < count + count → Contains after.seen n) }
        { append_all(rt, &turn, other, count, count) },
    );
    let seat = turn.join(one?, other?);
    Ok(turn.close(rt, seat).numbers)
}

#[test]
fn each_call_once(rt: HostRuntime) -> Result<(), Fail> {
    let numbers = Numbers {
        numbers: Vec::new(rt.alloc()),
    };
    let (turn, seat) = Turn::new(rt.alloc(), numbers)?;
    let (one, other) = turn.split(seat);
    let one = append(&rt, &turn, one, 3)?;
    let other = append(&rt, &turn, other, 5)?;
    let one = append(&rt, &turn, one, 7)?;
    let seat = turn.join(one, other);
    let numbers = turn.close(&rt, seat);
    assert_eq!(rt; numbers.numbers.as_slice(), [3, 5, 7].as_slice());
    Ok(())
}

#[test]
fn two_threads_take_turns(rt: HostRuntime) -> Result<(), Fail> {
    let all = append_by_two(&rt, rt.alloc(), 2000)?;
    assert_eq!(rt; all.len(), 4000);
    let (mut one, mut other) = (0u64, 2000u64);
    for number in &all {
        if *number < 2000 {
            assert_eq!(rt; *number, one);
            one = one.wrapping_add(1);
        } else {
            assert_eq!(rt; *number, other);
            other = other.wrapping_add(1);
        }
    }
    Ok(())
}
