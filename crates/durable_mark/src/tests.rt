//! What no clause says: how high the number is.

ghost use Rattle.std.specs.Prelude.{◌≡◌, ◌≤◌};

use crate::{Mark, Seat};
use std::rt::HostRuntime;
use std::test::Fail;
use std::thread::{Threads, join};

/// Raises the mark to five hundred numbers, every other one from this one on, and tells what it sees then.
fn climb(mark: &Mark, seat: Seat, first: u64) -> u64
    requires mark { seat.mark ≡ mark.now }
    requires first { first ≤ 2 }
{
    let mut seat = seat;
    for step in 0..500u64 {
        mark.raise(&mut seat, first + 2 * step);
    }
    mark.seen(&mut seat)
}

/// What two seats see that climb at once, each by the numbers that the other one leaves out.
fn climb_both(rt: &impl Threads, mark: &Mark, odd: Seat, even: Seat) -> (u64, u64)
    requires { (odd.mark ≡ mark.now) × (even.mark ≡ mark.now) }
{
    join(
        rt,
        move || -> u64
            requires { odd.mark ≡ mark.now }
        { climb(mark, odd, 1) },
        move || -> u64
            requires { even.mark ≡ mark.now }
        { climb(mark, even, 2) },
    )
}

#[test]
fn a_third_seat_sees_the_greatest_of_what_two_threads_raised(rt: HostRuntime) -> Result<(), Fail> {
    let (mark, mut seat) = Mark::new(rt.alloc())?;
    let odd = mark.split(&mut seat);
    let even = mark.split(&mut seat);
    assert!(rt; mark.seen(&mut seat) == 0);
    let (first, second) = climb_both(&rt, &mark, odd, even);
    assert!(rt; first == 999 || first == 1000);
    assert!(rt; second == 1000);
    assert!(rt; mark.seen(&mut seat) == 1000);
    Ok(())
}
