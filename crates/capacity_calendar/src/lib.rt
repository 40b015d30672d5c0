//! Which bandwidth is booked where and when.
#![tactic(auto)]

pub mod booking;
mod bookings;
mod calendar;
mod capacities;
mod index;
mod lack;
mod load;
mod steps;
mod tables;

pub use booking::{Booking, Capacity, Lack, Place, Slot};
pub use calendar::Calendar;
pub use steps::Steps;
