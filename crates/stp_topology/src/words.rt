//! Names and numbers of a line.

ghost use Rattle.std.specs.Prelude.{◌≤◌, IfOk, IsTrue};
ghost use Rattle.nsi_base.specs.Bytes.{is_name};
ghost use Rattle.nsi_base.specs.Range.{least_hold, greatest_hold, least_mbps, greatest_mbps};
ghost use Rattle.stp_topology.specs.Faults.{Gives};
ghost use Rattle.stp_topology.specs.Words.{name_form, number_form};

use crate::fault::{LineRefusal, TopologyFault};
use nsi_base::digits::number_of;
use nsi_base::{HoldTime, Mbps, is_name};

pub fn name(word: &[u8]) -> Result<&[u8], LineRefusal>
    ensures form { Gives (λ w. w.now) result (name_form word.now) }
    ensures is_name { IfOk result (λ w. IsTrue (is_name w.now)) }
{
    if is_name(word) {
        Ok(word)
    } else {
        Err(LineRefusal::Fault(TopologyFault::Word))
    }
}

/// A number of the range, in 1 to 20 digits.
pub fn number(low: u64, high: u64, word: &[u8]) -> Result<u64, LineRefusal>
    ensures form { Gives (λ n. n) result (number_form low high word.now) }
    ensures in_range { IfOk result (λ n. (low ≤ n) × (n ≤ high)) }
{
    match number_of(low, high, word) {
        Some(n) => Ok(n),
        None => Err(LineRefusal::Fault(TopologyFault::Word)),
    }
}

/// A hold time in seconds.
pub fn hold(word: &[u8]) -> Result<HoldTime, LineRefusal>
    ensures { Gives (λ n. n) result (number_form least_hold greatest_hold word.now) }
{
    let seconds = number(1, u64::from(HoldTime::MAX), word)?;
    match HoldTime::new(seconds as u32) {
        Some(hold) => Ok(hold),
        None => unreachable!(),
    }
}

pub fn capacity(word: &[u8]) -> Result<Mbps, LineRefusal>
    ensures { Gives (λ n. n) result (number_form least_mbps greatest_mbps word.now) }
{
    let n = number(1, Mbps::MAX, word)?;
    match Mbps::new(n) {
        Some(mbps) => Ok(mbps),
        None => unreachable!(),
    }
}
