//! Which calls of a disk in memory fail, and at which it stops.

ghost use Rattle.std.specs.Prelude.{◌≡◌, ◌≤◌, ◌<◌, ◌+◌, length, is_some, Option};
ghost use Rattle.nsi_disk.specs.Plan.{Turn, planned_image, to_come};

use crate::DiskError;

/// What a stop leaves: what the last sync left, what was written, or that with each byte that was written since the last
/// sync torn: it reads 0xA5.
#[derive(Clone, Copy, Debug, PartialEq, Eq)]
pub enum Image {
    Old,
    New,
    Torn,
}

impl Image {
    ghost use Rattle.nsi_disk.specs.Images.{synced_image};
    ghost use Rattle.std.specs.Prelude.{◌≡◌};

    /// Of a stop at a sync that was carried out: then nothing is torn.
    pub fn of_sync(self) -> Image
        ensures { result ≡ (synced_image self) }
    {
        match self {
            Image::Old => Image::Old,
            Image::New => Image::New,
            Image::Torn => Image::New,
        }
    }
}

/// A stop at the call with this number, counted from 1.
#[derive(Clone, Copy, Debug, PartialEq, Eq)]
pub struct Stop {
    pub call: u64,
    pub image: Image,
}

#[derive(Drop)]
pub struct Plan {
    pub calls: u64,
    pub failing: Vec<u64>,
    pub stops: Vec<Stop>,
    pub faults: u64,
    pub stopped: u64,
    ghost faults_counted: { faults ≤ calls },
    ghost stops_counted: { stopped ≤ calls },
    ghost few_stops: { stopped + to_come calls stops.items ≤ length stops.items },
}

impl Plan {
    ghost use Rattle.nsi_disk.specs.PlanOf.{planned_of};

    /// The next call, of a disk that is stopped where it shows an image: it goes on, stops at its end, fails or is refused.
    pub fn next(&mut self, shown: Option<Image>) -> Result<Option<Image>, DiskError>
        ensures { Turn (planned_of self.old) (planned_of self.new) (is_some shown) result }
    {
        if shown.is_some() {
            return Err(DiskError::Stopped);
        }
        if self.calls == u64::MAX {
            return Ok(None);
        }
        self.calls += 1;
        if self.failing.contains(&self.calls) {
            self.faults += 1;
            return Err(DiskError::Failed);
        }
        let Some(image) = image_at(&self.stops, self.calls) else {
            return Ok(None);
        };
        self.stopped += 1;
        Ok(Some(image))
    }
}

/// The image of the first stop at this call.
fn image_at(stops: &[Stop], call: u64) -> Option<Image>
    ensures { result ≡ planned_image call stops.now }
{
    for stop in stops {
        if stop.call == call {
            return Some(stop.image);
        }
    }
    None
}
