//! Which requests about a record are refused.

ghost use Rattle.std.specs.Prelude.{◌≡◌, IfSome, false};
ghost use Rattle.nsi_primitive.specs.Printable.{has_further_keys};
ghost use Rattle.connection_record.specs.Demand.{last};
ghost use Rattle.connection_record.specs.Refusal.{has_row, is_in_place, agrees, is_same_direction, direction_agrees, keeps_service, version_refusal, schedule_refusal, modification_refusal, record_refusal};

use crate::record::Record;
use lifecycle_machine::{LsmEvent, step as life};
use nsi_base::{Interval, Name, Second, Version};
use nsi_primitive::{Body, Directionality, ErrorName, Lsm, ReserveRequest, Side};
use provision_machine::{PsmEvent, step as provision};
use reserve_machine::{RsmEvent, step};

/// A schedule that has no second. One without a start starts when it is taken.
pub fn schedule_refusal(request: &ReserveRequest, now: Second) -> Option<ErrorName>
    ensures refusal { result ≡ schedule_refusal now request.now }
    ensures plain { IfSome result (λ error. has_further_keys error ≡ false) }
{
    match Interval::new(request.start_at(now), request.end) {
        Some(_) => None,
        None => Some(ErrorName::Schedule),
    }
}

impl Record {
    /// Why a request about the connection that comes at a second is refused, by the first rule that applies: it has
    /// ended; the request has no place in its state; a modification gives other points or another direction, a schedule
    /// without a second, or a version that isn't larger than the last.
    pub fn refusal(&self, body: &Body, now: Second) -> Option<ErrorName>
        ensures refusal { result ≡ record_refusal now body.now self.now }
        ensures plain { IfSome result (λ error. has_further_keys error ≡ false) }
    {
        if !self.is_live() {
            return Some(ErrorName::Gone);
        }
        if !(self.is_in_place(body) && self.has_row(body)) {
            return Some(ErrorName::InvalidTransition);
        }
        self.modification_refusal(body, now)
    }

    #[tactic(auto, unfolding(crate::specs::Refusal::has_row))]
    fn has_row(&self, body: &Body) -> bool
        ensures { result ≡ has_row body.now self.now }
    {
        match body {
            Body::Reserve(_) => step(self.rsm, RsmEvent::Reserve).is_some(),
            Body::ReserveCommit { .. } => step(self.rsm, RsmEvent::Commit).is_some(),
            Body::ReserveAbort { .. } => step(self.rsm, RsmEvent::Abort).is_some(),
            Body::Provision { .. } => provision(
                Side::Provider,
                self.psm,
                PsmEvent::Provision,
            ).is_some(),
            Body::Release { .. } => provision(
                Side::Provider,
                self.psm,
                PsmEvent::Release,
            ).is_some(),
            Body::Terminate { .. } => life(self.lsm, LsmEvent::Terminate).is_some(),
            _ => true,
        }
    }

    #[tactic(auto, unfolding(crate::specs::Refusal::is_in_place))]
    fn is_in_place(&self, body: &Body) -> bool
        ensures { result ≡ is_in_place body.now self.now }
    {
        let is_created = matches!(self.lsm, Lsm::Created);
        match body {
            Body::Reserve(_) => is_created && !self.mixed,
            Body::ReserveCommit { .. } => is_created,
            Body::Provision { .. } => is_created && self.last().is_some(),
            _ => true,
        }
    }

    #[tactic(auto, unfolding(crate::specs::Refusal::modification_refusal))]
    fn modification_refusal(&self, body: &Body, now: Second) -> Option<ErrorName>
        ensures refusal { result ≡ modification_refusal now body.now self.now }
        ensures plain { IfSome result (λ error. has_further_keys error ≡ false) }
    {
        let Body::Reserve(request) = body else {
            return None;
        };
        if !self.keeps_service(request) {
            return Some(ErrorName::Payload);
        }
        if let Some(error) = schedule_refusal(request, now) {
            return Some(error);
        }
        self.version_refusal(request.version)
    }

    fn keeps_service(&self, request: &ReserveRequest) -> bool
        ensures { result ≡ keeps_service request.now self.now }
    {
        agrees(&request.source, &self.service.source)
            && agrees(&request.dest, &self.service.dest)
            && direction_agrees(request.directionality, self.service.directionality)
    }

    fn version_refusal(&self, given: Option<Version>) -> Option<ErrorName>
        ensures refusal { result ≡ version_refusal given (last self.now.committed) }
        ensures plain { IfSome result (λ error. has_further_keys error ≡ false) }
    {
        let last = self.last()?;
        match given {
            Some(version) if version <= last.version => Some(ErrorName::VersionLow),
            None if last.version.get() >= Version::MAX => Some(ErrorName::Version),
            _ => None,
        }
    }
}

fn agrees(given: &Option<Name>, name: &Name) -> bool
    ensures { result ≡ agrees given.now name.now }
{
    match given {
        None => true,
        Some(given) => given.is(name),
    }
}

fn direction_agrees(given: Option<Directionality>, kept: Directionality) -> bool
    ensures { result ≡ direction_agrees given kept }
{
    match given {
        None => true,
        Some(given) => is_same_direction(given, kept),
    }
}

fn is_same_direction(given: Directionality, kept: Directionality) -> bool
    ensures { result ≡ is_same_direction given kept }
{
    given == kept
}
