//! What an aggregator's own record does once its children have answered.

ghost use Rattle.std.specs.Prelude.{◌≡◌, IfOk, not};
ghost use Rattle.std.specs.List.{find, list_any};
ghost use Rattle.std.specs.Option.{option_copied};
ghost use Rattle.nsi_primitive.specs.declared.kind.Kind.{Kind as KindValue};
ghost use Rattle.connection_record.specs.Replies.{plain};
ghost use Rattle.aggregator_agent.specs.Settling.{is_held, is_lacking, has_error, has_provision_error, is_there, is_quiet, is_waiting, child_exception, fit_or_lack, checked, done_or_mixed, reservation_verdict, reservation_due, done_or_spoiled, provision_verdict, provision_due};

use child_connection::{ChildConnection, Phase};
use connection_record::{ProvisionMove, ReservationMove};
use nsi_base::Name;
use nsi_primitive::{Cause, ErrorName, Exception, Kind, Psm, Rsm};
use std::alloc::AllocError;

/// Whether no child has an unanswered request of the machine that a kind belongs to.
pub fn is_quiet(kind: Kind, children: &[ChildConnection]) -> bool
    ensures { result ≡ is_quiet kind children.now }
{
    !is_any_waiting(kind, children)
}

fn is_any_waiting(kind: Kind, children: &[ChildConnection]) -> bool
    ensures { result ≡ list_any (is_waiting kind) children.now }
{
    children.iter().any(|child| is_waiting(kind, child))
}

fn is_waiting(kind: Kind, child: &ChildConnection) -> bool
    ensures { result ≡ is_waiting kind child.now }
{
    child.open_request(kind).is_some()
}

/// Whether a child still has to end.
pub fn is_any_there(children: &[ChildConnection]) -> bool
    ensures { result ≡ list_any is_there children.now }
{
    children.iter().any(|child| is_there(child))
}

#[tactic(auto, unfolding(child_connection::specs::Views::open_request))]
fn is_there(child: &ChildConnection) -> bool
    ensures { result ≡ is_there child.now }
{
    !child.is_gone() && (child.connection().is_some() || is_waiting(Kind::Reserve, child))
}

#[tactic(auto, unfolding(crate::specs::Settling::is_held))]
fn is_lacking(child: &ChildConnection) -> bool
    ensures { result ≡ is_lacking child.now }
{
    !matches!(child.phase(), Phase::Held)
}

fn first_lacking(children: &[ChildConnection]) -> Option<&ChildConnection>
    ensures { option_copied result ≡ find is_lacking children.now }
{
    children.iter().find(|child| is_lacking(child))
}

fn first_with_error(children: &[ChildConnection]) -> Option<&ChildConnection>
    ensures { option_copied result ≡ find has_error children.now }
{
    children.iter().find(|child| child.error().is_some())
}

fn first_with_provision_error(children: &[ChildConnection]) -> Option<&ChildConnection>
    ensures { option_copied result ≡ find has_provision_error children.now }
{
    children
        .iter()
        .find(|child| child.provision_error().is_some())
}

/// The child and its error are named; where none is known the error is that of a child.
fn child_exception(
    agent: &Name,
    child: &ChildConnection,
    error: Option<ErrorName>,
) -> Result<Exception, AllocError>
    ensures { IfOk result (λ e. e ≡ child_exception agent.now child.now error) }
{
    Ok(Exception {
        nsa: agent.copy()?,
        cause: Cause::Child {
            child: child.child().copy()?,
            error: error.unwrap_or(ErrorName::Child),
        },
    })
}

fn fit_or_lack(
    agent: &Name,
    lacking: Option<&ChildConnection>,
) -> Result<ReservationMove, AllocError>
    ensures { IfOk result (λ event. event ≡ fit_or_lack agent.now (option_copied lacking.entry)) }
{
    match lacking {
        None => Ok(ReservationMove::Fit { deadline: None }),
        Some(child) => Ok(ReservationMove::Lack {
            exception: child_exception(agent, child, child.error())?,
        }),
    }
}

/// Without children there was no path; else all hold, or the first that doesn't is named.
#[tactic(auto, unfolding(crate::specs::Settling::checked))]
fn checked(agent: &Name, children: &[ChildConnection]) -> Result<ReservationMove, AllocError>
    ensures { IfOk result (λ event. event ≡ checked agent.now children.now) }
{
    let [_, ..] = children else {
        return Ok(ReservationMove::Lack {
            exception: Exception {
                nsa: agent.copy()?,
                cause: Cause::Plain(ErrorName::NoPath),
            },
        });
    };
    fit_or_lack(agent, first_lacking(children))
}

/// All have committed, or the first that hasn't is named, and others may have.
fn done_or_mixed(
    agent: &Name,
    failed: Option<&ChildConnection>,
) -> Result<ReservationMove, AllocError>
    ensures { IfOk result (λ event. event ≡ done_or_mixed agent.now (option_copied failed.entry)) }
{
    match failed {
        None => Ok(ReservationMove::Done),
        Some(child) => Ok(ReservationMove::Spoiled {
            exception: child_exception(agent, child, child.error())?,
            mixed: true,
        }),
    }
}

#[tactic(auto, unfolding(crate::specs::Settling::reservation_verdict))]
fn reservation_verdict(
    state: Rsm,
    agent: &Name,
    children: &[ChildConnection],
) -> Result<Option<ReservationMove>, AllocError>
    ensures { IfOk result (λ event. event ≡ reservation_verdict state agent.now children.now) }
{
    match state {
        Rsm::ReserveChecking => Ok(Some(checked(agent, children)?)),
        Rsm::ReserveCommitting => Ok(Some(done_or_mixed(agent, first_with_error(children))?)),
        Rsm::ReserveAborting => Ok(Some(ReservationMove::Freed)),
        _ => Ok(None),
    }
}

/// The move of the reservation machine that is due as the children stand.
#[tactic(auto, unfolding(crate::specs::Settling::reservation_due))]
pub fn reservation_due(
    state: Rsm,
    agent: &Name,
    children: &[ChildConnection],
) -> Result<Option<ReservationMove>, AllocError>
    ensures { let is_quiet = is_quiet KindValue.Reserve children.now in
        IfOk result (λ event. event ≡ reservation_due is_quiet state agent.now children.now) }
{
    if is_quiet(Kind::Reserve, children) {
        reservation_verdict(state, agent, children)
    } else {
        Ok(None)
    }
}

fn done_or_spoiled(
    agent: &Name,
    failed: Option<&ChildConnection>,
) -> Result<ProvisionMove, AllocError>
    ensures { let child = option_copied failed.entry in
        IfOk result (λ event. event ≡ done_or_spoiled agent.now child) }
{
    match failed {
        None => Ok(ProvisionMove::Done),
        Some(child) => Ok(ProvisionMove::Spoiled {
            exception: child_exception(agent, child, child.provision_error())?,
        }),
    }
}

#[tactic(auto, unfolding(crate::specs::Settling::provision_verdict))]
fn provision_verdict(
    state: Psm,
    agent: &Name,
    children: &[ChildConnection],
) -> Result<Option<ProvisionMove>, AllocError>
    ensures { IfOk result (λ event. event ≡ provision_verdict state agent.now children.now) }
{
    match state {
        Psm::Provisioning | Psm::Releasing => {
            let failed = first_with_provision_error(children);
            Ok(Some(done_or_spoiled(agent, failed)?))
        }
        _ => Ok(None),
    }
}

/// The move of the provision machine that is due as the children stand.
#[tactic(auto, unfolding(crate::specs::Settling::provision_due))]
pub fn provision_due(
    state: Psm,
    agent: &Name,
    children: &[ChildConnection],
) -> Result<Option<ProvisionMove>, AllocError>
    ensures { let is_quiet = is_quiet KindValue.Provision children.now in
        IfOk result (λ event. event ≡ provision_due is_quiet state agent.now children.now) }
{
    if is_quiet(Kind::Provision, children) {
        provision_verdict(state, agent, children)
    } else {
        Ok(None)
    }
}
