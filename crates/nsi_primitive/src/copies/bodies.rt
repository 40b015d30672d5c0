//! Copies of what messages say.

ghost use Rattle.std.specs.Prelude.{◌≡◌, IfOk, true, false};
ghost use Rattle.nsi_primitive.specs.Messages.{has_rows, is_request};

use crate::copies::rows::{copy_notices, copy_outcomes, copy_recursive_rows, copy_summary_rows};
use crate::message::Body;
use std::alloc::AllocError;

impl Body {
    pub fn copy(&self) -> Result<Body, AllocError>
        ensures { IfOk result (λ b. b ≡ self.now) }
    {
        match *self {
            Body::Reserve(ref request) => Ok(Body::Reserve(request.copy()?)),
            Body::ReserveCommit { connection } => Ok(Body::ReserveCommit { connection }),
            Body::ReserveAbort { connection } => Ok(Body::ReserveAbort { connection }),
            Body::Provision { connection } => Ok(Body::Provision { connection }),
            Body::Release { connection } => Ok(Body::Release { connection }),
            Body::Terminate { connection } => Ok(Body::Terminate { connection }),
            Body::QuerySummary { connection } => Ok(Body::QuerySummary { connection }),
            Body::QueryNotification(range) => Ok(Body::QueryNotification(range)),
            Body::QueryResult(range) => Ok(Body::QueryResult(range)),
            Body::QueryRecursive { connection } => Ok(Body::QueryRecursive { connection }),
            _ => self.copy_answer(),
        }
    }

    /// Of an answer or a notification.
    fn copy_answer(&self) -> Result<Body, AllocError>
        requires { is_request self.now ≡ false }
        ensures { IfOk result (λ b. b ≡ self.now) }
    {
        match *self {
            Body::ReserveResponse { connection } => Ok(Body::ReserveResponse { connection }),
            Body::ReserveConfirmed(ref criteria) => Ok(Body::ReserveConfirmed(criteria.copy()?)),
            Body::ReserveFailed {
                connection,
                ref exception,
            } => Ok(Body::ReserveFailed {
                connection,
                exception: exception.copy()?,
            }),
            Body::ReserveCommitConfirmed { connection } => {
                Ok(Body::ReserveCommitConfirmed { connection })
            }
            Body::ReserveCommitFailed {
                connection,
                ref exception,
            } => Ok(Body::ReserveCommitFailed {
                connection,
                exception: exception.copy()?,
            }),
            Body::ReserveAbortConfirmed { connection } => {
                Ok(Body::ReserveAbortConfirmed { connection })
            }
            Body::ProvisionConfirmed { connection } => Ok(Body::ProvisionConfirmed { connection }),
            Body::ReleaseConfirmed { connection } => Ok(Body::ReleaseConfirmed { connection }),
            Body::TerminateConfirmed { connection } => Ok(Body::TerminateConfirmed { connection }),
            Body::Error {
                connection,
                ref exception,
            } => Ok(Body::Error {
                connection,
                exception: exception.copy()?,
            }),
            Body::ReserveTimeout(ref timeout) => Ok(Body::ReserveTimeout(timeout.copy()?)),
            Body::ErrorEvent(ref notice) => Ok(Body::ErrorEvent(notice.copy()?)),
            Body::DataPlaneStateChange(notice) => Ok(Body::DataPlaneStateChange(notice)),
            Body::MessageDeliveryTimeout(timeout) => Ok(Body::MessageDeliveryTimeout(timeout)),
            _ => self.copy_rows(),
        }
    }

    /// Of an answer with rows.
    fn copy_rows(&self) -> Result<Body, AllocError>
        requires { has_rows self.now ≡ true }
        ensures { IfOk result (λ b. b ≡ self.now) }
    {
        match *self {
            Body::QuerySummaryConfirmed {
                more,
                ref reservations,
            } => Ok(Body::QuerySummaryConfirmed {
                more,
                reservations: copy_summary_rows(reservations)?,
            }),
            Body::QueryNotificationConfirmed {
                connection,
                more,
                ref notifications,
            } => Ok(Body::QueryNotificationConfirmed {
                connection,
                more,
                notifications: copy_notices(notifications)?,
            }),
            Body::QueryResultConfirmed {
                connection,
                more,
                ref results,
            } => Ok(Body::QueryResultConfirmed {
                connection,
                more,
                results: copy_outcomes(results)?,
            }),
            Body::QueryRecursiveConfirmed {
                connection,
                more,
                ref reservations,
            } => Ok(Body::QueryRecursiveConfirmed {
                connection,
                more,
                reservations: copy_recursive_rows(reservations)?,
            }),
            _ => unreachable!(),
        }
    }
}
