ghost use Rattle.std.specs.Prelude.{◌≡◌, false};
ghost use Rattle.rust_job.specs.Ends.{is_undefined, end_of};

use rs_exec::ROutcome;
use run_ends::End;

/// How a run of a crate came out, in the words of both languages: it isn't undefined.
pub(crate) fn end_of(outcome: ROutcome) -> End
    ensures end { result ≡ end_of outcome }
    ensures right { is_undefined result ≡ false }
{
    match outcome {
        ROutcome::Ended(status) => End::Ended(status),
        ROutcome::Wrong(cause) => End::Wrong(cause),
        ROutcome::StepsUsed => End::StepsUsed,
        ROutcome::StoreFull { need, left } => End::StoreFull { need, left },
        ROutcome::HostRefused(name) => End::CallRefused(name),
        ROutcome::HostFault => End::HostFailed,
    }
}
