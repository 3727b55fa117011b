ghost use Rattle.std.specs.Prelude.{◌≡◌, false};
ghost use Rattle.c_job.specs.Ends.{is_wrong, end_of};

use cx_exec::COutcome;
use run_ends::End;

/// How a run of C came out, in the words of both languages: it isn't wrong.
pub(crate) fn end_of(outcome: COutcome) -> End
    ensures end { result ≡ end_of outcome }
    ensures right { is_wrong result ≡ false }
{
    match outcome {
        COutcome::Ended(status) => End::Ended(status),
        COutcome::Undefined { rule, unit, line } => End::Undefined { rule, unit, line },
        COutcome::StepsUsed => End::StepsUsed,
        COutcome::StoreFull { need, left } => End::StoreFull { need, left },
        COutcome::HostRefused(name) => End::CallRefused(name),
        COutcome::HostFault => End::HostFailed,
    }
}
