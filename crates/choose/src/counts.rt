//! How many nodes are rejected for which reason.
ghost use Rattle.std.specs.Prelude.{◌≡◌, count_by};
ghost use Rattle.choose.specs.Choice.{is_for};
ghost use Rattle.choose.specs.Verdict.{reason_of};
ghost use Rattle.choose.specs.inside.Finding.{counts_in};

use crate::decision::{Counts, Reason, Verdict};
use rules::Rejection;

/// How many of the verdicts reject for each reason.
pub fn counts(verdicts: &[Verdict]) -> Counts
    ensures { result ≡ counts_in verdicts.now }
{
    Counts {
        marked: count_for(verdicts, Reason::Marked),
        taint: count_for(verdicts, Reason::Taint),
        cpu: count_for(verdicts, Reason::Cpu),
        memory: count_for(verdicts, Reason::Memory),
        pods: count_for(verdicts, Reason::Pods),
        plugin: count_for(verdicts, Reason::Plugin),
        plugin_final: count_for(verdicts, Reason::Final),
    }
}

// How many of the verdicts reject for this reason.
fn count_for(verdicts: &[Verdict], reason: Reason) -> usize
    ensures { result ≡ count_by (is_for reason) verdicts.now }
{
    verdicts
        .iter()
        .filter(|verdict| is_for(**verdict, reason))
        .count()
}

// Why a rule's filter rejects.
fn reason_of(how: Rejection) -> Reason
    ensures { result ≡ reason_of how }
{
    match how {
        Rejection::Unschedulable => Reason::Plugin,
        Rejection::UnschedulableAndUnresolvable => Reason::Final,
    }
}

// Whether a verdict rejects for this reason.
fn is_for(verdict: Verdict, reason: Reason) -> bool
    ensures { result ≡ is_for reason verdict }
{
    match verdict {
        Verdict::Rejected(own) => own == reason,
        Verdict::RejectedBy(_, how) => reason_of(how) == reason,
        _ => false,
    }
}
