//! The order of the reports on a text.
ghost use Rattle.std.specs.Prelude.{◌≡◌, IfOk};
ghost use Rattle.es_lint.specs.Order.{ordered, rank_of, report_cmp};

use es_text::{NoMemory, Report};
use std::cmp::Ordering;

/// 0 where no rule made the report, else one more than its rule's place in the kit.
fn rank_of(report: &Report) -> u64
    ensures { result ≡ rank_of report.now }
{
    match &report.rule {
        None => 0,
        Some(_) => report.order as u64 + 1,
    }
}

/// Which of two reports goes first.
fn compare(a: &Report, b: &Report) -> Ordering
    ensures { result ≡ report_cmp a.now b.now }
{
    let start = a.span.start.cmp(&b.span.start);
    let rank = rank_of(a).cmp(&rank_of(b));
    let end = a.span.end.cmp(&b.span.end);
    let text = a.text.as_str().cmp(b.text.as_str());
    start.then(rank.then(end.then(text)))
}

/// The reports in order. Those that tie keep theirs.
pub fn in_order(mut reports: Vec<Report>) -> Result<Vec<Report>, NoMemory>
    ensures { IfOk result (λ sorted. sorted.items ≡ ordered reports.items) }
{
    reports.sort_by(|a, b| compare(a, b))?;
    Ok(reports)
}
