//! Reports read back from their texts.
ghost use Rattle.std.specs.Prelude.{◌≡◌, IfOk, IfErr};
ghost use Rattle.sky_units.specs.declared.reports.Report.{Report};
ghost use Rattle.miti_text.specs.ValidReports.{IsValidReport};
ghost use Rattle.track_report.specs.ReportText.{report_text};
ghost use Rattle.track_report.specs.declared.errors.ReportError.TheVariants.{Bad};

use crate::errors::ReportError;
use crate::reading::read_candidate;
use crate::reports::write_report;
use crate::validity::is_valid_report;
use sky_units::Report;
use std::alloc::Global;

/// The valid report of which this is the text; Bad where no valid report has this text.
pub fn read_report(alloc: Global, text: &[u8]) -> Result<Report, ReportError>
    ensures ok { IfOk result (λ report. IsValidReport report × (report_text report ≡ text.now)) }
    ensures bad { IfErr result (λ error. error ≡ Bad → (report : Report) → IsValidReport report →
        ¬ (report_text report ≡ text.now)) }
{
    let Some(report) = read_candidate(alloc, text)? else {
        return Err(ReportError::Bad);
    };
    if !is_valid_report(&report) {
        return Err(ReportError::Bad);
    }
    let written = write_report(alloc, &report)?;
    if written.as_slice() != text {
        return Err(ReportError::Bad);
    }
    Ok(report)
}
