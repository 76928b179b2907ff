//! What holds of reports.

ghost use Rattle.report_core.specs.Report.{ReportsDiffer};

/// Different facts have different reports, under any two keys.
pub fn reports_told_apart()
    ensures { ReportsDiffer }
{}
