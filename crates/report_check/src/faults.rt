ghost use Rattle.std.specs.Prelude.{◌≡◌};
ghost use Rattle.report_check.specs.Faults.{report_kind_number};
ghost use Rattle.report_check.specs.declared.faults.ReportError.TheVariants.{NoMemory as NoMemoryLeft};

use meta_base::NoMemory;
use sig_text::LitFault;
use thiserror::Error;

/// What is wrong with a line of a report: the first rule that it breaks, in this order.
#[derive(Clone, Copy, Debug, PartialEq, Eq)]
pub enum ReportKind {
    /// The line has none of the forms of a report, or is the line of a run's end before the last row, or says something
    /// after such a line; printed as V1.
    BadLine,
    /// It names a node or a destination that the network doesn't have; printed as V2.
    UnknownName,
    /// Its node and destination aren't those of the next row; printed as V3.
    WrongRow,
    /// The text of its value is refused; printed as V4.
    BadValue(LitFault),
    /// The report ends before the last row; printed as V5.
    RowsMissing,
}

impl ReportKind {
    /// The number that stands after the V of a printed fault. It takes no memory.
    pub fn number(&self) -> u8
        ensures { result ≡ report_kind_number self.now }
    {
        match self {
            ReportKind::BadLine => 1,
            ReportKind::UnknownName => 2,
            ReportKind::WrongRow => 3,
            ReportKind::BadValue(_) => 4,
            ReportKind::RowsMissing => 5,
        }
    }
}

/// What is wrong with a report: its first bad line, numbered from 1; where rows are missing, the line after the last.
#[derive(Clone, Copy, Debug, PartialEq, Eq)]
pub struct ReportFault {
    pub line: u32,
    pub kind: ReportKind,
}

/// Why a text gave no tables.
#[derive(Clone, Copy, Debug, PartialEq, Eq, Error)]
pub enum ReportError {
    /// It isn't a report over the network.
    #[error("the report is refused")]
    Bad(ReportFault),
    /// There was no memory for the tables.
    #[error("out of memory")]
    NoMemory,
}

impl From<NoMemory> for ReportError {
    ghost from_gives = { λ _ e. e ≡ NoMemoryLeft };

    fn from(_: NoMemory) -> Self {
        ReportError::NoMemory
    }
}
