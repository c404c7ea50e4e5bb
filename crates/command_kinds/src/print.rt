//! The command `print`: the manuscript of a file, as a report.
ghost use Rattle.command_kinds.specs.Report.{print_reports};

use crate::refusal::Refusal;
use crate::report::{Report, ReportResult};
use crate::text_out::gone_out;
use outer_ports::Sink;
use replica_core::Replica;
use std::alloc::Global;

/// The manuscript.
pub struct Manuscript;

impl Report for Manuscript {
    ghost Tells = { λ what. print_reports };

    fn write<O: Sink>(&self, _alloc: Global, replica: &Replica, output: &mut O) -> ReportResult {
        gone_out(replica.write_manuscript(output))
    }

    fn laws(&self) {}
}
