//! The command `past`: a file's manuscript as it was.
ghost use Rattle.manuscript_cli.specs.Past.{past_reports};

use crate::arrange::put_arrangement;
use command_kinds::{Refusal, Report, ReportResult};
use outer_ports::Sink;
use replica_core::Replica;
use std::alloc::Global;
use version_views::front;

/// The sections as they were arranged when so many operations were accepted.
#[derive(Clone, Copy)]
pub(crate) struct Past {
    pub count: u32,
}

impl Report for Past {
    ghost Tells = { λ what. past_reports what.count };

    fn write<O: Sink>(&self, alloc: Global, replica: &Replica, output: &mut O) -> ReportResult {
        let Some(past) = front(alloc, replica, self.count as usize)? else {
            return Err(Refusal::NoMoment(self.count));
        };
        let reported = put_arrangement(alloc, &past, output);
        past.discard();
        reported
    }

    fn laws(&self) {}
}
