//! The commands `version`, `versions` and `view`: what a file said gets a name, and is printed by it.
ghost use Rattle.std.specs.Prelude.{◌≡◌, ◌⊎◌, IfSome, true};
ghost use Rattle.version_views.specs.Versions.{is_name as is_name_of};
ghost use Rattle.manuscript_cli.specs.NamedVersions.{version_on, version_refused, versions_reports, view_reports};
ghost use Rattle.command_kinds.specs.Refusal.{kept_name};
ghost use Rattle.command_kinds.specs.declared.refusal.Refusal.TheVariants.{NoMemory as NoMemoryFound, NoVersion};

use command_kinds::{MakesNote, Refusal, Report, ReportResult, VersionName, gone_out};
use fugue_ids::{Body, Failed};
use outer_ports::Sink;
use replica_core::Replica;
use std::alloc::Global;
use version_views::{
    VersionFault, ViewFault, find_version, is_name, name_version, write_versions, write_view,
};

/// What the replica has accepted so far gets a name.
#[derive(Clone, Copy)]
pub(crate) struct NewVersion<'a> {
    pub name: &'a str,
}

impl<'a> MakesNote for NewVersion<'a> {
    ghost note_on = { λ what. version_on what.name.now };

    fn make(&self, alloc: Global, replica: &mut Replica) -> Result<(), Refusal> {
        // The word was read as a name, so memory alone can be wanting.
        let Some(name) = name_body(alloc, self.name) else {
            return Err(Refusal::NoMemory);
        };
        match name_version(replica, name) {
            Ok(_) => Ok(()),
            Err(fault) => Err(refusal_of(fault)),
        }
    }
}

/// The name as a note's body.
fn name_body(alloc: Global, name: &str) -> Option<Body>
    ensures { IfSome result (λ body. (body ≡ name.now) × (is_name_of name.now ≡ true)) }
{
    if !is_name(name.as_bytes()) {
        return None;
    }
    Body::read(alloc, name.as_bytes()).ok()
}

fn refusal_of(fault: VersionFault) -> Refusal
    ensures { result ≡ version_refused fault }
{
    match fault {
        VersionFault::IdsSpent(counter) => Refusal::IdsSpent(counter),
        VersionFault::TooMany(held) => Refusal::TooMany(held),
        VersionFault::NoMemory => Refusal::NoMemory,
    }
}

/// The names of a file's versions.
pub(crate) struct Versions;

impl Report for Versions {
    ghost Tells = { λ what. versions_reports };

    fn write<O: Sink>(&self, _alloc: Global, replica: &Replica, output: &mut O) -> ReportResult {
        gone_out(write_versions(replica, output))
    }

    fn laws(&self) {}
}

/// The manuscript of the version with this name.
#[derive(Clone, Copy)]
pub(crate) struct View<'a> {
    pub name: &'a str,
}

impl<'a> Report for View<'a> {
    ghost Tells = { λ what. view_reports what.name.now };

    fn write<O: Sink>(&self, alloc: Global, replica: &Replica, output: &mut O) -> ReportResult {
        let Some(count) = find_version(replica, self.name) else {
            return Err(none_named(self.name));
        };
        match write_view(alloc, replica, count, output) {
            Ok(()) => gone_out(Ok(())),
            Err(ViewFault::SinkFault) => gone_out(Err(Failed)),
            Err(ViewFault::NoMemory) => Err(Refusal::NoMemory),
        }
    }

    fn laws(&self) {}
}

/// No version has the name. The word was read as a name, so it is not too long.
fn none_named(name: &str) -> Refusal
    ensures { (result ≡ NoVersion (kept_name name.now)) ⊎ (result ≡ NoMemoryFound) }
{
    match VersionName::read(name) {
        Some(name) => Refusal::NoVersion(name),
        None => Refusal::NoMemory,
    }
}
