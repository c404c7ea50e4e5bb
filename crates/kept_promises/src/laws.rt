//! Each function takes and answers nothing, and its clauses are the law.

ghost use Rattle.kept_promises.specs.Certificates.{CertificatesPass, FileCertificatesStay, WhyPassesCheck};
ghost use Rattle.kept_promises.specs.Keeping.{FilesKeepOperations};
ghost use Rattle.kept_promises.specs.Revisions.{RevisingSinceIsReviseThenMerge, SinceIsReviseThenMerge};
ghost use Rattle.kept_promises.specs.Views.{ViewsPrintTheSame, ViewsStay};

/// The operations that a file has are in it for good. Whatever commands run on it, and wherever a crash comes, they
/// stand first, and after them, in order, those of each command that ended well.
///
/// `every_finished_command_is_in_the_file` says so of a new file; this law begins at any file that lies still.
pub fn files_keep_operations()
    ensures { FilesKeepOperations }
{}

/// No later command changes what `view` writes for a name, unless it withdraws the version or gives the name anew.
pub fn views_stay()
    ensures files { ViewsStay }
    ensures printed { ViewsPrintTheSame }
{}

/// What `why` printed is answered `yes` by `check`, on this file at once and after any later commands, and on each file
/// that has accepted the operations of this one.
pub fn why_passes_check()
    ensures files { CertificatesPass }
    ensures later { FileCertificatesStay }
    ensures checked { WhyPassesCheck }
{}

/// A draft with a number leads to what a replica comes to that revised at that moment, by the same operations, and took
/// in the rest of the file afterwards: the same operations are accepted, and so the same is printed.
pub fn revise_since_is_revise_then_merge()
    ensures given { SinceIsReviseThenMerge }
    ensures done { RevisingSinceIsReviseThenMerge }
{}
