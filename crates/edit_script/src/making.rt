//! Edits of script lines applied to a replica, with cluster positions looked up in the section's index.
ghost use Rattle.std.specs.Prelude.{◌≡◌, IfOk, IfErr, OnOk};
ghost use Rattle.std.specs.Str.{chars};
ghost use Rattle.origin_model.specs.edits.Edits.{Put, Cut};
ghost use Rattle.origin_model.specs.taking.Taking.{IsSettled};
ghost use Rattle.edit_script.specs.Commands.{replica_command};
ghost use Rattle.edit_script.specs.Lines.{Made, Unmade};
ghost use Rattle.edit_script.specs.Sections.{AreShownTexts};

use crate::edit::Edit;
use crate::sections::Sections;
use replica_core::{EditFault, Replica};

/// Makes an edit that a line asks for, and returns how many operations it has.
pub(crate) fn make(
    replica: &mut Replica,
    sections: &mut Sections,
    edit: Edit,
) -> Result<u32, EditFault>
    requires settled { IsSettled replica.old.held }
    requires sections { AreShownTexts sections.old.indices.entries replica.old }
    ensures made { IfOk result (Made replica.old replica.new (replica_command edit)) }
    ensures unmade { IfErr result (Unmade replica.old replica.new (replica_command edit)) }
    ensures settled { IsSettled replica.new.held }
    ensures sections { OnOk result (AreShownTexts sections.new.indices.entries replica.new) }
{
    match edit {
        Edit::Add { at, title } => replica.add(at as usize, title),
        Edit::Put { section, at, text } => {
            put(replica, sections, section as usize, at, text.as_str())
        }
        Edit::Cut { section, at, count } => cut(replica, sections, section as usize, at, count),
        Edit::DropSection { section } => replica.drop_section(section as usize),
    }
}

/// Puts a text in front of a cluster.
fn put(
    replica: &mut Replica,
    sections: &mut Sections,
    section: usize,
    at: u32,
    text: &str,
) -> Result<u32, EditFault>
    requires settled { IsSettled replica.old.held }
    requires sections { AreShownTexts sections.old.indices.entries replica.old }
    ensures made { IfOk result (Made replica.old replica.new (Put section at (chars text.now))) }
    ensures unmade { IfErr result (Unmade replica.old replica.new (Put section at (chars text.now))) }
    ensures settled { IsSettled replica.new.held }
    ensures sections { OnOk result (AreShownTexts sections.new.indices.entries replica.new) }
{
    let found = sections.take(replica, section, at, 0)?;
    let made = replica.put(section, found.at, text);
    // After a fault no line comes that asks for the section.
    sections.put_back(found, text);
    made
}

/// Cuts clusters.
fn cut(
    replica: &mut Replica,
    sections: &mut Sections,
    section: usize,
    at: u32,
    n: u32,
) -> Result<u32, EditFault>
    requires settled { IsSettled replica.old.held }
    requires sections { AreShownTexts sections.old.indices.entries replica.old }
    ensures made { IfOk result (Made replica.old replica.new (Cut section at n)) }
    ensures unmade { IfErr result (Unmade replica.old replica.new (Cut section at n)) }
    ensures settled { IsSettled replica.new.held }
    ensures sections { OnOk result (AreShownTexts sections.new.indices.entries replica.new) }
{
    let found = sections.take(replica, section, at, n)?;
    let made = replica.cut(section, found.at, found.len);
    sections.put_back(found, "");
    made
}
