//! The commands that stand in a policy.

ghost use Rattle.std.specs.Prelude.{◌≡◌, ◌++◌, IfOk, OnOk};
ghost use Rattle.sudo_policy.specs.Policy.{IsPolicy};
ghost use Rattle.sudo_beyond.specs.Standing.{cmnd_in, cmnds_in, cmnds_of, commands};
ghost use Rattle.sudo_beyond.specs.Cases as cases;

use std::alloc::Global;
use sudo_policy::{CmndItem, Entry, Policy, Signed};
use sudo_words::{Cmnd, DirPath, FilePath, NoMemory};

fn copy_cmnd(cmnd: &Cmnd) -> Result<Cmnd, NoMemory>
    ensures { IfOk result (λ x. x ≡ cmnd.now) }
{
    Ok(cmnd.clone()?)
}

fn copied_path(path: &FilePath) -> Result<FilePath, NoMemory>
    ensures { IfOk result (λ x. x ≡ path.now) }
{
    Ok(path.clone()?)
}

fn copied_dir(dir: &DirPath) -> Result<DirPath, NoMemory>
    ensures { IfOk result (λ x. x ≡ dir.now) }
{
    Ok(dir.clone()?)
}

fn push_cmnd(cmnds: &mut Vec<Cmnd>, x: &Signed<CmndItem>) -> Result<(), NoMemory>
    ensures { OnOk result (cmnds.new.items ≡ cmnds.old.items ++ cmnd_in x.now.item) }
{
    if let CmndItem::Cmnd(cmnd) = &x.item {
        cmnds.push(copy_cmnd(cmnd)?)?;
    }
    Ok(())
}

fn push_cmnds(cmnds: &mut Vec<Cmnd>, list: &[Signed<CmndItem>]) -> Result<(), NoMemory>
    ensures { OnOk result (cmnds.new.items ≡ cmnds.old.items ++ cmnds_in list.now) }
{
    for x in list {
        push_cmnd(cmnds, x)?;
    }
    Ok(())
}

fn push_entry_cmnds(cmnds: &mut Vec<Cmnd>, entry: &Entry) -> Result<(), NoMemory>
    ensures { OnOk result (cmnds.new.items ≡ cmnds.old.items ++ cmnds_in (cmnds_of entry.now)) }
{
    match entry {
        Entry::CmndAlias(_, list) => push_cmnds(cmnds, list.as_slice()),
        Entry::Rule(rule) => push_cmnd(cmnds, &rule.cmnd),
        _ => Ok(()),
    }
}

/// Adds the commands that stand in a policy.
pub fn push_commands(cmnds: &mut Vec<Cmnd>, p: &Policy) -> Result<(), NoMemory>
    ensures policy { IsPolicy p.now }
    ensures commands { OnOk result (cmnds.new.items ≡ cmnds.old.items ++ commands p.now) }
{
    for entry in p.entries() {
        push_entry_cmnds(cmnds, entry)?;
    }
    Ok(())
}

/// The paths among commands.
pub fn paths(alloc: Global, cmnds: &[Cmnd]) -> Result<Vec<FilePath>, NoMemory>
    ensures { IfOk result (λ paths. paths.items ≡ cases.paths cmnds.now) }
{
    let mut paths = Vec::new(alloc);
    for cmnd in cmnds {
        if let Cmnd::Path(file, _) = cmnd {
            paths.push(copied_path(file)?)?;
        }
    }
    Ok(paths)
}

/// The directories among commands.
pub fn dirs(alloc: Global, cmnds: &[Cmnd]) -> Result<Vec<DirPath>, NoMemory>
    ensures { IfOk result (λ dirs. dirs.items ≡ cases.dirs cmnds.now) }
{
    let mut dirs = Vec::new(alloc);
    for cmnd in cmnds {
        if let Cmnd::Dir(dir) = cmnd {
            dirs.push(copied_dir(dir)?)?;
        }
    }
    Ok(dirs)
}
