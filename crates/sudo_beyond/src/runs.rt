//! The paths, with their arguments, that are tried.

ghost use Rattle.std.specs.Prelude.{◌≡◌, ◌++◌, ◌∷◌, [], List, ℕ, ◌<◌, ◌^◌, true, map, IfOk, OnOk};
ghost use Rattle.std.specs.List.{All};
ghost use Rattle.std.specs.List.Sorted.{IsStrictlySortedBy};
ghost use Rattle.sudo_words.specs.Word.{is_file_path};
ghost use Rattle.sudo_words.specs.declared.cmnd.Cmnd.{Cmnd as AnyCmnd};
ghost use Rattle.sudo_words.specs.Lists.{text_order, args_order, IsEachOnce, AreParts};
ghost use Rattle.sudo_beyond.specs.Cases.{other as word_of, run_of, dirs as dirs_of};
ghost use Rattle.sudo_beyond.specs.Cases.{ArePathCases, IsFreshFile, AreCommandCases};
ghost use Rattle.sudo_beyond.specs.private.Gathering.{IsLawfulDir, IsFreeFile, IsFreeArgs};
ghost use Rattle.sudo_beyond.specs.private.Gathering.{Adds, run_order, listing_in};
ghost use Rattle.sudo_beyond.specs.private.Gathering.{listings as listings_of, args_at};
ghost use Rattle.sudo_beyond.specs.private.Gathering.{AreListings};

use crate::commands::{dirs, paths};
use crate::other::other;
use crate::run::{Args, Run};
use std::alloc::Global;
use sudo_words::{Arg, ArgRule, Cmnd, DirPath, FilePath, Items, NoMemory, in_order, is_among};

fn copied_path(path: &FilePath) -> Result<FilePath, NoMemory>
    ensures { IfOk result (λ x. x ≡ path.now) }
{
    Ok(path.clone()?)
}

fn copied_args(args: &Items<Arg>) -> Result<Items<Arg>, NoMemory>
    ensures { IfOk result (λ x. x ≡ args.now) }
{
    Ok(args.clone()?)
}

fn copied_list(args: &Args) -> Result<Args, NoMemory>
    ensures { IfOk result (λ x. x ≡ args.now) }
{
    Ok(args.clone()?)
}

// ---- files that no policy names

fn other_file(alloc: Global, dir: &str, number: usize) -> Result<FilePath, NoMemory>
    requires { is_file_path (dir.now ++ word_of number) ≡ true }
    ensures { IfOk result (λ p. p ≡ dir.now ++ word_of number) }
{
    match FilePath::from_string(format!(in alloc; "{dir}other{number}")?) {
        Ok(path) => Ok(path),
        Err(_) => Err(NoMemory),
    }
}

/// The first other file in this directory that is not among the files.
fn free_file(alloc: Global, dir: &str, files: &[FilePath]) -> Result<FilePath, NoMemory>
    requires form { (k : ℕ) → k < 2 ^ 64 → is_file_path (dir.now ++ word_of k) ≡ true }
    requires sorted { IsStrictlySortedBy text_order files.now }
    ensures { IfOk result (λ p. IsFreeFile files.now dir.now p) }
{
    for number in 0..files.len() {
        let path = other_file(alloc, dir, number)?;
        if !is_among(files, &path) {
            return Ok(path);
        }
    }
    other_file(alloc, dir, files.len())
}

// ---- arguments

fn one_other(alloc: Global, number: usize) -> Result<Args, NoMemory>
    requires { number < 2 ^ 64 }
    ensures { IfOk result (λ args. args ≡ word_of number ∷ []) }
{
    let arg: Arg = other(alloc, number)?;
    Ok(Args::new(vec![in alloc; arg]?))
}

/// The first list of one other argument that is not among the lists.
fn free_args(alloc: Global, lists: &[Args]) -> Result<Args, NoMemory>
    requires { IsStrictlySortedBy args_order lists.now }
    ensures { IfOk result (λ args. IsFreeArgs lists.now args) }
{
    for number in 0..lists.len() {
        let args = one_other(alloc, number)?;
        if !is_among(lists, &args) {
            return Ok(args);
        }
    }
    one_other(alloc, lists.len())
}

fn push_listing(listed: &mut Vec<Run>, cmnd: &Cmnd) -> Result<(), NoMemory>
    ensures { OnOk result (listed.new.items ≡ listed.old.items ++ listing_in cmnd.now) }
{
    if let Cmnd::Path(file, ArgRule::Exactly(wanted)) = cmnd {
        listed.push(Run {
            path: copied_path(file)?,
            args: Args::new(copied_args(wanted)?.into_vec()),
        })?;
    }
    Ok(())
}

/// The paths with the lists of arguments that stand with them.
pub fn listings(alloc: Global, cmnds: &[Cmnd]) -> Result<Vec<Run>, NoMemory>
    ensures { IfOk result (λ listed. listed.items ≡ listings_of cmnds.now) }
{
    let mut listed = Vec::new(alloc);
    for cmnd in cmnds {
        push_listing(&mut listed, cmnd)?;
    }
    Ok(listed)
}

/// The listings of this path, out of all listings, which are in order.
fn listed_at<'a>(listed: &'a [Run], path: &FilePath) -> &'a [Run]
    requires { IsStrictlySortedBy run_order listed.now }
    ensures { map (λ run. run.args) result.now ≡ args_at path.now listed.now }
{
    let (_, rest) = listed.split_at(listed.partition_point(|run| run.path < *path));
    let (own, _) = rest.split_at(rest.partition_point(|run| run.path == *path));
    own
}

/// The lists of arguments that stand with the path.
fn lists_with(alloc: Global, path: &FilePath, listed: &[Run]) -> Result<Vec<Args>, NoMemory>
    requires { IsStrictlySortedBy run_order listed.now }
    ensures { IfOk result (λ lists. lists.items ≡ args_at path.now listed.now) }
{
    let mut lists = Vec::new(alloc);
    for run in listed_at(listed, path) {
        lists.push(copied_list(&run.args)?)?;
    }
    Ok(lists)
}

// ---- runs

fn push_run(runs: &mut Vec<Run>, path: &FilePath, args: Args) -> Result<(), NoMemory>
    ensures { OnOk result (runs.new.items ≡ runs.old.items ++ run_of path.now args ∷ []) }
{
    runs.push(Run {
        path: copied_path(path)?,
        args,
    })?;
    Ok(())
}

fn push_each(runs: &mut Vec<Run>, path: &FilePath, lists: Vec<Args>) -> Result<(), NoMemory>
    ensures { OnOk result (runs.new.items ≡ runs.old.items ++ map (run_of path.now) lists.items) }
{
    for args in lists {
        push_run(runs, path, args)?;
    }
    Ok(())
}

/// Adds the path without arguments, with each list that stands with it, and with one other
/// argument.
fn push_path(
    alloc: Global,
    runs: &mut Vec<Run>,
    path: &FilePath,
    listed: &[Run],
) -> Result<(), NoMemory>
    requires { IsStrictlySortedBy run_order listed.now }
    ensures { (cmnds : List AnyCmnd) → AreListings cmnds listed.now
        → OnOk result (Adds (ArePathCases cmnds path.now) runs.old.items runs.new.items) }
{
    let lists = in_order(lists_with(alloc, path, listed)?);
    let others = free_args(alloc, &lists)?;
    push_run(runs, path, Args::new(Vec::new(alloc)))?;
    push_each(runs, path, lists)?;
    push_run(runs, path, others)
}

fn push_paths(
    alloc: Global,
    runs: &mut Vec<Run>,
    files: &[FilePath],
    listed: &[Run],
) -> Result<(), NoMemory>
    requires { IsStrictlySortedBy run_order listed.now }
    ensures { (cmnds : List AnyCmnd) → AreListings cmnds listed.now → OnOk result
        (Adds (AreParts (ArePathCases cmnds) files.now) runs.old.items runs.new.items) }
{
    for file in files {
        push_path(alloc, runs, file, listed)?;
    }
    Ok(())
}

/// Adds the first other file in this directory that is not among the files, without arguments.
fn push_fresh(
    alloc: Global,
    runs: &mut Vec<Run>,
    dir: &str,
    files: &[FilePath],
) -> Result<(), NoMemory>
    requires form { (k : ℕ) → k < 2 ^ 64 → is_file_path (dir.now ++ word_of k) ≡ true }
    requires sorted { IsStrictlySortedBy text_order files.now }
    ensures { OnOk result (Adds (IsFreshFile files.now dir.now) runs.old.items runs.new.items) }
{
    let path = free_file(alloc, dir, files)?;
    push_run(runs, &path, Args::new(Vec::new(alloc)))
}

fn push_directory(
    alloc: Global,
    runs: &mut Vec<Run>,
    dir: &DirPath,
    files: &[FilePath],
) -> Result<(), NoMemory>
    requires lawful { IsLawfulDir dir.now }
    requires sorted { IsStrictlySortedBy text_order files.now }
    ensures { OnOk result (Adds (IsFreshFile files.now dir.now) runs.old.items runs.new.items) }
{
    push_fresh(alloc, runs, dir.as_str(), files)
}

fn push_directories(
    alloc: Global,
    runs: &mut Vec<Run>,
    directories: &[DirPath],
    files: &[FilePath],
) -> Result<(), NoMemory>
    requires lawful { All IsLawfulDir directories.now }
    requires sorted { IsStrictlySortedBy text_order files.now }
    ensures { OnOk result
        (Adds (AreParts (IsFreshFile files.now) directories.now) runs.old.items runs.new.items) }
{
    for dir in directories {
        push_directory(alloc, runs, dir, files)?;
    }
    Ok(())
}

/// The cases of these commands: for each path in byte order, for each directory in byte order, and
/// a file of the root.
pub fn run_cases(alloc: Global, cmnds: &[Cmnd]) -> Result<Items<Run>, NoMemory>
    requires { All IsLawfulDir (dirs_of cmnds.now) }
    ensures { IfOk result (λ runs. AreCommandCases cmnds.now runs) }
{
    let files = in_order(paths(alloc, cmnds)?);
    let directories = in_order(dirs(alloc, cmnds)?);
    let listed = in_order(listings(alloc, cmnds)?);
    let mut runs = Vec::new(alloc);
    push_paths(alloc, &mut runs, &files, &listed)?;
    push_directories(alloc, &mut runs, &directories, &files)?;
    push_fresh(alloc, &mut runs, "/", &files)?;
    Ok(Items::new(runs))
}
