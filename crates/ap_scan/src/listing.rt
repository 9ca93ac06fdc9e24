//! The files of the scan folders, as they are listed.
ghost use Rattle.std.specs.Prelude.{◌≡◌, ◌≢◌, ◌≤◌, ◌⊎◌, ◌++◌, true, false, IfOk, IfErr, IfSome, OnOk, MatchOption};
ghost use Rattle.std.specs.List.{AllByRecursion, flat_map};
ghost use Rattle.ap_text.specs.Causes.{Rose};
ghost use Rattle.ap_tree.specs.Files.{names_below};
ghost use Rattle.ap_config.specs.Configuration.{is_path};
ghost use Rattle.ap_scan.specs.Candidates.{candidates_in, odd_in, candidates_of, odds_of, SameMembers, IsFolded};
ghost use Rattle.ap_scan.specs.declared.fault.ScanFault.TheVariants.{TreeFault as TreeFailed, OutOfMemory as NoMemory};

use crate::candidate::{Candidate, file_in};
use crate::fault::ScanFault;
use crate::results::Odd;
use ap_config::Folder;
use ap_text::{Bytes, OutOfMemory, PathFault, RelPath, some_matches};
use ap_tree::{Tree, TreeFault};
use std::alloc::Global;

/// What was listed: the candidates and the odd names, in the order in which they came.
#[derive(Drop)]
pub(crate) struct Listing {
    pub candidates: Vec<Candidate>,
    pub odd: Vec<Odd>,
}

/// Lists all folders.
pub(crate) fn list_all<T: Tree>(
    alloc: Global,
    tree: &mut T,
    folders: &[Folder],
) -> Result<Listing, ScanFault>
    ensures candidates { IfOk result (λ listing. IfSome (T.files tree.old) (λ files. SameMembers (candidates_of files folders.now) listing.candidates.items)) }
    ensures odd { IfOk result (λ listing. IfSome (T.files tree.old) (λ files. SameMembers (odds_of files folders.now) listing.odd.items)) }
    ensures folded { IfOk result (λ listing. AllByRecursion IsFolded listing.candidates.items) }
    ensures cause { IfErr result (λ fault. fault ≡ TreeFailed → Rose (T.faults tree.old) (T.faults tree.new)) }
    ensures only { IfErr result (λ fault. (fault ≡ TreeFailed) ⊎ (fault ≡ NoMemory)) }
    ensures same { T.files tree.new ≡ T.files tree.old }
    ensures later { T.faults tree.old ≤ T.faults tree.new }
{
    let mut listing = Listing {
        candidates: Vec::new(alloc),
        odd: Vec::new(alloc),
    };
    let mut rest = folders;
    while let [folder, after @ ..] = rest {
        match list_folder(alloc, tree, folder, &mut listing) {
            Ok(()) => {}
            Err(fault) => return Err(fault),
        }
        rest = after;
    }
    Ok(listing)
}

fn list_folder<T: Tree>(
    alloc: Global,
    tree: &mut T,
    folder: &Folder,
    listing: &mut Listing,
) -> Result<(), ScanFault>
    ensures candidates { OnOk result (IfSome (T.files tree.old) (λ files.
        SameMembers (listing.old.candidates.items ++ flat_map (candidates_in folder.now) (names_below folder.now.path files)) listing.new.candidates.items)) }
    ensures odd { OnOk result (IfSome (T.files tree.old) (λ files.
        SameMembers (listing.old.odd.items ++ flat_map (odd_in folder.now) (names_below folder.now.path files)) listing.new.odd.items)) }
    ensures folded { OnOk result (AllByRecursion IsFolded listing.old.candidates.items → AllByRecursion IsFolded listing.new.candidates.items) }
    ensures cause { IfErr result (λ fault. fault ≡ TreeFailed → Rose (T.faults tree.old) (T.faults tree.new)) }
    ensures only { IfErr result (λ fault. (fault ≡ TreeFailed) ⊎ (fault ≡ NoMemory)) }
    ensures same { T.files tree.new ≡ T.files tree.old }
    ensures later { T.faults tree.old ≤ T.faults tree.new }
{
    let names = match tree.list(alloc, &folder.path, folder.exclude.as_slice()) {
        Ok(names) => names,
        Err(fault) => return Err(fault_of(fault)),
    };
    match add_names(alloc, folder, &names, listing) {
        Ok(()) => Ok(()),
        Err(_) => Err(ScanFault::OutOfMemory),
    }
}

pub(crate) fn fault_of(fault: TreeFault) -> ScanFault
    ensures cause { result ≡ TreeFailed → fault ≡ TreeFault.Failed }
    ensures only { (result ≡ TreeFailed) ⊎ (result ≡ NoMemory) }
{
    match fault {
        TreeFault::Failed => ScanFault::TreeFault,
        TreeFault::OutOfMemory => ScanFault::OutOfMemory,
    }
}

/// Adds what the names of a folder stand for.
fn add_names(
    alloc: Global,
    folder: &Folder,
    names: &[Bytes],
    listing: &mut Listing,
) -> Result<(), OutOfMemory>
    ensures candidates { OnOk result (listing.new.candidates.items ≡ listing.old.candidates.items ++ flat_map (candidates_in folder.now) names.now) }
    ensures odd { OnOk result (listing.new.odd.items ≡ listing.old.odd.items ++ flat_map (odd_in folder.now) names.now) }
{
    let mut rest = names;
    while let [name, after @ ..] = rest {
        add_name(alloc, folder, name, listing)?;
        rest = after;
    }
    Ok(())
}

fn add_name(
    alloc: Global,
    folder: &Folder,
    name: &Bytes,
    listing: &mut Listing,
) -> Result<(), OutOfMemory>
    ensures candidates { OnOk result (listing.new.candidates.items ≡ listing.old.candidates.items ++ candidates_in folder.now name.now) }
    ensures odd { OnOk result (listing.new.odd.items ≡ listing.old.odd.items ++ odd_in folder.now name.now) }
{
    match read_name(alloc, name)? {
        Some(name) => add_path(alloc, folder, name, &mut listing.candidates),
        None => {
            let order = folder.order;
            let name = name.copy(alloc)?;
            listing.odd.push(Odd { order, name })?;
            Ok(())
        }
    }
}

/// The path that a name is, or none where it is no path.
fn read_name(alloc: Global, name: &Bytes) -> Result<Option<RelPath>, OutOfMemory>
    ensures { IfOk result (λ read. MatchOption read (is_path name.now ≡ false) (λ path. (path ≡ name.now) × (is_path name.now ≡ true))) }
{
    match RelPath::read(alloc, name.as_slice()) {
        Ok(path) => Ok(Some(path)),
        Err(fault) => no_path(fault),
    }
}

fn no_path(fault: PathFault) -> Result<Option<RelPath>, OutOfMemory>
    ensures { IfOk result (λ read. (read ≡ None) × (fault ≢ PathFault.OutOfMemory)) }
{
    match fault {
        PathFault::OutOfMemory => Err(OutOfMemory),
        _ => Ok(None),
    }
}

/// Adds the candidate of a path's name, unless it is excluded from its folder.
fn add_path(
    alloc: Global,
    folder: &Folder,
    name: RelPath,
    candidates: &mut Vec<Candidate>,
) -> Result<(), OutOfMemory>
    ensures { OnOk result (is_path name ≡ true → candidates.new.items ≡ candidates.old.items ++ candidates_in folder.now name) }
{
    let path = name.fold(alloc)?;
    if some_matches(folder.exclude.as_slice(), path.as_str()) {
        return Ok(());
    }
    let file = file_in(alloc, &folder.path, &name)?;
    candidates.push(Candidate {
        path,
        order: folder.order,
        name,
        file,
    })?;
    Ok(())
}
