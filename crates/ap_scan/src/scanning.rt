ghost use Rattle.std.specs.Prelude.{◌≡◌, ◌≢◌, ◌≤◌, ◌<◌, IfOk, IfErr, IfSome, length};
ghost use Rattle.ap_text.specs.Causes.{Rose};
ghost use Rattle.ap_scan.specs.Winners.{HasOwnOrders};
ghost use Rattle.ap_scan.specs.Limits.{Scans, IsLawful, IsPassed};
ghost use Rattle.ap_scan.specs.declared.fault.ScanFault.TheVariants.{TreeFault as TreeFailed, Limit};
ghost use Rattle.ap_text.specs.declared.seen.Which.TheVariants.{Files as ManyFiles};

use crate::fault::ScanFault;
use crate::listing::list_all;
use crate::order::{put_in_order, put_odd_in_order, split};
use crate::reading::read_all;
use crate::results::Scan;
use ap_config::Config;
use ap_text::{List, Which};
use ap_tree::Tree;
use std::alloc::Global;

/// The most winners.
const FILES_LIMIT: usize = 20_000;

/// The winners of the scan folders as they are read, the hidden files and the odd names.
///
/// All folders are listed first. Then, if there are not too many winners, they are read in the order of
/// their paths, each once, and one that has gone meanwhile is left out. No two folders may have one order.
/// The steps are n log n for n listed names, beside those of the tree.
pub fn scan<T: Tree>(alloc: Global, tree: &mut T, config: &Config) -> Result<Scan, ScanFault>
    requires { HasOwnOrders config.now.folders }
    ensures scan { IfSome (T.files tree.old) (λ files. Scans config.now files result) }
    ensures lawful { IfOk result IsLawful }
    ensures passed { IfErr result IsPassed }
    ensures cause { IfErr result (λ fault. fault ≡ TreeFailed → Rose (T.faults tree.old) (T.faults tree.new)) }
    ensures unfailing { IfErr result (λ fault. T.faults tree.new ≡ 0 → fault ≢ TreeFailed) }
    ensures same { T.files tree.new ≡ T.files tree.old }
    ensures later { T.faults tree.old ≤ T.faults tree.new }
{
    let listing = match list_all(alloc, tree, config.folders.as_slice()) {
        Ok(listing) => listing,
        Err(fault) => return Err(fault),
    };
    let mut candidates = listing.candidates;
    let mut odd = listing.odd;
    put_in_order(&mut candidates);
    put_odd_in_order(&mut odd);
    let (winners, hidden) = match split(alloc, candidates) {
        Ok(split) => split,
        Err(_) => return Err(ScanFault::OutOfMemory),
    };
    match check_number(winners.len()) {
        Ok(()) => {}
        Err(fault) => return Err(fault),
    }
    let winners = match read_all(alloc, tree, winners) {
        Ok(winners) => winners,
        Err(fault) => return Err(fault),
    };
    Ok(Scan {
        winners: List::of(winners),
        hidden: List::of(hidden),
        odd: List::of(odd),
    })
}

fn check_number(number: usize) -> Result<(), ScanFault>
    ensures few { IfOk result (λ _. number ≤ 20000) }
    ensures many { IfErr result (λ fault. (20000 < number) × (fault ≡ Limit ManyFiles number)) }
{
    if number > FILES_LIMIT {
        return Err(ScanFault::Limit {
            which: Which::Files,
            count: number as u64,
        });
    }
    Ok(())
}
