//! `ap`, the Asset Processor. It runs over the current folder, keeps its products in the folder `Cache` and
//! its database in the files `ap.store.a` and `ap.store.b`, and ends with the status of its command line.
//!
//! One run at a time works in a folder: another one waits until the first has ended. Where a file, a folder or a
//! stream failed, or a file is too large, a line on standard error names it.
#![tactic(auto)]

use ap_builder::Bench;
use ap_cli::{CopyBuilder, CopyPass, run};
use ap_disk::{FileDisk, Pair, Side};
use ap_system::{Culprit, Failure};
use ap_text::OutOfMemory;
use ap_tree::{DirCache, DirTree, StdSink};
use std::env;
use std::fs::{File, OpenOptions};
use std::io::{self, ErrorKind};
use std::process::ExitCode;

/// The status where the store's disk fails, and where the folder can't be locked.
const DISK_FAULT: u8 = 6;

/// The status where there is no memory for what a run is handed.
const OUT_OF_MEMORY: u8 = 8;

fn main(rt: HostRuntime) -> ExitCode {
    let status = run_alone(&rt).unwrap_or(OUT_OF_MEMORY);
    ExitCode::from(status)
}

/// Runs, for a batch when no other one is at work in the current folder.
///
/// The folder is held open three times. So it takes the number of each standard stream that is closed, which the
/// store's file would take else: then a write to the stream fails, and doesn't go into the store.
fn run_alone(rt: &HostRuntime) -> Result<u8, OutOfMemory> {
    let words = words(rt)?;
    let _held = [open_here(rt).ok(), open_here(rt).ok(), open_here(rt).ok()];
    if words.first().is_none_or(|word| word.as_str() != "batch") {
        return run_here(rt, &words);
    }
    match lock_here(rt) {
        Ok(_lock) => run_here(rt, &words),
        Err(failure) => {
            let _ = println!(rt; "ap: disk fault");
            tell(rt, Some(Culprit::new(".", &failure)));
            Ok(DISK_FAULT)
        }
    }
}

fn run_here(rt: &HostRuntime, words: &[String]) -> Result<u8, OutOfMemory> {
    let alloc = rt.alloc();
    let mut tree = DirTree::new(rt.clone()?, ".")?;
    let mut cache = DirCache::new(rt.clone()?, "Cache")?;
    let mut store = Pair::new(
        FileDisk::new(rt.clone()?, "ap.store.a")?,
        FileDisk::new(rt.clone()?, "ap.store.b")?,
    );
    let mut bench = Bench::new(alloc, CopyPass);
    let mut out = StdSink::new(io::writer(rt));
    let status = run(
        alloc,
        words,
        &mut tree,
        &mut cache,
        &mut store,
        &CopyBuilder,
        &mut bench,
        &mut out,
    );
    let too_large = Failure::refused("read", "has more than 4194304 bytes");
    match status {
        4 => tell(rt, tree.culprit()),
        5 => tell(rt, cache.culprit()),
        6 => {
            tell(rt, store.disk(Side::A).culprit());
            tell(rt, store.disk(Side::B).culprit());
        }
        7 => tell(rt, out.culprit("standard output")),
        13 => tell(
            rt,
            tree.too_large().map(|path| Culprit::new(path, &too_large)),
        ),
        _ => {}
    }
    Ok(status)
}

/// Names on standard error what failed.
fn tell(rt: &HostRuntime, culprit: Option<Culprit<'_>>) {
    if let Some(culprit) = culprit {
        let _ = eprintln!(rt; "ap: {culprit}");
    }
}

fn open_here(rt: &HostRuntime) -> io::Result<File> {
    OpenOptions::new().read(true).open(rt, ".")
}

/// Opens the current folder and locks it, until it is closed. It waits while another run has locked it.
fn lock_here(rt: &HostRuntime) -> Result<File, Failure> {
    let folder = match open_here(rt) {
        Ok(folder) => folder,
        Err(error) => return Err(Failure::new("open", error)),
    };
    match folder.lock() {
        Ok(()) => Ok(folder),
        Err(error) => Err(Failure::new("lock", error)),
    }
}

/// The words after the program's name. Where one isn't UTF-8 there are none, which is no command line.
fn words(rt: &HostRuntime) -> Result<Vec<String>, OutOfMemory> {
    let alloc = rt.alloc();
    match env::args(rt) {
        Ok(args) => Ok(args.skip(1).collect(alloc)?),
        Err(error) if error.kind() == ErrorKind::OutOfMemory => Err(OutOfMemory),
        Err(_) => Ok(Vec::new(alloc)),
    }
}
