ghost use Rattle.std.specs.Prelude.{◌≡◌, ◌≤◌, ◌^◌, true, Contains, IfOk};
ghost use Rattle.ap_content.specs.Entries.{Lives};
ghost use Rattle.ap_content.specs.declared.node.Number.{Number};

mod changes;
mod opening;
mod project;
mod refusals;
mod stops;

use crate::{Db, DbFault};
use ap_content::{Contents, Node, Number};
use ap_disk::{Disk, Pair, SureMemoryDisk};
use ap_rows::{Change, put_run};
use std::alloc::Global;
use std::marker::Model;
use std::process::Abort;
use std::test::Fail;

/// Room for all records of these tests.
const ROOM: usize = 2048;

/// The first commit of a project without files.
const FILE: &[u8] = b"APSTORE1\0\0\0\0\0\0\0\x01\x01\0\0\0\x0f\x09\0\0\0\x01\0\0\0\0\0\x04game\0";

/// A disk in memory with these bytes.
fn disk(rt: &impl Abort, alloc: Global, bytes: &[u8]) -> Result<SureMemoryDisk, Fail>
    ensures { IfOk result (λ disk. ⟦<SureMemoryDisk as Disk>⟧.room disk ≡ 2048) }
{
    let mut memory = vec![in alloc; 0u8; ROOM]?;
    assert!(rt; bytes.len() <= memory.len());
    memory[..bytes.len()].copy_from_slice(bytes);
    Ok(SureMemoryDisk::new(memory, bytes.len()))
}

/// A pair whose first disk has these bytes, and the second none.
fn pair(rt: &impl Abort, alloc: Global, bytes: &[u8]) -> Result<Pair<SureMemoryDisk>, Fail>
    ensures { IfOk result (λ pair. ⟦<SureMemoryDisk as Disk>⟧.room pair.0 ≡ 2048) }
{
    let a = disk(rt, alloc, bytes)?;
    let b = disk(rt, alloc, b"")?;
    Ok(Pair::new(a, b))
}

/// Appends a record of this payload.
fn push_record(rt: &impl Abort, file: &mut Vec<u8>, payload: &[u8]) -> Result<(), Fail> {
    assert!(rt; payload.len() < 4294967296);
    file.push(1)?;
    put_run(file, 4, payload)?;
    Ok(())
}

/// The file with these payloads.
fn file_of(rt: &impl Abort, alloc: Global, payloads: &[&[u8]]) -> Result<Vec<u8>, Fail> {
    let mut file = b"APSTORE1\0\0\0\0\0\0\0\x01".to_vec(alloc)?;
    for payload in payloads {
        push_record(rt, &mut file, payload)?;
    }
    file.push(0)?;
    Ok(file)
}

/// The file with one payload more.
fn file_behind(
    rt: &impl Abort,
    alloc: Global,
    before: &[u8],
    payload: &[u8],
) -> Result<Vec<u8>, Fail> {
    let mut file = before.to_vec(alloc)?;
    assert!(rt; file.pop().is_some());
    push_record(rt, &mut file, payload)?;
    file.push(0)?;
    Ok(file)
}

/// A database with its store and its contents.
#[derive(Drop)]
struct Opened<D: Disk> {
    db: Db,
    store: Pair<D>,
    contents: Contents,
}

impl<D: Disk> Model for Opened<D> {
    ghost use Rattle.std.specs.Prelude.{List, Option};
    ghost use Rattle.ap_content.specs.Entries.{Entry};
    ghost use Rattle.ap_db.specs.declared.db.Db.{Db};
    ghost use Rattle.ap_db.specs.Databases.{IsDbOf};

    ghost Value = { Db × List (Option Entry) × (D × D) };

    ghost view = { λ o. (o.db, o.contents, o.store) };

    ghost invariant = { λ o. IsDbOf D.seen D.may_leave D.room o.db o.contents o.store };
}

/// The database of a pair, whose file may have so many bytes.
fn open<D: Disk + Drop>(alloc: Global, store: Pair<D>, limit: u64) -> Result<Opened<D>, DbFault>
    requires least { 17 ≤ limit }
    requires greatest { limit ≤ 2 ^ 32 }
    requires fits { limit ≤ D.room store.0 }
{
    let mut store = store;
    let mut contents = Contents::new(alloc);
    let db = Db::open(alloc, &mut store, &mut contents, limit)?;
    Ok(Opened {
        db,
        store,
        contents,
    })
}

/// The database of a store of these bytes.
fn database_of(
    rt: &impl Abort,
    alloc: Global,
    bytes: &[u8],
) -> Result<Opened<SureMemoryDisk>, Fail> {
    let store = pair(rt, alloc, bytes)?;
    Ok(open(alloc, store, ROOM as u64)?)
}

/// Whether each of these numbers lives.
fn all_live(contents: &Contents, numbers: &[Number]) -> bool
    ensures { result ≡ true → (k : Number) → Contains numbers.now k → Lives contents.now k }
{
    let mut rest = numbers;
    while let [n, after @ ..] = rest {
        if contents.get(*n).is_none() {
            return false;
        }
        rest = after;
    }
    true
}

impl<D: Disk> Opened<D> {
    /// Commits a change that is found to be lawful.
    fn commit(&mut self, rt: &impl Abort, change: &Change) -> Result<Result<(), DbFault>, Fail> {
        assert!(rt; self.db.lawful(&self.contents, change));
        Ok(self.db.commit(&mut self.store, &mut self.contents, change))
    }

    /// The thing of this node, whose kids are found to live.
    fn node(&mut self, rt: &impl Abort, node: &Node) -> Result<Number, Fail> {
        assert!(rt; all_live(&self.contents, node.kids.as_slice()));
        Ok(self.contents.intern_node(node)?)
    }

    /// How many numbers of the contents live.
    fn living(&self) -> usize {
        let mut living = 0usize;
        for n in 0..64u64 {
            if self.contents.get(Number(n)).is_some() {
                living = living.saturating_add(1);
            }
        }
        living
    }

    /// How many rows of each table there are.
    fn counts(&self) -> (usize, usize, usize, usize) {
        let tables = self.db.tables();
        (
            tables.folders.len(),
            tables.sources.len(),
            tables.creates.len(),
            tables.jobs.len(),
        )
    }
}
