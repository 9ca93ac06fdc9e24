ghost use Rattle.std.specs.Prelude.{◌≡◌, ◌≢◌, ◌⊎◌, ◌<◌, length, IfErr, OnOk};
ghost use Rattle.ap_text.specs.Causes.{Rose};
ghost use Rattle.ap_tree.specs.Changes.{TellsAs};
ghost use Rattle.ap_tree.specs.Written.{Gains};
ghost use Rattle.ap_db.specs.Tables.{PlainTables};
ghost use Rattle.ap_cli.specs.Layout.{AreApart};
ghost use Rattle.ap_cli.specs.Lines.{report_lem};
ghost use Rattle.ap_cli.specs.Output.{TakesShort};
ghost use Rattle.ap_cli.specs.Overlay.{Overlays, LaidAllButOne};
ghost use Rattle.ap_cli.specs.Working.{AreRowsOf, Delivered, IsUndeliverable};
ghost use Rattle.ap_cli.specs.declared.stop.Stop.TheVariants.{Cache, Output, Memory, Unbuilt};

use crate::cache_files::write_all;
use crate::conflicts::{are_apart, are_distinct_ids};
use crate::lay::{Laid, lay};
use crate::layout::CacheFile;
use crate::other_files::OtherFiles;
use crate::output::write_text;
use crate::report::{Counts, report_of};
use crate::stop::Stop;
use ap_builder::Entry;
use ap_content::Contents;
use ap_rows::Tables;
use ap_tree::{CacheDir, Sink};
use std::alloc::Global;

/// Writes the products that the tables record, and then the report on these entries and files.
pub(crate) fn deliver<C: CacheDir, O: Sink>(
    alloc: Global,
    cache: &mut C,
    out: &mut O,
    tables: &Tables,
    contents: &Contents,
    entries: &[Entry],
    others: &OtherFiles,
) -> Result<(), Stop>
    ensures done { OnOk result ((plain : PlainTables) → AreRowsOf tables.now contents.now plain
        → Delivered (λ put. TellsAs (C.files cache.old) (C.files cache.new) (Overlays put)) (λ counts. Gains (O.written out.old) (O.written out.new) (report_lem entries.now others.now counts)) plain) }
    ensures partly { IfErr result (λ stop. stop ≡ Cache → (plain : PlainTables) → AreRowsOf tables.now contents.now plain
        → Delivered (λ put. TellsAs (C.files cache.old) (C.files cache.new) (LaidAllButOne put)) (λ _. Unit {0}) plain) }
    ensures front { IfErr result (λ stop. stop ≡ Output → (plain : PlainTables) → AreRowsOf tables.now contents.now plain
        → Delivered (λ put. TellsAs (C.files cache.old) (C.files cache.new) (Overlays put)) (λ counts. TakesShort (O.room out.old) (O.written out.old) (O.written out.new) (report_lem entries.now others.now counts)) plain) }
    ensures unbuilt { IfErr result (λ stop. stop ≡ Unbuilt → (plain : PlainTables) → AreRowsOf tables.now contents.now plain → IsUndeliverable plain) }
    ensures silent { IfErr result (λ stop. stop ≢ Output → out.new ≡ out.old) }
    ensures untouched { IfErr result (λ stop. stop ≡ Unbuilt → cache.new ≡ cache.old) }
    ensures cache { IfErr result (λ stop. stop ≡ Cache → Rose (C.faults cache.old) (C.faults cache.new)) }
    ensures output { IfErr result (λ stop. stop ≡ Output → Rose (O.faults out.old) (O.faults out.new)) }
    ensures only { IfErr result (λ stop. (stop ≡ Memory) ⊎ (stop ≡ Unbuilt) ⊎ (stop ≡ Cache) ⊎ (stop ≡ Output)) }
{
    let Laid { files, ids } = match lay(alloc, tables, contents) {
        Ok(laid) => laid,
        Err(stop) => return Err(stop),
    };
    if !are_distinct_ids(ids) {
        return Err(Stop::Unbuilt);
    }
    let counts = counts(tables, files.len());
    match write_out(alloc, cache, out, &files, entries, others, &counts) {
        Ok(()) => Ok(()),
        Err(stop) => Err(stop),
    }
}

/// Writes these files, and then the report on these entries, files and counts.
fn write_out<C: CacheDir, O: Sink>(
    alloc: Global,
    cache: &mut C,
    out: &mut O,
    files: &[CacheFile<'_>],
    entries: &[Entry],
    others: &OtherFiles,
    counts: &Counts,
) -> Result<(), Stop>
    ensures apart { OnOk result (AreApart files.now) }
    ensures apart_then { IfErr result (λ stop. (stop ≡ Cache) ⊎ (stop ≡ Output) → AreApart files.now) }
    ensures unbuilt { IfErr result (λ stop. stop ≡ Unbuilt → ¬ AreApart files.now) }
    ensures put { OnOk result (TellsAs (C.files cache.old) (C.files cache.new) (Overlays files.now)) }
    ensures told { OnOk result (Gains (O.written out.old) (O.written out.new) (report_lem entries.now others.now counts.now)) }
    ensures partly { IfErr result (λ stop. stop ≡ Cache → TellsAs (C.files cache.old) (C.files cache.new) (LaidAllButOne files.now)) }
    ensures put_then { IfErr result (λ stop. stop ≡ Output → TellsAs (C.files cache.old) (C.files cache.new) (Overlays files.now)) }
    ensures short { IfErr result (λ stop. stop ≡ Output → TakesShort (O.room out.old) (O.written out.old) (O.written out.new) (report_lem entries.now others.now counts.now)) }
    ensures silent { IfErr result (λ stop. stop ≢ Output → out.new ≡ out.old) }
    ensures untouched { IfErr result (λ stop. stop ≡ Unbuilt → cache.new ≡ cache.old) }
    ensures cache { IfErr result (λ stop. stop ≡ Cache → Rose (C.faults cache.old) (C.faults cache.new)) }
    ensures output { IfErr result (λ stop. stop ≡ Output → Rose (O.faults out.old) (O.faults out.new)) }
    ensures only { IfErr result (λ stop. (stop ≡ Memory) ⊎ (stop ≡ Unbuilt) ⊎ (stop ≡ Cache) ⊎ (stop ≡ Output)) }
{
    if !are_apart(alloc, files)? {
        return Err(Stop::Unbuilt);
    }
    write_all(alloc, cache, files)?;
    let text = report_of(alloc, entries, others, counts)?;
    write_text(out, &text)?;
    Ok(())
}

/// What a run counts over these tables that published so many products.
fn counts(tables: &Tables, published: usize) -> Counts
    ensures { result ≡ record {
      sources = length tables.now.sources.items;
      jobs = length tables.now.jobs.items;
      done = length tables.now.jobs.items;
      published = published;
      shadowed = 0;
      wrote = published;
      removed = 0;
    } }
{
    let jobs = tables.jobs.len();
    Counts {
        sources: tables.sources.len(),
        jobs,
        done: jobs,
        published,
        shadowed: 0,
        wrote: published,
        removed: 0,
    }
}
