//! Runs whose table has two builders.
ghost use Rattle.std.specs.Prelude.{◌≡◌, IfOk, [], ◌∷◌, ◌++◌, bytes_eq, codes, cond};
ghost use Rattle.ap_builder.specs.declared.work.CreateAnswer.{CreateAnswer};
ghost use Rattle.ap_builder.specs.Answers.{CreatesFor};
ghost use Rattle.ap_cli.specs.CopyBuilder.{copy_name, copy_offers, copy_declares, copy_creates, copy_makes};

use super::{has_files, nothing_kept, project, spoken};
use crate::copy_builder::{jobs_for, product_of};
use crate::{CopyPass, run};
use ap_builder::{
    Bench, Builders, CreateAnswer, CreateInput, JobInput, Offer, Outcome, Permit, Target,
};
use ap_text::{List, Name, OutOfMemory, RelPath};
use ap_tree::{MemorySink, MemoryTree, are_distinct};
use std::alloc::Global;
use std::process::Abort;
use std::test::Fail;

/// `copy`, and `note`, which creates no jobs.
#[derive(Drop)]
struct CopyAndNote;

impl Builders for CopyAndNote {
    type Pass = CopyPass;

    ghost declares = { copy_declares };

    ghost creates = { λ builder input. cond (bytes_eq builder copy_name) (copy_creates builder input) (CreateAnswer.Jobs []) };

    ghost makes = { copy_makes };

    ghost offers = { λ _. copy_offers ++ record { name = codes "note"; patterns = []; version = 1 } ∷ [] };

    ghost use Rattle.std.proofs.Common.{refl};
    ghost use Rattle.std.proofs.lemmas.Bool.{cond_both};
    ghost use Rattle.ap_cli.specs.CopyLaws.{copy_patterns, copy_declared, copy_created, copy_made};

    ghost distinct = { λ _. refl };

    ghost patterns = { λ _. (copy_patterns.0, (tt, tt)) };

    ghost declared = { copy_declared };

    ghost created = { λ builder input. cond_both (bytes_eq builder copy_name) (copy_creates builder input) (CreateAnswer.Jobs []) (CreatesFor builder input) (λ _. copy_created builder input) (λ _. tt) };

    ghost made = { copy_made };

    fn offers(&self, alloc: Global) -> Result<Vec<Offer>, OutOfMemory> {
        let mut offers = crate::CopyBuilder.offers(alloc)?;
        let Ok(name) = Name::read(alloc, b"note") else {
            return Err(OutOfMemory);
        };
        offers.push(Offer {
            name,
            patterns: List::of(Vec::new(alloc)),
            version: 1,
        })?;
        Ok(offers)
    }

    fn has(&self, builder: &Name) -> bool {
        builder.as_slice() == b"copy".as_slice() || builder.as_slice() == b"note".as_slice()
    }

    fn declare(
        &self,
        alloc: Global,
        _builder: &Name,
        _path: &RelPath,
        _bytes: &[u8],
    ) -> Result<Vec<Target>, OutOfMemory> {
        Ok(Vec::new(alloc))
    }

    fn create(
        &self,
        alloc: Global,
        _permit: Permit<CopyPass>,
        builder: &Name,
        input: &CreateInput,
    ) -> Result<CreateAnswer, OutOfMemory>
        ensures { IfOk result (λ answer. answer ≡ cond (bytes_eq builder.now copy_name) (copy_creates builder.now input.now) (CreateAnswer.Jobs [])) }
    {
        if builder.as_slice() == b"copy".as_slice() {
            return Ok(CreateAnswer::Jobs(List::of(jobs_for(alloc, builder, input)?)));
        }
        Ok(CreateAnswer::Jobs(List::of(Vec::new(alloc))))
    }

    fn process(
        &self,
        alloc: Global,
        _permit: Permit<CopyPass>,
        input: &JobInput,
    ) -> Result<Outcome, OutOfMemory>
        ensures { IfOk result (λ outcome. outcome ≡ copy_makes input.now) }
    {
        let product = product_of(alloc, input)?;
        Ok(Outcome::Done(List::of(vec![in alloc; product]?)))
    }
}

const COPY_FIRST: &str = "platforms = ['pc']
folder = [{ order = 0, path = 'game' }]
builder = [{ name = 'copy' }, { name = 'note', patterns = ['A.*'] }]
";

const NOTE_FIRST: &str = "platforms = ['pc']
folder = [{ order = 0, path = 'game' }]
builder = [{ name = 'note', patterns = ['A.*'] }, { name = 'copy' }]
";

/// A file that both builders match, and one that `copy` matches alone.
const FILES: &[(&str, &str)] = &[("game/a.txt", "1\n"), ("game/b.txt", "22")];

const MADE: &[(&str, &str)] = &[("pc/a.txt", "1\n"), ("pc/b.txt", "22")];

/// What the runs print, one after another: the rows' order is of the create input of `a.txt`, and of no job input.
const REPORTS: &[(&str, &str)] = &[
    (
        COPY_FIRST,
        "create copy a.txt\ncreate note a.txt\ncreate copy b.txt\nprocess pc copy a.txt\nprocess pc copy b.txt\nsources 2 jobs 2 done 2 published 2 shadowed 0 wrote 2 removed 0\nok\n",
    ),
    (
        COPY_FIRST,
        "sources 2 jobs 2 done 2 published 2 shadowed 0 wrote 2 removed 0\nok\n",
    ),
    (
        NOTE_FIRST,
        "create note a.txt\ncreate copy a.txt\nsources 2 jobs 2 done 2 published 2 shadowed 0 wrote 2 removed 0\nok\n",
    ),
];

#[test]
fn the_builders_of_a_source_are_asked_in_the_order_of_their_rows(
    rt: HostRuntime,
) -> Result<(), Fail> {
    let alloc = rt.alloc();
    let mut kept = nothing_kept(&rt)?;
    for (config, wanted) in REPORTS {
        let words = spoken(alloc, super::BATCH)?;
        let files = project(alloc, config, FILES)?;
        assert!(rt; are_distinct(&files));
        let mut tree = MemoryTree::of(files, Vec::new(alloc));
        let mut bench = Bench::new(alloc, CopyPass);
        let mut out = MemorySink::new(vec![in alloc; 0u8; 4096]?, Vec::new(alloc));
        let status = run(
            alloc,
            &words,
            &mut tree,
            &mut kept.cache,
            &mut kept.store,
            &CopyAndNote,
            &mut bench,
            &mut out,
        );
        assert!(rt; status == 0, "{wanted}: {status}");
        assert!(rt; out.written() == wanted.as_bytes(), "{wanted}");
        assert!(rt; has_files(kept.cache.files(), MADE), "{wanted}");
    }
    Ok(())
}
