ghost use Rattle.std.specs.Prelude.{◌≡◌, [], ◌∷◌, IfOk, IsTrue, codes};
ghost use Rattle.std.proofs.Common.{refl, arith};
ghost use Rattle.ap_builder.specs.Offers.{is_offered};
ghost use Rattle.ap_builder.specs.Work.{job_of};
ghost use Rattle.ap_config.specs.declared.offer.Offer.{Offer};
ghost use Rattle.ap_builder.specs.declared.work.CreateAnswer.{CreateAnswer};
ghost use Rattle.ap_builder.specs.declared.work.Outcome.{Outcome};

use crate::{
    Bench, Builders, CreateAnswer, CreateInput, Entry, JobInput, Offer, Outcome, Permit, Target,
};
use ap_text::{Bytes, JobId, List, Name, OutOfMemory, Platform, RelPath};
use std::alloc::Global;
use std::test::Fail;

/// One builder, `echo`, that fails with 7 and 9.
#[derive(Drop)]
struct Echo;

#[derive(Drop)]
struct EchoPass;

impl Builders for Echo {
    type Pass = EchoPass;

    ghost declares = { λ _ _ _. [] };

    ghost creates = { λ _ _. CreateAnswer.Failed 7 };

    ghost makes = { λ _. Outcome.Failed 9 };

    ghost offers = { λ _. record { name = codes "echo"; patterns = []; version = 1 } ∷ [] };

    ghost distinct = { λ _. refl };

    ghost patterns = { λ _. (tt, tt) };

    ghost declared = { λ _ _ _. record { each = tt; short = λ _. Prim.omega arith } };

    ghost created = { λ _ _. tt };

    ghost made = { λ _. tt };

    fn offers(&self, alloc: Global) -> Result<Vec<Offer>, OutOfMemory> {
        let mut offers = Vec::new(alloc);
        let Ok(name) = Name::read(alloc, b"echo") else {
            return Err(OutOfMemory);
        };
        offers.push(Offer {
            name,
            patterns: List::of(Vec::new(alloc)),
            version: 1,
        })?;
        Ok(offers)
    }

    fn has(&self, builder: &Name) -> bool {
        builder.as_slice() == b"echo".as_slice()
    }

    fn declare(
        &self,
        alloc: Global,
        _builder: &Name,
        _path: &RelPath,
        _bytes: &[u8],
    ) -> Result<Vec<Target>, OutOfMemory> {
        Ok(Vec::new(alloc))
    }

    fn create(
        &self,
        _alloc: Global,
        _permit: Permit<EchoPass>,
        _builder: &Name,
        _input: &CreateInput,
    ) -> Result<CreateAnswer, OutOfMemory>
        ensures { IfOk result (λ answer. answer ≡ CreateAnswer.Failed 7) }
    {
        Ok(CreateAnswer::Failed(7))
    }

    fn process(
        &self,
        _alloc: Global,
        _permit: Permit<EchoPass>,
        _input: &JobInput,
    ) -> Result<Outcome, OutOfMemory>
        ensures { IfOk result (λ outcome. outcome ≡ Outcome.Failed 9) }
    {
        Ok(Outcome::Failed(9))
    }
}

/// Asks a builder to create the jobs of a source, with a permit of the bench.
fn create<B: Builders>(
    alloc: Global,
    builders: &B,
    bench: &mut Bench<B::Pass>,
    builder: &Name,
    input: &CreateInput,
) -> Result<CreateAnswer, OutOfMemory>
    requires { IsTrue (is_offered (B.offers builders.now) builder.now) }
{
    let permit = bench.permit(Entry::Create {
        source: input.path.copy(alloc)?,
        builder: builder.copy(alloc)?,
    })?;
    builders.create(alloc, permit, builder, input)
}

/// Asks the builder of a job input to process it, with a permit of the bench.
fn process<B: Builders>(
    alloc: Global,
    builders: &B,
    bench: &mut Bench<B::Pass>,
    input: &JobInput,
) -> Result<Outcome, OutOfMemory>
    requires { IsTrue (is_offered (B.offers builders.now) input.now.builder) }
{
    let job = JobId {
        source: input.path.copy(alloc)?,
        key: input.key.copy(alloc)?,
        platform: input.platform.copy(alloc)?,
    };
    let permit = bench.permit(Entry::Process(job))?;
    builders.process(alloc, permit, input)
}

fn create_input(alloc: Global) -> Result<CreateInput, Fail> {
    let mut platforms = Vec::new(alloc);
    platforms.push(Platform::read(alloc, b"pc")?)?;
    Ok(CreateInput {
        builders: List::of(Vec::new(alloc)),
        platforms: List::of(platforms),
        path: RelPath::read(alloc, b"game/a.txt")?,
        bytes: Bytes::of(b"one".to_vec(alloc)?),
        reached: List::of(Vec::new(alloc)),
    })
}

fn job_input(alloc: Global) -> Result<JobInput, Fail> {
    Ok(JobInput {
        builder: Name::read(alloc, b"echo")?,
        version: 1,
        platform: Platform::read(alloc, b"pc")?,
        key: Name::read(alloc, b"main")?,
        params: Bytes::of(Vec::new(alloc)),
        path: RelPath::read(alloc, b"game/a.txt")?,
        bytes: Bytes::of(b"one".to_vec(alloc)?),
        reached: List::of(Vec::new(alloc)),
        handed: List::of(Vec::new(alloc)),
    })
}

#[test]
fn asks_with_permits_of_the_bench(rt: HostRuntime) -> Result<(), Fail> {
    let alloc = rt.alloc();
    let mut bench = Bench::new(alloc, EchoPass);
    let name = Name::read(alloc, b"echo")?;
    assert!(rt; Echo.has(&name));
    let offers = Echo.offers(alloc)?;
    assert_eq!(rt; offers.len(), 1);
    let input = create_input(alloc)?;
    let targets = Echo.declare(alloc, &name, &input.path, input.bytes.as_slice())?;
    assert_eq!(rt; targets.len(), 0);
    let answer = create(alloc, &Echo, &mut bench, &name, &input)?;
    assert!(rt; matches!(&answer, CreateAnswer::Failed(7)));
    Ok(())
}

#[test]
fn lists_what_was_asked(rt: HostRuntime) -> Result<(), Fail> {
    let alloc = rt.alloc();
    let mut bench = Bench::new(alloc, EchoPass);
    let input = job_input(alloc)?;
    assert!(rt; Echo.has(&input.builder));
    let outcome = process(alloc, &Echo, &mut bench, &input)?;
    assert!(rt; matches!(&outcome, Outcome::Failed(9)));
    let permit = bench.permit(Entry::Create {
        source: RelPath::read(alloc, b"a")?,
        builder: Name::read(alloc, b"echo")?,
    })?;
    let copy = permit.entry().copy(alloc)?;
    assert!(rt; matches!(&copy, Entry::Create { .. }));
    assert_eq!(rt; bench.issued().len(), 2);
    assert!(rt; matches!(bench.issued().first(), Some(Entry::Process(_))));
    Ok(())
}
