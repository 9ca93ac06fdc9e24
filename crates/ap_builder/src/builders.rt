ghost use Rattle.std.specs.Prelude.{◌≡◌, ℕ, List, IsTrue, IfOk};
ghost use Rattle.std.specs.List.{AllByRecursion};
ghost use Rattle.ap_builder.specs.declared.entry.Entry.{Entry};
ghost use Rattle.ap_config.specs.declared.offer.Offer.{Offer};
ghost use Rattle.ap_builder.specs.declared.offer.Target.{Target};
ghost use Rattle.ap_builder.specs.declared.work.CreateInput.{CreateInput};
ghost use Rattle.ap_builder.specs.declared.work.CreateAnswer.{CreateAnswer};
ghost use Rattle.ap_builder.specs.declared.work.JobInput.{JobInput};
ghost use Rattle.ap_builder.specs.declared.work.Outcome.{Outcome};
ghost use Rattle.ap_builder.specs.Offers.{is_offered, has_distinct_names, HasPatterns};
ghost use Rattle.ap_builder.specs.Work.{job_of};
ghost use Rattle.ap_builder.specs.Answers.{DeclaresWell, CreatesFor, MakesWell};

use crate::bench::Permit;
use crate::offer::{Offer, Target};
use crate::work::{CreateAnswer, CreateInput, JobInput, Outcome};
use ap_text::{Name, OutOfMemory, RelPath};
use std::alloc::Global;

/// A set of builders. What they answer is three functions that belong to the type; which builders are
/// offered belongs to the value. The calls that ask for work take a permit of a bench with the mark `Pass`.
pub trait Builders {
    /// The mark of the benches whose permits these builders take.
    type Pass;

    /// The targets that a builder declares for a path and its bytes.
    ghost declares: { List ℕ → List ℕ → List ℕ → List Target };

    /// What a builder answers to a create input.
    ghost creates: { List ℕ → CreateInput → CreateAnswer };

    /// What the builder of a job input makes of it.
    ghost makes: { JobInput → Outcome };

    /// The builders that this value has.
    ghost offers: { Self → List Offer };

    /// All builders that may be configured.
    fn offers(&self, alloc: Global) -> Result<Vec<Offer>, OutOfMemory>
        ensures { IfOk result (λ list. list.items ≡ offers self.now) };

    /// Whether a builder of this name is offered. It takes no memory.
    fn has(&self, builder: &Name) -> bool
        ensures { result ≡ is_offered (offers self.now) builder.now };

    /// What a source of this path and these bytes depends on.
    fn declare(
        &self,
        alloc: Global,
        builder: &Name,
        path: &RelPath,
        bytes: &[u8],
    ) -> Result<Vec<Target>, OutOfMemory>
        requires { IsTrue (is_offered (offers self.now) builder.now) }
        ensures { IfOk result (λ targets. targets.items ≡ declares builder.now path.now bytes.now) };

    /// The jobs of a source.
    fn create(
        &self,
        alloc: Global,
        permit: Permit<Self::Pass>,
        builder: &Name,
        input: &CreateInput,
    ) -> Result<CreateAnswer, OutOfMemory>
        requires offered { IsTrue (is_offered (offers self.now) builder.now) }
        requires permitted { permit ≡ Entry.Create input.now.path builder.now }
        ensures { IfOk result (λ answer. answer ≡ creates builder.now input.now) };

    /// The products of a job.
    fn process(
        &self,
        alloc: Global,
        permit: Permit<Self::Pass>,
        input: &JobInput,
    ) -> Result<Outcome, OutOfMemory>
        requires offered { IsTrue (is_offered (offers self.now) input.now.builder) }
        requires permitted { permit ≡ Entry.Process (job_of input.now) }
        ensures { IfOk result (λ outcome. outcome ≡ makes input.now) };

    /// No two of the offered builders have one name.
    ghost distinct: { (builders : Self) → IsTrue (has_distinct_names (offers builders)) };

    /// Their patterns are in the grammar.
    ghost patterns: { (builders : Self) → AllByRecursion HasPatterns (offers builders) };

    /// Each declared path is folded, each declared pattern is in the grammar, and there are few.
    ghost declared: { (name path bytes : List ℕ) → DeclaresWell bytes (declares name path bytes) };

    /// Each created job is one of the asked builder, for a platform of the input.
    ghost created: { (name : List ℕ) (input : CreateInput) → CreatesFor name input (creates name input) };

    /// Each path that a product names is folded, and its lists are short.
    ghost made: { (input : JobInput) → MakesWell input (makes input) };
}
