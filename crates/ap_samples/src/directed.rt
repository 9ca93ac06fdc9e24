//! What the four builders with directives declare and create: the same for each, but for its name.
ghost use Rattle.std.specs.Prelude.{◌≡◌, IfOk};
ghost use Rattle.ap_samples.specs.Declaring.{declared_by};
ghost use Rattle.ap_samples.specs.Creating.{created_by};

use crate::creating::create_jobs;
use crate::declaring::targets;
use ap_builder::{CreateAnswer, CreateInput, Target};
use ap_text::{Name, OutOfMemory, RelPath};
use std::alloc::Global;

/// What a source of `flat` depends on: its included files and its patterns, in the order of its lines.
pub fn flat_declare(
    alloc: Global,
    _builder: &Name,
    _path: &RelPath,
    bytes: &[u8],
) -> Result<Vec<Target>, OutOfMemory>
    ensures { IfOk result (λ targets. targets.items ≡ declared_by bytes.now) }
{
    targets(alloc, bytes)
}

/// The jobs of a source of `flat`, one for each platform. The failure 1 where a line is malformed.
pub fn flat_create(
    alloc: Global,
    builder: &Name,
    input: &CreateInput,
) -> Result<CreateAnswer, OutOfMemory>
    ensures { IfOk result (λ answer. answer ≡ created_by builder.now input.now) }
{
    create_jobs(alloc, builder, input)
}

/// What a source of `join` depends on: its included files and its patterns, in the order of its lines.
pub fn join_declare(
    alloc: Global,
    _builder: &Name,
    _path: &RelPath,
    bytes: &[u8],
) -> Result<Vec<Target>, OutOfMemory>
    ensures { IfOk result (λ targets. targets.items ≡ declared_by bytes.now) }
{
    targets(alloc, bytes)
}

/// The jobs of a source of `join`, one for each platform. The failure 1 where a line is malformed.
pub fn join_create(
    alloc: Global,
    builder: &Name,
    input: &CreateInput,
) -> Result<CreateAnswer, OutOfMemory>
    ensures { IfOk result (λ answer. answer ≡ created_by builder.now input.now) }
{
    create_jobs(alloc, builder, input)
}

/// What a source of `index` depends on: its included files and its patterns, in the order of its lines.
pub fn index_declare(
    alloc: Global,
    _builder: &Name,
    _path: &RelPath,
    bytes: &[u8],
) -> Result<Vec<Target>, OutOfMemory>
    ensures { IfOk result (λ targets. targets.items ≡ declared_by bytes.now) }
{
    targets(alloc, bytes)
}

/// The jobs of a source of `index`, one for each platform. The failure 1 where a line is malformed.
pub fn index_create(
    alloc: Global,
    builder: &Name,
    input: &CreateInput,
) -> Result<CreateAnswer, OutOfMemory>
    ensures { IfOk result (λ answer. answer ≡ created_by builder.now input.now) }
{
    create_jobs(alloc, builder, input)
}

/// What a source of `parts` depends on: its included files and its patterns, in the order of its lines.
pub fn parts_declare(
    alloc: Global,
    _builder: &Name,
    _path: &RelPath,
    bytes: &[u8],
) -> Result<Vec<Target>, OutOfMemory>
    ensures { IfOk result (λ targets. targets.items ≡ declared_by bytes.now) }
{
    targets(alloc, bytes)
}

/// The jobs of a source of `parts`, one for each platform. The failure 1 where a line is malformed.
pub fn parts_create(
    alloc: Global,
    builder: &Name,
    input: &CreateInput,
) -> Result<CreateAnswer, OutOfMemory>
    ensures { IfOk result (λ answer. answer ≡ created_by builder.now input.now) }
{
    create_jobs(alloc, builder, input)
}
