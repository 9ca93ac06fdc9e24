//! The values of a configuration, judged by one rule after another.
ghost use Rattle.std.specs.Prelude.{◌≡◌, ◌≢◌, [], not, option_copied};
ghost use Rattle.ap_config.specs.Configuration.{Answers, config_of, orders_differ, builders_of, offer_of, configured, platforms_of, something_in, folder_of, each_value, is_path, is_in_cache_lem, is_platform, is_pattern_lem, are_patterns, next, passes, folders_have_patterns, builders_have_patterns};
ghost use Rattle.ap_config.specs.declared.fault.ConfigFault.TheVariants.{OutOfMemory, UnknownBuilder, BadPlatform, BadPath, BadPattern};

use crate::config::{Config, Folder};
use crate::fault::ConfigFault;
use crate::offer::Offer;
use crate::text::Text;
use crate::values::{BuilderValues, FolderValues, Values};
use ap_text::{Bytes, List, NameFault, PathFault, Platform, RelPath};
use std::alloc::Global;
use std::collections::BTreeSet;

/// The most bytes of a pattern.
const PATTERN_LIMIT: usize = 240;

/// The configuration of the values.
pub(crate) fn judge(
    alloc: Global,
    values: &Values,
    offered: &[Offer],
) -> Result<Config, ConfigFault>
    ensures { Answers (config_of offered.now values.now) result }
{
    check_orders(alloc, values.folders.as_slice())?;
    let builders = make_builders(alloc, offered, values.builders.as_slice())?;
    let platforms = make_platforms(alloc, values.platforms.as_slice())?;
    check_something(values)?;
    let folders = make_folders(alloc, values.folders.as_slice())?;
    check_folder_patterns(alloc, values.folders.as_slice())?;
    check_builder_patterns(alloc, values.builders.as_slice())?;
    Ok(Config {
        platforms,
        folders,
        builders,
    })
}

fn check_orders(alloc: Global, folders: &[FolderValues]) -> Result<(), ConfigFault>
    ensures { Answers (orders_differ [] folders.now) result }
{
    let mut seen = BTreeSet::new(alloc);
    let mut rest = folders;
    while let [folder, after @ ..] = rest {
        let order = folder.order;
        if !seen.insert(order)? {
            return Err(ConfigFault::SameOrder { order });
        }
        rest = after;
    }
    Ok(())
}

fn make_builders(
    alloc: Global,
    offered: &[Offer],
    builders: &[BuilderValues],
) -> Result<List<Offer>, ConfigFault>
    ensures { Answers (builders_of offered.now [] builders.now) result }
{
    let mut made: Vec<Offer> = Vec::new(alloc);
    let mut rest = builders;
    while let [builder, after @ ..] = rest {
        if find_offer(&made, &builder.name).is_some() {
            return Err(unknown_builder(alloc, &builder.name));
        }
        let Some(offer) = find_offer(offered, &builder.name) else {
            return Err(unknown_builder(alloc, &builder.name));
        };
        made.push(make_builder(alloc, builder, offer)?)?;
        rest = after;
    }
    Ok(List::of(made))
}

fn unknown_builder(alloc: Global, name: &Text) -> ConfigFault
    ensures { result ≢ OutOfMemory → result ≡ UnknownBuilder name.now }
{
    match name.copy(alloc) {
        Ok(name) => ConfigFault::UnknownBuilder { name },
        Err(_) => ConfigFault::OutOfMemory,
    }
}

fn find_offer<'a>(offers: &'a [Offer], name: &Text) -> Option<&'a Offer>
    ensures { option_copied result ≡ offer_of offers.now name.now }
{
    let mut rest = offers;
    while let [offer, after @ ..] = rest {
        if offer.name.as_slice() == name.as_slice() {
            return Some(offer);
        }
        rest = after;
    }
    None
}

fn make_builder(alloc: Global, values: &BuilderValues, offer: &Offer) -> Result<Offer, ConfigFault>
    ensures { Answers (Ok (configured values.now offer.now)) result }
{
    let patterns = match &values.patterns {
        Some(texts) => copy_texts(alloc, texts.as_slice())?,
        None => copy_patterns(alloc, offer.patterns.as_slice())?,
    };
    let version = match values.version {
        Some(version) => version,
        None => offer.version,
    };
    Ok(Offer {
        name: offer.name.copy(alloc)?,
        patterns,
        version,
    })
}

fn copy_texts(alloc: Global, texts: &[Text]) -> Result<List<Bytes>, ConfigFault>
    ensures { Answers (Ok texts.now) result }
{
    let mut copies = Vec::with_capacity(alloc, texts.len())?;
    let mut rest = texts;
    while let [text, after @ ..] = rest {
        copies.push(Bytes::of(text.as_slice().to_vec(alloc)?))?;
        rest = after;
    }
    Ok(List::of(copies))
}

fn copy_patterns(alloc: Global, patterns: &[Bytes]) -> Result<List<Bytes>, ConfigFault>
    ensures { Answers (Ok patterns.now) result }
{
    let mut copies = Vec::with_capacity(alloc, patterns.len())?;
    let mut rest = patterns;
    while let [pattern, after @ ..] = rest {
        copies.push(pattern.copy(alloc)?)?;
        rest = after;
    }
    Ok(List::of(copies))
}

fn make_platforms(alloc: Global, texts: &[Text]) -> Result<List<Platform>, ConfigFault>
    ensures { Answers (platforms_of [] texts.now) result }
{
    let mut platforms = Vec::with_capacity(alloc, texts.len())?;
    let mut seen = BTreeSet::new(alloc);
    let mut rest = texts;
    while let [text, after @ ..] = rest {
        let platform = read_platform(alloc, text)?;
        if !seen.insert(Bytes::of(text.as_slice().to_vec(alloc)?))? {
            return Err(bad_platform(alloc, text));
        }
        platforms.push(platform)?;
        rest = after;
    }
    Ok(List::of(platforms))
}

fn read_platform(alloc: Global, text: &Text) -> Result<Platform, ConfigFault>
    ensures { Answers (next (passes (not (is_platform text.now)) (BadPlatform text.now)) (λ _. Ok text.now)) result }
{
    match Platform::read(alloc, text.as_slice()) {
        Ok(platform) => Ok(platform),
        Err(NameFault::Bad) => Err(bad_platform(alloc, text)),
        Err(NameFault::OutOfMemory) => Err(ConfigFault::OutOfMemory),
    }
}

fn bad_platform(alloc: Global, name: &Text) -> ConfigFault
    ensures { result ≢ OutOfMemory → result ≡ BadPlatform name.now }
{
    match name.copy(alloc) {
        Ok(name) => ConfigFault::BadPlatform { name },
        Err(_) => ConfigFault::OutOfMemory,
    }
}

fn check_something(values: &Values) -> Result<(), ConfigFault>
    ensures { Answers (something_in values.now) result }
{
    if values.platforms.as_slice().is_empty()
        || values.folders.as_slice().is_empty()
        || values.builders.as_slice().is_empty()
    {
        return Err(ConfigFault::NothingEnabled);
    }
    Ok(())
}

fn make_folders(alloc: Global, values: &[FolderValues]) -> Result<List<Folder>, ConfigFault>
    ensures { Answers (each_value folder_of values.now) result }
{
    let mut folders = Vec::with_capacity(alloc, values.len())?;
    let mut rest = values;
    while let [folder, after @ ..] = rest {
        folders.push(make_folder(alloc, folder)?)?;
        rest = after;
    }
    Ok(List::of(folders))
}

fn make_folder(alloc: Global, values: &FolderValues) -> Result<Folder, ConfigFault>
    ensures { Answers (folder_of values.now) result }
{
    let path = read_path(alloc, &values.path)?;
    if is_in_cache(values.path.as_str()) {
        return Err(bad_path(alloc, &values.path));
    }
    Ok(Folder {
        order: values.order,
        path,
        exclude: copy_texts(alloc, values.exclude.as_slice())?,
    })
}

fn read_path(alloc: Global, text: &Text) -> Result<RelPath, ConfigFault>
    ensures { Answers (next (passes (not (is_path text.now)) (BadPath text.now)) (λ _. Ok text.now)) result }
{
    match RelPath::read(alloc, text.as_slice()) {
        Ok(path) => Ok(path),
        Err(fault) => Err(path_fault(alloc, fault, text)),
    }
}

fn path_fault(alloc: Global, fault: PathFault, path: &Text) -> ConfigFault
    ensures { result ≢ OutOfMemory → (fault ≢ PathFault.OutOfMemory) × (result ≡ BadPath path.now) }
{
    match fault {
        PathFault::OutOfMemory => ConfigFault::OutOfMemory,
        _ => bad_path(alloc, path),
    }
}

fn bad_path(alloc: Global, path: &Text) -> ConfigFault
    ensures { result ≢ OutOfMemory → result ≡ BadPath path.now }
{
    match path.copy(alloc) {
        Ok(path) => ConfigFault::BadPath { path },
        Err(_) => ConfigFault::OutOfMemory,
    }
}

fn is_in_cache(path: &str) -> bool
    ensures { result ≡ is_in_cache_lem path.now }
{
    let first = match path.split_once('/') {
        Some((first, _)) => first,
        None => path,
    };
    first.eq_ignore_ascii_case("cache")
}

fn check_folder_patterns(alloc: Global, folders: &[FolderValues]) -> Result<(), ConfigFault>
    ensures { Answers (folders_have_patterns folders.now) result }
{
    let mut rest = folders;
    while let [folder, after @ ..] = rest {
        check_patterns(alloc, folder.exclude.as_slice())?;
        rest = after;
    }
    Ok(())
}

fn check_builder_patterns(alloc: Global, builders: &[BuilderValues]) -> Result<(), ConfigFault>
    ensures { Answers (builders_have_patterns builders.now) result }
{
    let mut rest = builders;
    while let [builder, after @ ..] = rest {
        if let Some(patterns) = &builder.patterns {
            check_patterns(alloc, patterns.as_slice())?;
        }
        rest = after;
    }
    Ok(())
}

fn check_patterns(alloc: Global, texts: &[Text]) -> Result<(), ConfigFault>
    ensures { Answers (are_patterns texts.now) result }
{
    let mut rest = texts;
    while let [text, after @ ..] = rest {
        if !is_pattern(text.as_str()) {
            return Err(bad_pattern(alloc, text));
        }
        rest = after;
    }
    Ok(())
}

fn is_pattern(text: &str) -> bool
    ensures { result ≡ is_pattern_lem text.now }
{
    !text.is_empty() && text.len() <= PATTERN_LIMIT
}

fn bad_pattern(alloc: Global, pattern: &Text) -> ConfigFault
    ensures { result ≢ OutOfMemory → result ≡ BadPattern pattern.now }
{
    match pattern.copy(alloc) {
        Ok(pattern) => ConfigFault::BadPattern { pattern },
        Err(_) => ConfigFault::OutOfMemory,
    }
}
