//! The walk over a parsed text, key after key, up to the first that is unknown or of a wrong kind.
ghost use Rattle.std.specs.Prelude.{◌≡◌, ◌≢◌, pos, option_copied, option_map};
ghost use Rattle.toml.specs.View.{view, table_view};
ghost use Rattle.ap_config.specs.Configuration.{Answers, text_at, number_at, texts_at, list_at, folder_at, builder_at, values_of, no_folder_keys, put_folder_key, folder_of_keys, no_builder_keys, put_builder_key, builder_of_keys, no_values, put_key};
ghost use Rattle.ap_config.specs.declared.fault.ConfigFault.TheVariants.{OutOfMemory, WrongKind, UnknownKey};

use crate::fault::ConfigFault;
use crate::text::Text;
use crate::values::{BuilderKeys, BuilderValues, FolderKeys, FolderValues, Values};
use ap_text::List;
use std::alloc::Global;
use toml::{Table, Value};

/// The fault of a key whose value is of another kind.
fn wrong_kind(alloc: Global, key: &str) -> ConfigFault
    ensures { result ≢ OutOfMemory → result ≡ WrongKind key.now }
{
    match Text::read(alloc, key) {
        Ok(name) => ConfigFault::WrongKind { name },
        Err(_) => ConfigFault::OutOfMemory,
    }
}

fn unknown_key(alloc: Global, key: &str) -> ConfigFault
    ensures { result ≢ OutOfMemory → result ≡ UnknownKey key.now }
{
    match Text::read(alloc, key) {
        Ok(name) => ConfigFault::UnknownKey { name },
        Err(_) => ConfigFault::OutOfMemory,
    }
}

fn read_text(alloc: Global, key: &str, value: &Value) -> Result<Text, ConfigFault>
    ensures { Answers (text_at key.now (view value.now)) result }
{
    match value.as_str() {
        Some(text) => Ok(Text::read(alloc, text)?),
        None => Err(wrong_kind(alloc, key)),
    }
}

fn read_number(alloc: Global, least: u32, key: &str, value: &Value) -> Result<u32, ConfigFault>
    ensures { Answers (number_at least key.now (view value.now)) result }
{
    let number = match value.as_integer() {
        Some(number) => u32::try_from(number).ok(),
        None => None,
    };
    match number {
        Some(number) if least <= number => Ok(number),
        _ => Err(wrong_kind(alloc, key)),
    }
}

fn read_texts(alloc: Global, key: &str, value: &Value) -> Result<List<Text>, ConfigFault>
    ensures { Answers (texts_at key.now (view value.now)) result }
{
    let Some(items) = value.as_array() else {
        return Err(wrong_kind(alloc, key));
    };
    let mut texts = Vec::with_capacity(alloc, items.len())?;
    let mut rest = items.as_slice();
    while let [item, after @ ..] = rest {
        texts.push(read_text(alloc, key, item)?)?;
        rest = after;
    }
    Ok(List::of(texts))
}

fn read_folders(alloc: Global, key: &str, value: &Value) -> Result<List<FolderValues>, ConfigFault>
    ensures { Answers (list_at key.now folder_at (view value.now)) result }
{
    let Some(items) = value.as_array() else {
        return Err(wrong_kind(alloc, key));
    };
    let mut folders = Vec::with_capacity(alloc, items.len())?;
    let mut rest = items.as_slice();
    while let [item, after @ ..] = rest {
        folders.push(read_folder(alloc, item)?)?;
        rest = after;
    }
    Ok(List::of(folders))
}

fn read_builders(
    alloc: Global,
    key: &str,
    value: &Value,
) -> Result<List<BuilderValues>, ConfigFault>
    ensures { Answers (list_at key.now builder_at (view value.now)) result }
{
    let Some(items) = value.as_array() else {
        return Err(wrong_kind(alloc, key));
    };
    let mut builders = Vec::with_capacity(alloc, items.len())?;
    let mut rest = items.as_slice();
    while let [item, after @ ..] = rest {
        builders.push(read_builder(alloc, item)?)?;
        rest = after;
    }
    Ok(List::of(builders))
}

fn read_folder(alloc: Global, value: &Value) -> Result<FolderValues, ConfigFault>
    ensures { Answers (folder_at (view value.now)) result }
{
    let Some(table) = value.as_table() else {
        return Err(wrong_kind(alloc, "folder"));
    };
    let mut keys = FolderKeys::none(alloc);
    for (key, value) in table {
        keys = keys.put(alloc, key, value)?;
    }
    keys.complete(alloc)
}

fn read_builder(alloc: Global, value: &Value) -> Result<BuilderValues, ConfigFault>
    ensures { Answers (builder_at (view value.now)) result }
{
    let Some(table) = value.as_table() else {
        return Err(wrong_kind(alloc, "builder"));
    };
    let mut keys = BuilderKeys::none();
    for (key, value) in table {
        keys = keys.put(alloc, key, value)?;
    }
    keys.complete(alloc)
}

/// The values of a parsed text.
pub(crate) fn read_values(alloc: Global, table: &Table) -> Result<Values, ConfigFault>
    ensures { Answers (values_of (table_view table.now)) result }
{
    let mut values = Values::none(alloc);
    for (key, value) in table {
        values = values.put(alloc, key, value)?;
    }
    Ok(values)
}

impl FolderKeys {
    fn none(alloc: Global) -> FolderKeys
        ensures { result ≡ no_folder_keys }
    {
        FolderKeys {
            order: None,
            path: None,
            exclude: List::of(Vec::new(alloc)),
        }
    }

    fn put(self, alloc: Global, key: &str, value: &Value) -> Result<FolderKeys, ConfigFault>
        ensures { Answers (put_folder_key key.now (view value.now) self) result }
    {
        if key == "exclude" {
            let exclude = read_texts(alloc, key, value)?;
            Ok(FolderKeys { exclude, ..self })
        } else if key == "order" {
            let order = Some(read_number(alloc, 0, key, value)?);
            Ok(FolderKeys { order, ..self })
        } else if key == "path" {
            let path = Some(read_text(alloc, key, value)?);
            Ok(FolderKeys { path, ..self })
        } else {
            Err(unknown_key(alloc, key))
        }
    }

    fn complete(self, alloc: Global) -> Result<FolderValues, ConfigFault>
        ensures { Answers (folder_of_keys self) result }
    {
        let FolderKeys {
            order,
            path,
            exclude,
        } = self;
        let Some(order) = order else {
            return Err(wrong_kind(alloc, "order"));
        };
        let Some(path) = path else {
            return Err(wrong_kind(alloc, "path"));
        };
        Ok(FolderValues {
            order,
            path,
            exclude,
        })
    }
}

impl BuilderKeys {
    fn none() -> BuilderKeys
        ensures { result ≡ no_builder_keys }
    {
        BuilderKeys {
            name: None,
            patterns: None,
            version: None,
        }
    }

    fn put(self, alloc: Global, key: &str, value: &Value) -> Result<BuilderKeys, ConfigFault>
        ensures { Answers (put_builder_key key.now (view value.now) self) result }
    {
        if key == "name" {
            let name = Some(read_text(alloc, key, value)?);
            Ok(BuilderKeys { name, ..self })
        } else if key == "patterns" {
            let patterns = Some(read_texts(alloc, key, value)?);
            Ok(BuilderKeys { patterns, ..self })
        } else if key == "version" {
            let version = Some(read_number(alloc, 1, key, value)?);
            Ok(BuilderKeys { version, ..self })
        } else {
            Err(unknown_key(alloc, key))
        }
    }

    fn complete(self, alloc: Global) -> Result<BuilderValues, ConfigFault>
        ensures { Answers (builder_of_keys self) result }
    {
        let BuilderKeys {
            name,
            patterns,
            version,
        } = self;
        let Some(name) = name else {
            return Err(wrong_kind(alloc, "name"));
        };
        Ok(BuilderValues {
            name,
            patterns,
            version,
        })
    }
}

impl Values {
    fn none(alloc: Global) -> Values
        ensures { result ≡ no_values }
    {
        Values {
            platforms: List::of(Vec::new(alloc)),
            folders: List::of(Vec::new(alloc)),
            builders: List::of(Vec::new(alloc)),
        }
    }

    fn put(self, alloc: Global, key: &str, value: &Value) -> Result<Values, ConfigFault>
        ensures { Answers (put_key key.now (view value.now) self) result }
    {
        if key == "builder" {
            let builders = read_builders(alloc, key, value)?;
            Ok(Values { builders, ..self })
        } else if key == "folder" {
            let folders = read_folders(alloc, key, value)?;
            Ok(Values { folders, ..self })
        } else if key == "platforms" {
            let platforms = read_texts(alloc, key, value)?;
            Ok(Values { platforms, ..self })
        } else {
            Err(unknown_key(alloc, key))
        }
    }
}
