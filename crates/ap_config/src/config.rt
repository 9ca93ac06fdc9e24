ghost use Rattle.std.specs.Prelude.{◌≡◌, ◌≢◌, Ok, Err, IfOk, IfErr};
ghost use Rattle.toml.specs.View.{table_view};
ghost use Rattle.ap_config.specs.Configuration.{Answers, parsed, config_read};
ghost use Rattle.ap_config.specs.Matching.{matching_lem};

use crate::fault::ConfigFault;
use crate::judge::judge;
use crate::offer::Offer;
use crate::shape::read_values;
use ap_text::{Bytes, List, OutOfMemory, Platform, RelPath, some_matches};
use std::alloc::Global;
use toml::Table;

/// A folder whose files are scanned.
#[derive(Drop)]
pub struct Folder {
    /// Its place: of two files of one folded path, that of the folder of less order wins.
    pub order: u32,
    /// Its path from the root of the project.
    pub path: RelPath,
    /// The patterns of the folded paths in it that are left out.
    pub exclude: List<Bytes>,
}

/// What the text of a configuration says, with what it leaves out as it is offered.
#[derive(Drop)]
pub struct Config {
    /// The platforms that products are made for, in the order of the text.
    pub platforms: List<Platform>,
    pub folders: List<Folder>,
    /// The builders that are asked, each with the patterns and the version that it has here.
    pub builders: List<Offer>,
}

impl Config {
    /// The configuration that the bytes spell in TOML 1.1:
    ///
    /// | Key | Kind | Where it is absent |
    /// |---|---|---|
    /// | `platforms` | list of texts | the empty list |
    /// | `folder` | list of tables | the empty list |
    /// | `folder.order` | integer from 0 to 4,294,967,295 | `WrongKind` |
    /// | `folder.path` | text | `WrongKind` |
    /// | `folder.exclude` | list of texts | the empty list |
    /// | `builder` | list of tables | the empty list |
    /// | `builder.name` | text | `WrongKind` |
    /// | `builder.patterns` | list of texts | the offered patterns |
    /// | `builder.version` | integer from 1 to 4,294,967,295 | the offered version |
    ///
    /// Where several faults apply, the first comes. First the keys of the text are taken in byte order, each
    /// list element by element and each table key by key, and the required keys that a table lacks behind
    /// those that it has. Then the values are judged by the orders of the folders, the names of the
    /// builders, the platforms, that there is some of each, the paths, and the patterns, those of the
    /// folders before those of the builders.
    #[tactic(auto, unfolding(crate::specs::Configuration::config_read))]
    pub fn read(alloc: Global, bytes: &[u8], offered: &[Offer]) -> Result<Config, ConfigFault>
        ensures { Answers (config_read bytes.now offered.now) result }
    {
        let table = parse(alloc, bytes)?;
        let values = read_values(alloc, &table)?;
        judge(alloc, &values, offered)
    }

    /// The places of the builders of which some pattern matches the path, in the order of the list.
    pub fn matching(&self, alloc: Global, path: &RelPath) -> Result<Vec<usize>, OutOfMemory>
        ensures { IfOk result (λ places. places.items ≡ matching_lem self.now.builders path.now) }
    {
        let path = path.as_str();
        let places = self
            .builders
            .as_slice()
            .iter()
            .enumerate()
            .filter(|(_, builder)| some_matches(builder.patterns.as_slice(), path))
            .map(|(place, _)| place)
            .collect(alloc)?;
        Ok(places)
    }
}

fn parse(alloc: Global, bytes: &[u8]) -> Result<Table, ConfigFault>
    ensures ok { IfOk result (λ table. parsed bytes.now ≡ Ok (table_view table)) }
    ensures refused { IfErr result (λ fault. fault ≢ ConfigFault.OutOfMemory → parsed bytes.now ≡ Err fault) }
{
    match toml::table_from_slice(alloc, bytes) {
        Ok(table) => Ok(table),
        Err(error) => {
            if error.is_memory() {
                Err(ConfigFault::OutOfMemory)
            } else {
                Err(ConfigFault::NotToml)
            }
        }
    }
}
