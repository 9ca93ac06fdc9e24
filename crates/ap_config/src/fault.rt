ghost use Rattle.std.specs.Prelude.{◌≡◌, ◌≢◌, Some};
ghost use Rattle.ap_config.specs.Faults.{fault_words};
ghost use Rattle.ap_config.specs.declared.fault.ConfigFault.{ConfigFault};
ghost use Rattle.ap_config.specs.declared.fault.ConfigFault.TheVariants.{OutOfMemory};

use crate::text::Text;
use ap_text::OutOfMemory;
use std::alloc::{AllocError, AllocFailed, Global};
use std::error::Error;
use std::fmt;

/// Why the text of a configuration is refused. `Display` writes it in the words of a refusal's line.
#[derive(Debug, Drop)]
pub enum ConfigFault {
    /// The bytes are no TOML.
    NotToml,
    /// A table has a key that means nothing there.
    UnknownKey { name: Text },
    /// The value of a key is of another kind or out of its range, or a required key is absent.
    WrongKind { name: Text },
    /// A folder has the order of an earlier one.
    SameOrder { order: u32 },
    /// A builder isn't offered, or stands a second time.
    UnknownBuilder { name: Text },
    /// A platform is outside the grammar, or stands a second time.
    BadPlatform { name: Text },
    /// There is no platform, no folder or no builder.
    NothingEnabled,
    /// The path of a folder is outside the grammar, or lies in the folder `Cache`.
    BadPath { path: Text },
    /// A pattern is empty or longer than 240 bytes.
    BadPattern { pattern: Text },
    OutOfMemory,
}

impl From<AllocError> for ConfigFault {
    ghost from_gives = { λ _ fault. fault ≡ OutOfMemory };

    fn from(_error: AllocError) -> ConfigFault {
        ConfigFault::OutOfMemory
    }
}

impl<T: Drop> From<AllocFailed<T>> for ConfigFault {
    ghost from_gives = { λ _ fault. fault ≡ OutOfMemory };

    fn from(_error: AllocFailed<T>) -> ConfigFault {
        ConfigFault::OutOfMemory
    }
}

impl From<OutOfMemory> for ConfigFault {
    ghost from_gives = { λ _ fault. fault ≡ OutOfMemory };

    fn from(_error: OutOfMemory) -> ConfigFault {
        ConfigFault::OutOfMemory
    }
}

impl fmt::Display for ConfigFault {
    ghost output = { λ fault. Some (fault_words fault) };

    fn fmt<W: fmt::Write>(&self, f: &mut fmt::Formatter<W>) -> fmt::Result {
        match self {
            ConfigFault::NotToml => f.write_str("not toml"),
            ConfigFault::UnknownKey { name } => write!(f, "unknown key {name}"),
            ConfigFault::WrongKind { name } => write!(f, "wrong kind {name}"),
            ConfigFault::SameOrder { order } => write!(f, "same order {order}"),
            ConfigFault::UnknownBuilder { name } => write!(f, "unknown builder {name}"),
            ConfigFault::BadPlatform { name } => write!(f, "bad platform {name}"),
            ConfigFault::NothingEnabled => f.write_str("nothing enabled"),
            ConfigFault::BadPath { path } => write!(f, "bad path {path}"),
            ConfigFault::BadPattern { pattern } => write!(f, "bad pattern {pattern}"),
            ConfigFault::OutOfMemory => f.write_str("out of memory"),
        }
    }
}

impl Error for ConfigFault {}
