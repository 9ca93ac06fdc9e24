ghost use Rattle.std.specs.Prelude.{◌≡◌, IfOk};
ghost use Rattle.ap_cli.specs.Refusals.{unconfigured_words};

use ap_config::ConfigFault;
use ap_text::OutOfMemory;
use std::alloc::Global;

/// Why a file says no configuration.
#[derive(Debug, Drop)]
pub enum Unconfigured {
    /// There is no such file.
    NoFile,
    /// It has more than 4,194,304 bytes.
    LargeFile,
    /// Its text is refused.
    Refused(ConfigFault),
}

impl Unconfigured {
    /// The words for it in the line of a refusal.
    pub fn words(&self, alloc: Global) -> Result<Vec<u8>, OutOfMemory>
        ensures { IfOk result (λ words. words.items ≡ unconfigured_words self.now) }
    {
        match self {
            Unconfigured::NoFile => Ok(b"absent".to_vec(alloc)?),
            Unconfigured::LargeFile => Ok(b"too large".to_vec(alloc)?),
            Unconfigured::Refused(fault) => Ok(fault.to_string(alloc)?.into_bytes()),
        }
    }
}
