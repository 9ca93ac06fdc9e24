ghost use Rattle.std.specs.Prelude.{◌≡◌};
ghost use Rattle.ap_db.specs.declared.fault.DbFault.TheVariants.{OutOfMemory};
ghost use Rattle.ap_engine.specs.declared.fault.EngineFault.TheVariants.{Db};

use ap_db::DbFault;

/// Why the work of a project can't be done.
#[derive(Clone, Copy, Debug, PartialEq, Eq)]
pub enum EngineFault {
    /// The database refuses it, or there is too little memory.
    Db(DbFault),
    /// It needs what isn't built yet: a creation that comes to other than jobs which depend on nothing, or a
    /// job that makes other than one product.
    Unbuilt,
}

impl From<DbFault> for EngineFault {
    ghost from_gives = { λ fault e. e ≡ Db fault };

    fn from(fault: DbFault) -> Self {
        EngineFault::Db(fault)
    }
}

impl From<ap_text::OutOfMemory> for EngineFault {
    ghost from_gives = { λ _ e. e ≡ Db OutOfMemory };

    fn from(_error: ap_text::OutOfMemory) -> Self {
        EngineFault::Db(DbFault::OutOfMemory)
    }
}
