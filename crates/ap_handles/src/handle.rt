//! Handles on published products.
ghost use Rattle.std.specs.Prelude.{◌≡◌};

use crate::entry::HallEntry;
use std::marker::Model;
use std::sync::Arc;

/// A product as it was when it was acquired, whatever is published since. Its bytes are those that were published, and no copy. It can't be dropped: `Hall::release` takes it.
pub struct Handle {
    pub(crate) product: Arc<HallEntry>,
    pub(crate) place: u64,
}

impl Model for Handle {
    ghost use Rattle.std.specs.Arc.{arc_value};
    ghost use Rattle.ap_handles.specs.Held.{Shown};

    ghost Value = { Shown };

    ghost view = { λ h. record { entry = arc_value h.product; place = h.place } };
}

impl Handle {
    pub fn bytes(&self) -> &[u8]
        ensures { result.now ≡ self.now.entry.bytes }
    {
        self.product.bytes.as_slice()
    }

    pub fn path(&self) -> &[u8]
        ensures { result.now ≡ self.now.entry.path }
    {
        self.product.path.as_slice()
    }

    /// The asset type.
    pub fn kind(&self) -> &[u8]
        ensures { result.now ≡ self.now.entry.kind }
    {
        self.product.kind.as_slice()
    }
}
