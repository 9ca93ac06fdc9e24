//! The published products, in an order in which one is found by its platform and id.
ghost use Rattle.std.specs.Prelude.{◌≡◌, None, Some, map, find, length, IfOk, MatchOption};
ghost use Rattle.std.specs.Arc.{arc_value};
ghost use Rattle.ap_handles.specs.Machine.{is_of};
ghost use Rattle.ap_handles.specs.Publishing.{AreDistinct};
ghost use Rattle.std.specs.List.Sorted.{IsPermutation, IsSortedBy, IsSearchInRange, IsBinarySearchResult};
ghost use Rattle.ap_handles.specs.Index.{key, key_of, key_cmp, is_below};

use crate::entry::HallEntry;
use ap_text::{AssetId, OutOfMemory, Platform};
use std::alloc::Global;
use std::cmp::Ordering;
use std::marker::Model;
use std::snapshot::Snapshot;
use std::sync::Arc;

/// Products with different platforms and ids, which contracts see as the list that was published.
#[derive(Drop)]
pub(crate) struct Products {
    by_key: Vec<Arc<HallEntry>>,
    published: Snapshot<Vec<HallEntry>>,
}

impl Model for Products {
    ghost use Rattle.std.specs.Prelude.{List};
    ghost use Rattle.ap_handles.specs.declared.entry.HallEntry.{HallEntry};
    ghost use Rattle.std.specs.Arc.{arc_value};
    ghost use Rattle.ap_handles.specs.Index.{IsIndexOf};

    ghost Value = { List HallEntry };

    ghost view = { λ p. p.published.value.items };

    ghost invariant = { λ p. IsIndexOf arc_value p.published.value.items p.by_key.items };
}

impl Products {
    /// The products of a publication. No bytes are copied.
    pub(crate) fn of(alloc: Global, entries: Vec<HallEntry>) -> Result<Products, OutOfMemory>
        requires { AreDistinct entries.items }
        ensures { IfOk result (λ products. products ≡ entries.items) }
    {
        let published = Snapshot::of(&entries);
        let mut by_key = share(alloc, entries)?;
        sort(&mut by_key);
        Ok(Products { by_key, published })
    }

    pub(crate) fn len(&self) -> usize
        ensures { result ≡ length self.now }
    {
        self.by_key.len()
    }

    /// The product of a platform and an id, in at most log n comparisons.
    pub(crate) fn find(&self, platform: &Platform, id: AssetId) -> Option<&Arc<HallEntry>>
        ensures { MatchOption result (find (is_of platform.now id) self.now ≡ None) (λ product. find (is_of platform.now id) self.now ≡ Some (arc_value product.now)) }
    {
        match search(&self.by_key, platform, id) {
            Ok(at) => Some(&self.by_key[at]),
            Err(_) => None,
        }
    }
}

// Each entry by itself, so that a handle keeps no other.
fn share(alloc: Global, entries: Vec<HallEntry>) -> Result<Vec<Arc<HallEntry>>, OutOfMemory>
    ensures { IfOk result (λ shared. map arc_value shared.items ≡ entries.items) }
{
    let mut shared = Vec::with_capacity(alloc, entries.len())?;
    for entry in entries {
        shared.push(Arc::new(alloc, entry)?)?;
    }
    Ok(shared)
}

fn sort(products: &mut Vec<Arc<HallEntry>>)
    ensures same { IsPermutation products.old.items products.new.items }
    ensures sorted { IsSortedBy (λ a b. is_below (arc_value a) (arc_value b)) products.new.items }
{
    products.sort_unstable_by(|a, b| key_order(a, &b.platform, b.id));
}

// Where the product of a platform and an id stands, or where it would.
fn search(products: &[Arc<HallEntry>], platform: &Platform, id: AssetId) -> Result<usize, usize>
    ensures range { IsSearchInRange result (length products.now) }
    ensures found { IsBinarySearchResult (λ product. key_cmp (key_of (arc_value product)) (key platform.now id)) products.now result }
{
    products.binary_search_by(|product| key_order(product, platform, id))
}

// The order of products: by platform, then by UUID, then by sub id.
fn key_order(entry: &HallEntry, platform: &Platform, id: AssetId) -> Ordering
    ensures { result ≡ key_cmp (key_of entry.now) (key platform.now id) }
{
    let by_platform = entry.platform.as_slice().cmp(platform.as_slice());
    let by_uuid = entry.id.uuid.as_slice().cmp(id.uuid.as_slice());
    by_platform.then(by_uuid.then(entry.id.sub.cmp(&id.sub)))
}
