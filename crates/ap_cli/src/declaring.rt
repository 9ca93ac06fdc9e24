ghost use Rattle.std.specs.Prelude.{◌≡◌, ◌&&◌, [], ◌∷◌, true, false, IsTrue, IfOk};
ghost use Rattle.std.specs.List.{AllByRecursion, list_any};
ghost use Rattle.ap_text.specs.Wild.{some_matches_lem};
ghost use Rattle.ap_builder.specs.Offers.{is_offered};
ghost use Rattle.ap_sources.specs.Sources.{is_some_item};
ghost use Rattle.ap_engine.specs.Asked.{meanings_of};
ghost use Rattle.ap_cli.specs.Unbuilt.{IsTargeted};

use ap_builder::{Builders, Offer};
use ap_config::Config;
use ap_scan::Winner;
use ap_text::{OutOfMemory, RelPath, Seen, some_matches};
use std::alloc::Global;

/// Whether some builder of a source declares a target for it. The first one that does ends the asking.
pub(crate) fn has_targets<B: Builders>(
    alloc: Global,
    builders: &B,
    config: &Config,
    winners: &[Winner],
) -> Result<bool, OutOfMemory>
    requires { AllByRecursion (λ offer. IsTrue (is_offered (B.offers builders.now) offer.name)) config.now.builders }
    ensures some { IfOk result (λ has. has ≡ true → IsTargeted (meanings_of B.declares B.creates B.makes) config.now winners.now) }
    ensures none { IfOk result (λ has. has ≡ false → ¬ IsTargeted (meanings_of B.declares B.creates B.makes) config.now winners.now) }
{
    let mut rest = winners;
    while let [winner, after @ ..] = rest {
        if is_targeted(alloc, builders, config, winner)? {
            return Ok(true);
        }
        rest = after;
    }
    Ok(false)
}

/// The same of one winner.
fn is_targeted<B: Builders>(
    alloc: Global,
    builders: &B,
    config: &Config,
    winner: &Winner,
) -> Result<bool, OutOfMemory>
    requires { AllByRecursion (λ offer. IsTrue (is_offered (B.offers builders.now) offer.name)) config.now.builders }
    ensures some { IfOk result (λ is. is ≡ true → IsTargeted (meanings_of B.declares B.creates B.makes) config.now (winner.now ∷ [])) }
    ensures none { IfOk result (λ is. is ≡ false → ¬ IsTargeted (meanings_of B.declares B.creates B.makes) config.now (winner.now ∷ [])) }
{
    match &winner.seen {
        Seen::Bytes(bytes) => some_declares(
            alloc,
            builders,
            config.builders.as_slice(),
            &winner.path,
            bytes.as_slice(),
        ),
        Seen::Absent | Seen::TooLarge => Ok(false),
    }
}

/// Whether some of these builders matches the path, and declares a target for it.
fn some_declares<B: Builders>(
    alloc: Global,
    builders: &B,
    offers: &[Offer],
    path: &RelPath,
    bytes: &[u8],
) -> Result<bool, OutOfMemory>
    requires { AllByRecursion (λ offer. IsTrue (is_offered (B.offers builders.now) offer.name)) offers.now }
    ensures { IfOk result (λ some. some ≡ list_any (λ offer. some_matches_lem offer.patterns path.now && is_some_item (B.declares offer.name path.now bytes.now)) offers.now) }
{
    let mut rest = offers;
    while let [offer, after @ ..] = rest {
        if declares(alloc, builders, offer, path, bytes)? {
            return Ok(true);
        }
        rest = after;
    }
    Ok(false)
}

/// Whether a builder matches the path, and declares a target for it.
fn declares<B: Builders>(
    alloc: Global,
    builders: &B,
    offer: &Offer,
    path: &RelPath,
    bytes: &[u8],
) -> Result<bool, OutOfMemory>
    requires { IsTrue (is_offered (B.offers builders.now) offer.now.name) }
    ensures { IfOk result (λ does. does ≡ (some_matches_lem offer.now.patterns path.now && is_some_item (B.declares offer.now.name path.now bytes.now))) }
{
    if !some_matches(offer.patterns.as_slice(), path.as_str()) {
        return Ok(false);
    }
    let targets = builders.declare(alloc, &offer.name, path, bytes)?;
    Ok(!targets.is_empty())
}
