//! The sources of a run, whose bytes are interned.
ghost use Rattle.std.specs.Prelude.{◌≡◌, ◌∷◌, ◌++◌, [], List, Contains, IfOk, OnOk};
ghost use Rattle.ap_scan.specs.declared.results.Winner.{Winner as TheWinner};
ghost use Rattle.ap_db.specs.Stored.{Stored};
ghost use Rattle.ap_sources.specs.Sources.{is_some_item, matching, sources};
ghost use Rattle.ap_engine.specs.Interned.{AreSourcesOf};
ghost use Rattle.ap_engine.specs.Ledgers.{IsBeside, StayHeld};
ghost use Rattle.ap_engine.specs.Worlds.{IsRead};
ghost use Rattle.ap_engine.specs.declared.source.Source.{Source as TheSource};

use crate::ledger::Ledger;
use crate::source::Source;
use ap_config::Config;
use ap_scan::Winner;
use ap_text::{OutOfMemory as NoMemory, RelPath, Seen, some_matches};
use std::alloc::Global;

/// Whether some builder matches a path.
fn is_matched(config: &Config, path: &RelPath) -> bool
    ensures { result ≡ is_some_item (matching config.now path.now) }
{
    let mut rest = config.builders.as_slice();
    while let [offer, after @ ..] = rest {
        if some_matches(offer.patterns.as_slice(), path.as_str()) {
            return true;
        }
        rest = after;
    }
    false
}

/// Adds the source of a winner, where some builder matches it and it is seen with bytes. The bytes are interned, and
/// then let go.
fn add_source(
    ledger: &mut Ledger,
    config: &Config,
    winner: Winner,
    all: &mut Vec<Source>,
) -> Result<(), NoMemory>
    ensures added { OnOk result ((stored : Stored) → IsBeside ledger.old.db ledger.old.contents stored → IsRead winner
        → (more : List TheSource) × (all.new.items ≡ all.old.items ++ more) × AreSourcesOf ledger.new.db ledger.new.contents more (sources config.now (winner ∷ []))) }
    ensures beside { OnOk result ((stored : Stored) → IsBeside ledger.old.db ledger.old.contents stored → IsBeside ledger.new.db ledger.new.contents stored) }
    ensures stay { OnOk result ((stored : Stored) → IsBeside ledger.old.db ledger.old.contents stored → StayHeld ledger.old.db ledger.old.contents ledger.new.db ledger.new.contents) }
    ensures db { ledger.new.db ≡ ledger.old.db }
{
    if !is_matched(config, &winner.path) {
        return Ok(());
    }
    let Winner {
        path,
        order,
        name,
        seen,
    } = winner;
    let Seen::Bytes(bytes) = seen else {
        return Ok(());
    };
    let content = ledger.intern_source(&path, bytes.as_slice())?;
    all.push(Source {
        path,
        order,
        name,
        content,
    })?;
    Ok(())
}

/// The winners that some builder matches, with the numbers of their bytes. The bytes of each are let go before those
/// of the next are interned.
pub(crate) fn intern_sources(
    alloc: Global,
    ledger: &mut Ledger,
    config: &Config,
    winners: Vec<Winner>,
) -> Result<Vec<Source>, NoMemory>
    ensures interned { IfOk result (λ all. (stored : Stored) → IsBeside ledger.old.db ledger.old.contents stored → ((winner : TheWinner) → Contains winners.items winner → IsRead winner)
        → AreSourcesOf ledger.new.db ledger.new.contents all.items (sources config.now winners.items)) }
    ensures beside { OnOk result ((stored : Stored) → IsBeside ledger.old.db ledger.old.contents stored → IsBeside ledger.new.db ledger.new.contents stored) }
    ensures stay { OnOk result ((stored : Stored) → IsBeside ledger.old.db ledger.old.contents stored → StayHeld ledger.old.db ledger.old.contents ledger.new.db ledger.new.contents) }
    ensures db { ledger.new.db ≡ ledger.old.db }
{
    let mut all = Vec::new(alloc);
    for winner in winners {
        add_source(ledger, config, winner, &mut all)?;
    }
    Ok(all)
}
