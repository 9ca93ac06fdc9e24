ghost use Rattle.std.specs.Prelude.{◌≡◌};
ghost use Rattle.ap_graph.specs.Waits.{waits_for};

pub(crate) use ap_rows::DepKind;

/// Whether a job waits for a dependency of this kind.
pub(crate) fn waits(kind: DepKind, processed: bool) -> bool
    ensures { result ≡ waits_for kind processed }
{
    match kind {
        DepKind::Order | DepKind::Fingerprint => true,
        DepKind::OrderOnce => !processed,
    }
}
