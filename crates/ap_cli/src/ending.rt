ghost use Rattle.std.specs.Prelude.{◌≡◌};
ghost use Rattle.ap_cli.specs.Lines.{ending_status};

/// How a run ends that wrote its whole report.
#[derive(Clone, Copy, Debug, PartialEq, Eq)]
pub enum Ending {
    /// Without a problem.
    Well,
    /// The report tells of some problem.
    Problems,
}

impl Ending {
    /// The exit status.
    pub fn status(self) -> u8
        ensures { result ≡ ending_status self }
    {
        match self {
            Ending::Well => 0,
            Ending::Problems => 1,
        }
    }
}
