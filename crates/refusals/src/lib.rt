// The refusals of a call: a case for each row of document 01's table, and the number that a caller in C gets. Read by
// `arguments`, `fit`, `window`, `policies`, `taps`, `distort`, `dihyravo`, `listing`, `replay` and `probe_fit`; others
// cite its definitions.
#![tactic(auto)]

ghost use Rattle.std.specs.Prelude.{◌≡◌};
ghost use Rattle.refusals.specs.Number.{number};

// Why a call is refused. The first row of the table that applies is the one that a caller is told.
#[derive(Clone, Copy, Debug, PartialEq, Eq)]
pub enum Refusal {
    Size,
    Stock,
    Code,
    Count,
    Number,
    Order,
    Few,
    Degenerate,
    Window,
    Rows,
    Tray,
}

impl Refusal {
    // The row's number, which counts from 1; 0 is no refusal.
    pub fn number(self) -> u64
        ensures { result ≡ number self }
    {
        match self {
            Refusal::Size => 1,
            Refusal::Stock => 2,
            Refusal::Code => 3,
            Refusal::Count => 4,
            Refusal::Number => 5,
            Refusal::Order => 6,
            Refusal::Few => 7,
            Refusal::Degenerate => 8,
            Refusal::Window => 9,
            Refusal::Rows => 10,
            Refusal::Tray => 11,
        }
    }
}
