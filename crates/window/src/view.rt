// What is asked of the window, and a window: how large it is and where it lies. Assumes nothing.
ghost use Rattle.std.specs.Prelude.{◌≡◌};
ghost use Rattle.window.specs.View as Asked;

#[derive(Clone, Copy, Debug, PartialEq, Eq)]
pub struct Window {
    pub width: u64,
    pub height: u64,
    pub x: i64,
    pub y: i64,
}

// Whether bestfit is wanted, and the viewport that is given, if one is.
#[derive(Clone, Copy)]
pub struct View {
    pub bestfit: bool,
    pub viewport: Option<Window>,
}

impl View {
    // By a call's numbers, in which a viewport's are there where none is given too.
    pub fn of_numbers(bestfit: u64, viewport: u64, asked: Window) -> View
        ensures { result ≡ Asked.view_by bestfit viewport asked }
    {
        View {
            bestfit: yes(bestfit),
            viewport: yes(viewport).then_some(asked),
        }
    }
}

// Of bestfit and viewport: 0 is no, anything else yes.
pub fn yes(n: u64) -> bool
    ensures { result ≡ Asked.yes n }
{
    n != 0
}
