ghost use Rattle.std.specs.Prelude.{◌≡◌};
ghost use Rattle.report.specs.declared.shown.NotShown.TheVariants.{OutOfMemory, Refused};

use sheet::SheetFault;
use std::alloc::AllocError;

// Why there is no net to show.
#[derive(Debug, Drop)]
pub enum NotShown {
    // reading the sheet is refused
    Refused(SheetFault),
    // no memory for the text
    OutOfMemory(AllocError),
}

// By hand, since the clause of `show` names the variant that a `?` makes.
impl From<SheetFault> for NotShown {
    ghost from_gives = { λ f r. r ≡ Refused f };

    fn from(fault: SheetFault) -> NotShown {
        NotShown::Refused(fault)
    }
}

impl From<AllocError> for NotShown {
    ghost from_gives = { λ e r. r ≡ OutOfMemory e };

    fn from(error: AllocError) -> NotShown {
        NotShown::OutOfMemory(error)
    }
}
