ghost use Rattle.std.specs.Prelude.{◌≡◌};
ghost use Rattle.survey.specs.Numbers.{survey_number};
ghost use Rattle.survey.specs.declared.refusals.SurveyRefusal.TheVariants.{PoolFull};

use crate::search::Exhausted;

// Why a call on a survey, or sealing, is refused, by its number in the kit's table.
#[derive(Clone, Copy, PartialEq, Eq, Debug)]
pub enum SurveyRefusal {
    // no such node
    NoSuchNode = 7,
    // a line list or a pool of another length than at opening or sealing
    OtherLength = 12,
    // a pool of fewer records than nodes, or of more than 65,535
    PoolSize = 25,
    // the radius is 16
    RadiusFull = 26,
    // the balls of the next radius, summed over all nodes, outnumber the pool's records
    PoolFull = 27,
    // the shell is beyond the radius
    BeyondRadius = 28,
    // the shell has no more members than asked for
    NoSuchMember = 29,
}

impl SurveyRefusal {
    // The number that the refusal has in the kit's table: outside the kit refusals are kept and told by number.
    pub fn number(self) -> u8
        ensures { result ≡ survey_number self }
    {
        self as u8
    }
}

// Written by hand, and so is its clause: it names the variant that `?` makes.
impl From<Exhausted> for SurveyRefusal {
    ghost from_gives = { λ _ e. e ≡ PoolFull };

    fn from(_e: Exhausted) -> SurveyRefusal {
        SurveyRefusal::PoolFull
    }
}
