//! Where the check of a pattern's text stands.

ghost use Rattle.std.specs.Prelude.{◌≡◌};
ghost use Rattle.dt_glob.specs.Place.{step_of};

use crate::fault::GlobFault;
use crate::sign::PatternSign;

/// Where the signs read so far lead.
#[derive(Clone, Copy)]
pub(crate) enum PatternPlace {
    /// After whole items.
    Outside,
    /// After the `[` of a set.
    Opened,
    /// After the `[!` of a set.
    Negated,
    /// In a set that has an element already.
    Inside,
}

impl PatternPlace {
    /// Where one more sign leads, or that it ends a set with no element.
    pub(crate) fn step(self, sign: PatternSign) -> Result<PatternPlace, GlobFault>
        ensures { result ≡ step_of self sign }
    {
        match self {
            PatternPlace::Outside => match sign {
                PatternSign::Plain(b'[') => Ok(PatternPlace::Opened),
                _ => Ok(PatternPlace::Outside),
            },
            PatternPlace::Opened => match sign {
                PatternSign::Plain(b']') => Err(GlobFault::EmptySet),
                PatternSign::Plain(b'!') => Ok(PatternPlace::Negated),
                _ => Ok(PatternPlace::Inside),
            },
            PatternPlace::Negated => match sign {
                PatternSign::Plain(b']') => Err(GlobFault::EmptySet),
                _ => Ok(PatternPlace::Inside),
            },
            PatternPlace::Inside => match sign {
                PatternSign::Plain(b']') => Ok(PatternPlace::Outside),
                _ => Ok(PatternPlace::Inside),
            },
        }
    }
}
