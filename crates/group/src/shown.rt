//! What a get or a read shows of its key.
ghost use Rattle.std.specs.Prelude.{◌≡◌};
ghost use Rattle.group.specs.Model.Calls.{shown_of};

use servers::value::Value;
use servers::version::Version;
use stamps::site::Site;
use stamps::stamp::Stamp;
use std::marker::Model;

/// A version as a client sees it.
#[derive(Clone, Copy, Debug, PartialEq, Eq, Hash)]
pub struct Shown {
    /// The value that was put.
    pub value: Value,
    /// The stamp of the put.
    pub stamp: Stamp,
    /// The site of the put.
    pub source: Site,
}

// In clauses it is the model's.
impl Model for Shown {
    ghost use Rattle.group.specs.Model.Events.{Shown};

    ghost Value = { Shown };

    ghost view = { λ v. record { value = v.value; stamp = v.stamp; source = v.source } };

    ghost inverse = { λ v. record { value = v.value; stamp = v.stamp; source = v.source } };
}

impl From<&Version> for Shown {
    ghost from_gives = { λ version shown. shown ≡ shown_of version.now };

    fn from(version: &Version) -> Shown {
        Shown {
            value: version.value,
            stamp: version.stamp(),
            source: version.source,
        }
    }
}
