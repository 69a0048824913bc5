//! One client's sequence of calls.
ghost use Rattle.std.specs.Prelude.{◌≡◌};
ghost use Rattle.group.specs.Model.Groups.{new_session};

use stamps::row::Row;
use stamps::site::Site;
use stamps::stamp::Stamp;
use std::marker::Model;

/// A session at a site. `depends` stands for what it has put and was shown, `knows` for the stable marks that it has
/// met; both are kept as the rows of their marks, so that a session is not generic.
#[derive(Clone, Copy, Debug, Default)]
pub(crate) struct Session {
    pub(crate) site: Site,
    pub(crate) depends: Row,
    pub(crate) knows: Row,
}

// In clauses a session is the model's.
impl Model for Session {
    ghost use Rattle.group.specs.Model.Groups.{SessionState};

    ghost Value = { SessionState };

    ghost view = { λ x. record { site = x.site; depends = x.depends; knows = x.knows } };

    ghost inverse = { λ x. record { site = x.site; depends = x.depends; knows = x.knows } };
}

impl Session {
    /// A session as it is opened.
    pub(crate) fn new(site: Site) -> Session
        ensures { result ≡ new_session site }
    {
        let zero = Row::same(Stamp::zero());
        Session {
            site,
            depends: zero,
            knows: zero,
        }
    }
}
