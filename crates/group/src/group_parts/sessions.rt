//! The sessions of a group.
ghost use Rattle.std.specs.Prelude.{◌≡◌, ◌<◌, length, nat_lt, slice_get, OnErr};
ghost use Rattle.group.specs.Model.Calls.{IsStep, learn, depend, show};
ghost use Rattle.group.specs.Model.Events as call;
ghost use Rattle.group.specs.Model.Groups.{with_session, session_at};
ghost use Rattle.group.specs.Parts.{server_at, view};

use super::GroupParts;
use crate::partition::Partition;
use crate::place::Place;
use crate::session::Session;
use crate::shown::Shown;
use servers::version::Version;
use stamps::clock_rule::ClockRule;
use stamps::mark_kind::MarkKind;
use stamps::refusal::Refusal;

impl<C: ClockRule, K: MarkKind> GroupParts<C, K> {
    // A new session at a site. Its number is how many were opened before it.
    pub(crate) fn open_session(&mut self, site: u8) -> Result<u8, Refusal>
        ensures step { IsStep C.answer K.kind (view self.old) (call.open_session site) result (view self.new) }
        ensures keeps { OnErr result (view self.new ≡ view self.old) }
    {
        let site = self.layout.site(site)?;
        let number = self.sessions.len() as u8;
        self.sessions
            .try_push(Session::new(site))
            .map_err(|_| Refusal::NoneFree)?;
        Ok(number)
    }

    // Whether a session of this number was opened.
    pub(crate) fn has_session(&self, number: u8) -> bool
        ensures { result ≡ nat_lt number (length (view self.now).sessions) }
    {
        (number as usize) < self.sessions.len()
    }

    // The session of a number.
    pub(crate) fn session_at(&self, number: u8) -> Session
        requires { number < length (view self.now).sessions }
        ensures value { result ≡ session_at (view self.now) number }
        ensures inside { result.site < (view self.now).sites }
    {
        self.sessions.as_slice()[number as usize]
    }

    // The session of a number is replaced.
    pub(crate) fn set_session(&mut self, number: u8, session: Session)
        requires opened { number < length (view self.old).sessions }
        requires inside { session.site < (view self.old).sites }
        ensures { view self.new ≡ with_session (view self.old) number session }
    {
        self.sessions[number as usize] = session;
    }

    // A session's server hears what the session knows, and the session knows its stable mark from then on. Answers
    // where the server stands.
    pub(crate) fn learn(&mut self, number: u8, partition: Partition) -> Place
        requires { number < length (view self.old).sessions }
        ensures place { result ≡ ((session_at (view self.old) number).site, partition) }
        ensures state { view self.new ≡ learn K.kind (view self.old) number
            (session_at (view self.old) number) partition }
    {
        let session = self.session_at(number);
        let place = Place {
            site: session.site,
            partition,
        };
        self.raise(place, K::floor(session.knows));
        let knows = self.server(place).stable();
        self.set_session(number, Session { knows, ..session });
        place
    }

    // A session depends from then on on a version too.
    pub(crate) fn depend(&mut self, number: u8, version: &Version)
        requires { number < length (view self.old).sessions }
        ensures { view self.new ≡ depend K.kind (view self.old) number version.now }
    {
        let session = self.session_at(number);
        let depends = K::row(K::join(K::floor(session.depends), version.full_mark::<K>()));
        self.set_session(number, Session { depends, ..session });
    }

    // What is shown of the version that stands at an index of a server. The session depends on it from then on.
    pub(crate) fn show(&mut self, session: u8, place: Place, index: usize) -> Shown
        requires opened { session < length (view self.old).sessions }
        requires inside { place.0 < (view self.old).sites }
        requires held { index < length (server_at (view self.old) place).held }
        ensures { let found = slice_get (server_at (view self.old) place).held index in
            (Ok (Some result), view self.new) ≡ show K.kind (view self.old) session found }
    {
        let version = self.server(place).versions()[index];
        self.depend(session, &version);
        Shown::from(&version)
    }
}
