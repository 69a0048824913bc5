//! The calls of sessions on keys.
ghost use Rattle.std.specs.Prelude.{◌≡◌, ◌<◌, length, OnErr};
ghost use Rattle.group.specs.Model.Groups.{session_at};
ghost use Rattle.group.specs.Model.Calls.{IsStep, put_value};
ghost use Rattle.group.specs.Model.Events as call;
ghost use Rattle.group.specs.Parts.{view};

use super::GroupParts;
use crate::place::Place;
use crate::shown::Shown;
use servers::value::Value;
use stamps::clock_rule::ClockRule;
use stamps::mark_kind::MarkKind;
use stamps::refusal::Refusal;
use stamps::stamp::Stamp;

impl<C: ClockRule, K: MarkKind> GroupParts<C, K> {
    // A new version of a key, made at the session's server. Its value comes as numbers, since they are judged after the
    // session.
    pub(crate) fn put(
        &mut self,
        session: u8,
        key: u16,
        kind: u8,
        amount: u32,
    ) -> Result<Stamp, Refusal>
        ensures step { IsStep C.answer K.kind (view self.old) (call.put session key kind amount) result
            (view self.new) }
        ensures keeps { OnErr result (view self.new ≡ view self.old) }
    {
        if !self.has_session(session) {
            return Err(Refusal::NoSession);
        }
        let value = Value::new(kind, amount)?;
        self.put_value(session, key, value)
    }

    // A put of a lawful value by a session that was opened. The session depends from then on on the new version.
    fn put_value(&mut self, number: u8, key: u16, value: Value) -> Result<Stamp, Refusal>
        requires { number < length (view self.old).sessions }
        ensures step { let session = session_at (view self.old) number in
            (result, view self.new) ≡ put_value C.answer K.kind (view self.old) number key session (Ok value) }
        ensures keeps { OnErr result (view self.new ≡ view self.old) }
    {
        let session = self.session_at(number);
        let place = Place {
            site: session.site,
            partition: self.layout.partition_of(key),
        };
        let depends = K::floor(session.depends);
        let version = self.write(place, key, value, depends, K::floor(session.knows))?;
        self.depend(number, &version);
        Ok(version.stamp())
    }

    // The latest version of a key that the session's server shows, or none.
    pub(crate) fn get(&mut self, session: u8, key: u16) -> Result<Option<Shown>, Refusal>
        ensures step { IsStep C.answer K.kind (view self.old) (call.get session key) result (view self.new) }
        ensures keeps { OnErr result (view self.new ≡ view self.old) }
    {
        if !self.has_session(session) {
            return Err(Refusal::NoSession);
        }
        let partition = self.layout.partition_of(key);
        let place = self.learn(session, partition);
        let Some(index) = self.server(place).latest_visible(key) else {
            return Ok(None);
        };
        Ok(Some(self.show(session, place, index)))
    }
}
