// One server: the edges of its values, its table, its outbox and its clock, and what each call refuses.
use servers::peers::Peers;
use servers::server::Server;
use servers::value::Value;
use servers::version::Version;
use stamps::hybrid::Hybrid;
use stamps::one::One;
use stamps::raw::Raw;
use stamps::refusal::Refusal;
use stamps::site::Site;
use stamps::stamp::Stamp;
use std::test::Fail;

fn raw_server() -> Result<Server<Raw, One>, Refusal> {
    Ok(Server::new(Peers::new(Site::try_from(0)?, 2)?))
}

// A server of one of three sites.
fn hybrid_server(site: u8) -> Result<Server<Hybrid, One>, Refusal> {
    Ok(Server::new(Peers::new(Site::try_from(site)?, 3)?))
}

// A price put by a session that has seen nothing.
fn put_price(server: &mut Server<Hybrid, One>, key: u16, cents: u32) -> Result<Version, Refusal> {
    let value = Value::new(1, cents)?;
    server.put(key, value, Stamp::zero(), Stamp::zero())
}

fn refusal_of_value(kind: u8, amount: u32) -> Option<Refusal> {
    Value::new(kind, amount).err()
}

#[test]
fn values_at_the_edges(rt: HostRuntime) -> Result<(), Fail> {
    assert_eq!(rt; refusal_of_value(0, 0), None);
    assert_eq!(rt; refusal_of_value(0, 1), Some(Refusal::Unlawful));
    assert_eq!(rt; Value::new(1, 4_294_967_295)?.amount(), 4_294_967_295);
    assert_eq!(rt; Value::new(2, 10_000)?.amount(), 10_000);
    assert_eq!(rt; refusal_of_value(2, 10_001), Some(Refusal::Unlawful));
    assert_eq!(rt; Value::new(3, 1)?.amount(), 1);
    assert_eq!(rt; refusal_of_value(3, 2), Some(Refusal::Unlawful));
    assert_eq!(rt; refusal_of_value(4, 0), Some(Refusal::Unlawful));
    Ok(())
}

#[test]
fn layouts_have_2_to_4_sites(rt: HostRuntime) -> Result<(), Fail> {
    let (first, third) = (Site::try_from(0)?, Site::try_from(2)?);
    assert_eq!(rt; Peers::new(first, 1).err(), Some(Refusal::BadLayout));
    assert_eq!(rt; Peers::new(first, 2)?.sites(), 2);
    assert_eq!(rt; Peers::new(third, 2).err(), Some(Refusal::NotInLayout));
    assert_eq!(rt; Peers::new(third, 4)?.own().number(), 2);
    assert_eq!(rt; Peers::new(third, 4)?.sites(), 4);
    assert_eq!(rt; Peers::new(third, 5).err(), Some(Refusal::BadLayout));
    Ok(())
}

#[test]
fn readings_never_fall(rt: HostRuntime) -> Result<(), Fail> {
    let mut server = raw_server()?;
    assert_eq!(rt; server.tell(1 << 47), Err(Refusal::Unlawful));
    assert_eq!(rt; server.tell(5), Ok(()));
    assert_eq!(rt; server.tell(4), Err(Refusal::ReadingBehind));
    assert_eq!(rt; server.tell(5), Ok(()));
    Ok(())
}

#[test]
fn a_hybrid_heartbeat_counts_within_a_time(rt: HostRuntime) -> Result<(), Fail> {
    let mut server = hybrid_server(0)?;
    server.tell(100)?;
    let first = server.heartbeat()?;
    assert_eq!(rt; (first.time(), first.count()), (100, 0));
    let second = server.heartbeat()?;
    assert_eq!(rt; (second.time(), second.count()), (100, 1));
    Ok(())
}

#[test]
fn a_raw_heartbeat_waits_for_the_reading(rt: HostRuntime) -> Result<(), Fail> {
    let mut server = raw_server()?;
    assert_eq!(rt; server.heartbeat().err(), Some(Refusal::Early));
    server.tell(5)?;
    let stamp = server.heartbeat()?;
    assert_eq!(rt; (stamp.time(), stamp.count()), (5, 0));
    assert_eq!(rt; server.heartbeat().err(), Some(Refusal::Early));
    Ok(())
}

#[test]
fn the_lead_is_signed(rt: HostRuntime) -> Result<(), Fail> {
    let mut server = hybrid_server(0)?;
    assert_eq!(rt; server.lead(), 0);
    server.tell(100)?;
    assert_eq!(rt; server.lead(), -100);
    server.heartbeat()?;
    assert_eq!(rt; server.lead(), 0);
    Ok(())
}

// The next entry of a server for a site, taken by that site's server.
fn pass(
    from: &mut Server<Hybrid, One>,
    source: u8,
    to: &mut Server<Hybrid, One>,
    taker: u8,
) -> Result<(), Refusal> {
    let Some(entry) = from.next_for(Site::try_from(taker)?) else {
        return Err(Refusal::NothingWaits);
    };
    to.take(Site::try_from(source)?, entry)?;
    from.hand_over(Site::try_from(taker)?);
    Ok(())
}

#[test]
fn an_outbox_holds_16_entries(rt: HostRuntime) -> Result<(), Fail> {
    let mut server = hybrid_server(0)?;
    for _ in 0..16 {
        server.heartbeat()?;
    }
    assert_eq!(rt; server.heartbeat().err(), Some(Refusal::OutboxFull));
    assert_eq!(rt;
        put_price(&mut server, 1, 5).err(),
        Some(Refusal::OutboxFull)
    );
    Ok(())
}

// A clone has what its server has, and goes on apart from it.
#[test]
fn a_clone_goes_on_apart(rt: HostRuntime) -> Result<(), Fail> {
    let mut server = hybrid_server(0)?;
    server.tell(100)?;
    put_price(&mut server, 1, 5)?;
    let mut copy = server.clone()?;
    assert_eq!(rt; copy.versions(), server.versions());
    assert_eq!(rt; copy.lead(), 0);
    let taker = Site::try_from(1)?;
    copy.hand_over(taker);
    assert_eq!(rt; copy.next_for(taker).is_none(), true);
    assert_eq!(rt; server.next_for(taker).is_none(), false);
    put_price(&mut copy, 2, 5)?;
    assert_eq!(rt; (copy.versions().len(), server.versions().len()), (2, 1));
    Ok(())
}

// An entry stays until the slowest of the other sites has taken it.
#[test]
fn the_slowest_site_empties_the_outbox(rt: HostRuntime) -> Result<(), Fail> {
    let mut server = hybrid_server(0)?;
    let (fast, slow) = (Site::try_from(1)?, Site::try_from(2)?);
    for _ in 0..16 {
        server.heartbeat()?;
        server.hand_over(fast);
    }
    assert_eq!(rt; server.next_for(fast).is_none(), true);
    assert_eq!(rt; server.heartbeat().err(), Some(Refusal::OutboxFull));
    server.hand_over(slow);
    assert_eq!(rt; server.heartbeat().err(), None);
    assert_eq!(rt; server.heartbeat().err(), Some(Refusal::OutboxFull));
    Ok(())
}

#[test]
fn a_site_takes_each_entry_once(rt: HostRuntime) -> Result<(), Fail> {
    let mut writer = hybrid_server(0)?;
    let mut taker = hybrid_server(1)?;
    put_price(&mut writer, 1, 5)?;
    assert_eq!(rt; pass(&mut writer, 0, &mut taker, 1), Ok(()));
    assert_eq!(rt;
        pass(&mut writer, 0, &mut taker, 1),
        Err(Refusal::NothingWaits)
    );
    Ok(())
}

// A server takes no entry of its own site, and none from a site that its layout lacks.
#[test]
fn a_server_takes_entries_of_its_layouts_other_sites(rt: HostRuntime) -> Result<(), Fail> {
    let mut server = hybrid_server(0)?;
    put_price(&mut server, 1, 5)?;
    let Some(entry) = server.next_for(Site::try_from(1)?) else {
        return Err(Fail::new("nothing waits"));
    };
    assert_eq!(rt;
        server.take(Site::try_from(0)?, entry),
        Err(Refusal::NotInLayout)
    );
    assert_eq!(rt;
        server.take(Site::try_from(3)?, entry),
        Err(Refusal::NotInLayout)
    );
    assert_eq!(rt; server.take(Site::try_from(1)?, entry), Ok(()));
    Ok(())
}

#[test]
fn a_table_holds_32_versions(rt: HostRuntime) -> Result<(), Fail> {
    let mut writer = hybrid_server(0)?;
    let mut taker = hybrid_server(1)?;
    for _ in 0..32 {
        put_price(&mut writer, 1, 5)?;
        pass(&mut writer, 0, &mut taker, 1)?;
        writer.hand_over(Site::try_from(2)?);
    }
    assert_eq!(rt;
        put_price(&mut writer, 1, 5).err(),
        Some(Refusal::TableFull)
    );
    writer.heartbeat()?;
    assert_eq!(rt; pass(&mut writer, 0, &mut taker, 1), Ok(()));
    let mut other = hybrid_server(2)?;
    put_price(&mut other, 1, 5)?;
    assert_eq!(rt; pass(&mut other, 2, &mut taker, 1), Err(Refusal::TableFull));
    Ok(())
}

// Two puts at one stamp: the higher source is the later, in whichever order they came.
#[test]
fn at_equal_stamps_the_higher_source_is_later(rt: HostRuntime) -> Result<(), Fail> {
    let mut low = hybrid_server(0)?;
    let mut high = hybrid_server(1)?;
    let first = put_price(&mut low, 1, 10)?;
    let second = put_price(&mut high, 1, 20)?;
    assert_eq!(rt; first.stamp().value(), second.stamp().value());
    let mut taker = hybrid_server(2)?;
    pass(&mut high, 1, &mut taker, 2)?;
    pass(&mut low, 0, &mut taker, 2)?;
    let Some(index) = taker.latest_covered(1, Stamp::top()) else {
        return Err(Fail::new("nothing is covered"));
    };
    let version = &taker.versions()[index];
    assert_eq!(rt; (version.value.amount(), version.source.number()), (20, 1));
    Ok(())
}

// A version from another site is shown once the stable mark covers it.
#[test]
fn the_stable_mark_shows_versions(rt: HostRuntime) -> Result<(), Fail> {
    let mut writer = hybrid_server(0)?;
    let mut taker = hybrid_server(1)?;
    let version = put_price(&mut writer, 1, 10)?;
    assert_eq!(rt; writer.latest_visible(1).is_some(), true);
    pass(&mut writer, 0, &mut taker, 1)?;
    assert_eq!(rt; taker.latest_visible(1).is_some(), false);
    taker.raise(version.stamp());
    assert_eq!(rt; taker.latest_visible(1).is_some(), true);
    Ok(())
}

// Of two versions that the safe mark covers, only the later stays.
#[test]
fn tidying_drops_what_is_outdated(rt: HostRuntime) -> Result<(), Fail> {
    let mut server = hybrid_server(0)?;
    put_price(&mut server, 1, 10)?;
    let stamp = put_price(&mut server, 1, 20)?.stamp();
    assert_eq!(rt; server.tidy(Stamp::zero()), 0);
    assert_eq!(rt; server.tidy(stamp), 1);
    assert_eq!(rt; server.tidy(stamp), 0);
    Ok(())
}
