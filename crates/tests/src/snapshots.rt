// Snapshots and their tickets: what no script can reach.
use group::group::Group;
use group::layout::Draft;
use group::shown::Shown;
use group::ticket::Ticket;
use stamps::each::Each;
use stamps::hybrid::Hybrid;
use stamps::refusal::Refusal;
use std::test::Fail;

// A group of two sites and one partition, with a session at site 0.
fn group_of_two() -> Result<Group<Hybrid, Each>, Refusal> {
    let draft = Draft {
        sites: 2,
        partitions: 1,
    };
    let mut group = Group::new(draft.check()?);
    group.open_session(0)?;
    Ok(group)
}

// Closes what was opened; why not, if it was refused.
fn close_opened(
    group: &mut Group<Hybrid, Each>,
    opened: Result<Ticket, Refusal>,
) -> Option<Refusal> {
    match opened {
        Ok(ticket) => group.close(ticket).err(),
        Err(why) => Some(why),
    }
}

// The amount that a read shows.
fn amount(shown: Result<Option<Shown>, Refusal>) -> Result<Option<u32>, Refusal> {
    match shown? {
        Some(shown) => Ok(Some(shown.value.amount())),
        None => Ok(None),
    }
}

#[test]
fn four_snapshots_and_no_fifth(rt: HostRuntime) -> Result<(), Fail> {
    let mut group = group_of_two()?;
    let first = group.open_snapshot(0, 0);
    let second = group.open_snapshot(0, 0);
    let third = group.open_snapshot(0, 0);
    let fourth = group.open_snapshot(0, 0);
    let fifth = group.open_snapshot(0, 0);
    let fifth = close_opened(&mut group, fifth);
    let fourth = close_opened(&mut group, fourth);
    let third = close_opened(&mut group, third);
    let second = close_opened(&mut group, second);
    let first = close_opened(&mut group, first);
    assert_eq!(rt; fifth, Some(Refusal::NoneFree));
    assert_eq!(rt; (first, second, third, fourth), (None, None, None, None));
    Ok(())
}

// A ticket of another group, whose seat is not open here.
#[test]
fn a_ticket_without_its_seat_is_refused(rt: HostRuntime) -> Result<(), Fail> {
    let mut other = group_of_two()?;
    let mut group = group_of_two()?;
    let (read, closed) = match other.open_snapshot(0, 0) {
        Ok(ticket) => {
            let read = amount(group.read(&ticket, 1));
            (read, group.close(ticket).err())
        }
        Err(why) => (Err(why), None),
    };
    assert_eq!(rt; read, Err(Refusal::NotOpen));
    assert_eq!(rt; closed, Some(Refusal::NotOpen));
    Ok(())
}

// The seat of a closed snapshot is used again under the next serial number.
#[test]
fn a_seat_is_used_again_under_a_new_number(rt: HostRuntime) -> Result<(), Fail> {
    let mut other = group_of_two()?;
    let mut group = group_of_two()?;
    let first = group.open_snapshot(0, 0);
    let first = close_opened(&mut group, first);
    let again = group.open_snapshot(0, 0);
    let stale = match other.open_snapshot(0, 0) {
        Ok(ticket) => group.close(ticket).err(),
        Err(why) => Some(why),
    };
    let again = close_opened(&mut group, again);
    assert_eq!(rt; (first, again), (None, None));
    assert_eq!(rt; stale, Some(Refusal::NotOpen));
    Ok(())
}

// A later version, which the whole site has stable. Answers how many versions were dropped.
fn put_later(group: &mut Group<Hybrid, Each>) -> Result<usize, Refusal> {
    group.put(0, 1, 1, 20)?;
    group.deliver(0, 1, 0)?;
    group.report(0, 0)?;
    group.stabilise(0, 0)?;
    group.tidy(0, 0)
}

// A key with a version that site 0 has stable, and a later one after the opening.
#[test]
fn a_read_does_not_change(rt: HostRuntime) -> Result<(), Fail> {
    let mut group = group_of_two()?;
    group.put(0, 1, 1, 10)?;
    group.report(0, 0)?;
    group.stabilise(0, 0)?;
    let (before, later, after, closed) = match group.open_snapshot(0, 0) {
        Ok(ticket) => {
            let before = amount(group.read(&ticket, 1));
            let later = put_later(&mut group);
            let after = amount(group.read(&ticket, 1));
            (before, later, after, group.close(ticket).err())
        }
        Err(why) => (Err(why), Err(why), Err(why), Some(why)),
    };
    assert_eq!(rt; later, Ok(0));
    assert_eq!(rt; before, Ok(Some(10)));
    assert_eq!(rt; after, Ok(Some(10)));
    assert_eq!(rt; closed, None);
    Ok(())
}
