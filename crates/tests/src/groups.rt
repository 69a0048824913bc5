// Which layouts pass the check, and which server a call reaches.
use group::group::{Group, MOST_SESSIONS};
use group::layout::Draft;
use stamps::hybrid::Hybrid;
use stamps::one::One;
use stamps::refusal::Refusal;
use std::test::Fail;

fn refusal_of(sites: u8, partitions: u8) -> Option<Refusal> {
    Draft { sites, partitions }.check().err()
}

#[test]
fn layouts_at_the_edges(rt: HostRuntime) {
    assert_eq!(rt; refusal_of(1, 1), Some(Refusal::BadLayout));
    assert_eq!(rt; refusal_of(5, 1), Some(Refusal::BadLayout));
    assert_eq!(rt; refusal_of(2, 0), Some(Refusal::BadLayout));
    assert_eq!(rt; refusal_of(2, 5), Some(Refusal::BadLayout));
    assert_eq!(rt; refusal_of(2, 1), None);
    assert_eq!(rt; refusal_of(4, 4), None);
}

// A draft's clone is checked apart from it.
#[test]
fn a_draft_can_be_cloned(rt: HostRuntime) -> Result<(), Fail> {
    let draft = Draft {
        sites: 3,
        partitions: 2,
    };
    let copy = draft.clone()?;
    assert_eq!(rt; draft.check()?, copy.check()?);
    Ok(())
}

fn group_of(sites: u8, partitions: u8) -> Result<Group<Hybrid, One>, Refusal> {
    Ok(Group::new(Draft { sites, partitions }.check()?))
}

#[test]
fn servers_outside_the_layout_are_refused(rt: HostRuntime) -> Result<(), Fail> {
    let mut group = group_of(2, 1)?;
    assert_eq!(rt; group.tell(2, 0, 5), Err(Refusal::NotInLayout));
    assert_eq!(rt; group.heartbeat(0, 1).err(), Some(Refusal::NotInLayout));
    assert_eq!(rt; group.lead(0, 1), Err(Refusal::NotInLayout));
    // the layout is tested before the reading
    assert_eq!(rt; group.tell(0, 1, 1 << 47), Err(Refusal::NotInLayout));
    assert_eq!(rt; group.tell(0, 0, 1 << 47), Err(Refusal::Unlawful));
    Ok(())
}

#[test]
fn a_call_moves_one_server_alone(rt: HostRuntime) -> Result<(), Fail> {
    let mut group = group_of(2, 2)?;
    group.tell(0, 1, 7)?;
    assert_eq!(rt; group.lead(0, 1), Ok(-7));
    assert_eq!(rt; group.lead(0, 0), Ok(0));
    assert_eq!(rt; group.lead(1, 0), Ok(0));
    assert_eq!(rt; group.lead(1, 1), Ok(0));
    group.heartbeat(0, 1)?;
    assert_eq!(rt; group.lead(0, 1), Ok(0));
    Ok(())
}

#[test]
fn a_group_has_so_many_sessions(rt: HostRuntime) -> Result<(), Fail> {
    let mut group = group_of(2, 1)?;
    for number in 0..MOST_SESSIONS {
        assert_eq!(rt; group.open_session(1)? as usize, number);
    }
    assert_eq!(rt; group.open_session(1), Err(Refusal::NoneFree));
    Ok(())
}
