// A percentage overtakes its basis on the way to another site, at each pair of clock rule and kind of mark.
use group::group::Group;
use group::layout::Draft;
use group::shown::Shown;
use stamps::clock_rule::ClockRule;
use stamps::each::Each;
use stamps::hybrid::Hybrid;
use stamps::mark_kind::MarkKind;
use stamps::one::One;
use stamps::raw::Raw;
use stamps::refusal::Refusal;
use std::process::Abort;
use std::test::Fail;

// What session 1 is shown of the percentage, before its basis has come, before the other site has gone on, and at the
// end, with the basis.
#[derive(Drop)]
struct Amounts {
    overtaken: Option<u32>,
    waiting: Option<u32>,
    percent: Option<u32>,
    basis: Option<u32>,
}

fn amount(shown: Option<Shown>) -> Option<u32> {
    match shown {
        Some(shown) => Some(shown.value.amount()),
        None => None,
    }
}

// Both servers of site 1 report, and the one of partition 1 looks how far the site is stable.
fn stabilise<C: ClockRule, K: MarkKind>(group: &mut Group<C, K>) -> Result<(), Refusal> {
    group.report(1, 0)?;
    group.report(1, 1)?;
    group.stabilise(1, 1)
}

// A group of two sites and two partitions, with a session at each site and a basis put at site 0.
fn with_basis<C: ClockRule, K: MarkKind>() -> Result<Group<C, K>, Refusal> {
    let mut group = Group::new(Draft {
        sites: 2,
        partitions: 2,
    }
    .check()?);
    group.open_session(0)?;
    group.open_session(1)?;
    group.tell(0, 0, 100)?;
    group.put(0, 2, 3, 1)?;
    Ok(group)
}

fn run_worked_case<C: ClockRule, K: MarkKind>(mut group: Group<C, K>) -> Result<Amounts, Refusal> {
    let _ = group.put(0, 3, 2, 1_200);
    let _ = group.deliver(0, 1, 1);
    let overtaken = amount(group.get(1, 3)?);
    group.deliver(0, 1, 0)?;
    stabilise(&mut group)?;
    let waiting = amount(group.get(1, 3)?);
    let _ = group.heartbeat(0, 0);
    let _ = group.deliver(0, 1, 0);
    stabilise(&mut group)?;
    let percent = amount(group.get(1, 3)?);
    let basis = amount(group.get(1, 2)?);
    Ok(Amounts {
        overtaken,
        waiting,
        percent,
        basis,
    })
}

fn check_amounts(rt: &impl Abort, amounts: Amounts, percent: Option<u32>, basis: Option<u32>) {
    assert_eq!(rt; amounts.overtaken, None);
    assert_eq!(rt; amounts.waiting, None);
    assert_eq!(rt; amounts.percent, percent);
    assert_eq!(rt; amounts.basis, basis);
}

#[test]
fn hybrid_with_a_stamp_for_each_site(rt: HostRuntime) -> Result<(), Fail> {
    check_amounts(
        &rt,
        run_worked_case::<Hybrid, Each>(with_basis()?)?,
        Some(1_200),
        Some(1),
    );
    Ok(())
}

// One stamp for all sites waits for the other site's own clock as well.
#[test]
fn hybrid_with_one_stamp(rt: HostRuntime) -> Result<(), Fail> {
    check_amounts(
        &rt,
        run_worked_case::<Hybrid, One>(with_basis()?)?,
        None,
        None,
    );
    Ok(())
}

// The clock of partition 1 was never told a time, so a raw put there is early.
#[test]
fn raw_with_a_stamp_for_each_site(rt: HostRuntime) -> Result<(), Fail> {
    let mut group = with_basis::<Raw, Each>()?;
    assert_eq!(rt; group.put(0, 3, 2, 1_200).err(), Some(Refusal::Early));
    check_amounts(&rt, run_worked_case(group)?, None, None);
    Ok(())
}

#[test]
fn raw_with_one_stamp(rt: HostRuntime) -> Result<(), Fail> {
    check_amounts(&rt, run_worked_case::<Raw, One>(with_basis()?)?, None, None);
    Ok(())
}
