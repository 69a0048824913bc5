// The edges of stamps, clock rules and marks, and what each refuses.
use group::layout::Draft;
use script::command::Command;
use stamps::common_floor::common_floor;
use stamps::each::Each;
use stamps::hybrid::Hybrid;
use stamps::mark_kind::MarkKind;
use stamps::one::One;
use stamps::outside::{floor_from, lift_from, signed_stamp};
use stamps::raw::Raw;
use stamps::reading::Reading;
use stamps::refusal::Refusal;
use stamps::row::Row;
use stamps::site::Site;
use stamps::stamp::Stamp;
use std::test::Fail;

// Time 100 as a stamp.
const T100: u64 = 6_553_600;

// The greatest stamp.
const LAST: u64 = 9_223_372_036_854_775_807;

#[test]
fn numbers_past_the_range_are_refused(rt: HostRuntime) -> Result<(), Fail> {
    assert_eq!(rt; Stamp::try_from(LAST)?.value(), LAST);
    assert_eq!(rt; Stamp::try_from(1 << 63).err(), Some(Refusal::Unlawful));
    assert_eq!(rt; Reading::try_from((1 << 47) - 1)?.time(), (1 << 47) - 1);
    assert_eq!(rt; Reading::try_from(1 << 47).err(), Some(Refusal::Unlawful));
    assert_eq!(rt; Site::try_from(3)?.number(), 3);
    assert_eq!(rt; Site::try_from(4).err(), Some(Refusal::NotInLayout));
    assert_eq!(rt;
        Row::try_from([0, 0, 1 << 63, 0]).err(),
        Some(Refusal::Unlawful)
    );
    Ok(())
}

/// All refusals, in the order of their numbers.
const REFUSALS: [Refusal; 16] = [
    Refusal::NotInLayout,
    Refusal::NoSession,
    Refusal::Unlawful,
    Refusal::ReadingBehind,
    Refusal::TableFull,
    Refusal::OutboxFull,
    Refusal::Early,
    Refusal::End,
    Refusal::NothingWaits,
    Refusal::NoneFree,
    Refusal::NotOpen,
    Refusal::BadLayout,
    Refusal::ShortCommand,
    Refusal::UnknownLetter,
    Refusal::LayoutMisplaced,
    Refusal::ShortBuffer,
];

#[test]
fn refusals_count_from_1_to_16_and_differ(rt: HostRuntime) -> Result<(), Fail> {
    for (i, why) in REFUSALS.iter().enumerate() {
        assert_eq!(rt; usize::from(why.number()), i + 1);
        let text = format!(in rt.alloc(); "{why}")?;
        assert!(rt; !text.is_empty(), "refusal {i}");
        for other in &REFUSALS[..i] {
            assert_ne!(rt; *why, *other);
            assert_ne!(rt; text.as_str(), format!(in rt.alloc(); "{other}")?.as_str());
        }
    }
    Ok(())
}

// A call that passes a refusal on by `?` ends with this text.
#[test]
fn a_refusal_is_an_error_with_a_text(rt: HostRuntime) -> Result<(), Fail> {
    let text = format!(in rt.alloc(); "{}, {}", Refusal::NotInLayout, Refusal::ShortBuffer)?;
    assert_eq!(rt;
        text.as_str(),
        "no such site or partition here, or an entry from a site to itself, the buffer is too short"
    );
    Ok(())
}

// What the tests compare is compared by its value: where these were equal, no test could fail.
#[test]
fn what_differs_is_not_equal(rt: HostRuntime) -> Result<(), Fail> {
    assert_ne!(rt; Refusal::Early, Refusal::End);
    assert_ne!(rt;
        Draft {
            sites: 2,
            partitions: 1
        },
        Draft {
            sites: 2,
            partitions: 2
        }
    );
    assert_ne!(rt;
        Command::OpenSession { site: 0 },
        Command::OpenSession { site: 1 }
    );
    Ok(())
}

#[test]
fn hybrid_counts_and_carries(rt: HostRuntime) {
    assert_eq!(rt; signed_stamp::<Hybrid>(0, 100, 0), 6_553_600);
    assert_eq!(rt; signed_stamp::<Hybrid>(T100 + 3, 90, T100 + 7), 6_553_608);
    assert_eq!(rt; signed_stamp::<Hybrid>(T100 + 65_535, 100, 0), 6_619_136);
}

#[test]
fn hybrid_refuses_the_end_and_what_is_unlawful(rt: HostRuntime) {
    assert_eq!(rt; signed_stamp::<Hybrid>(LAST, 100, 0), -8);
    assert_eq!(rt; signed_stamp::<Hybrid>(1 << 63, 100, 0), -3);
    assert_eq!(rt; signed_stamp::<Hybrid>(0, 1 << 47, 0), -3);
    assert_eq!(rt; signed_stamp::<Hybrid>(0, 100, 1 << 63), -3);
}

#[test]
fn raw_waits_for_the_reading(rt: HostRuntime) {
    assert_eq!(rt; signed_stamp::<Raw>(T100, 100, 0), -7);
    assert_eq!(rt; signed_stamp::<Raw>(T100, 101, 0), 6_619_136);
    assert_eq!(rt; signed_stamp::<Raw>(0, 100, T100), -7);
    assert_eq!(rt; signed_stamp::<Raw>(1 << 63, 100, 0), -3);
}

#[test]
fn columns_of_a_mark(rt: HostRuntime) {
    assert_eq!(rt; One::column_count(), 1);
    assert_eq!(rt; Each::column_count(), 4);
}

#[test]
fn floors_of_a_row(rt: HostRuntime) -> Result<(), Fail> {
    assert_eq!(rt; floor_from::<One>([5, 3, 9, 4])?.value(), 3);
    assert_eq!(rt; floor_from::<Each>([5, 3, 9, 4])?.entries(), [5, 3, 9, 4]);
    Ok(())
}

#[test]
fn lift_checks_the_stamp_before_the_site(rt: HostRuntime) -> Result<(), Fail> {
    assert_eq!(rt; lift_from::<One>(4, 1 << 63).err(), Some(Refusal::Unlawful));
    assert_eq!(rt; lift_from::<One>(4, 7).err(), Some(Refusal::NotInLayout));
    assert_eq!(rt; lift_from::<Each>(2, 7)?.entries(), [0, 0, 7, 0]);
    Ok(())
}

#[test]
fn common_floors(rt: HostRuntime) -> Result<(), Fail> {
    assert_eq!(rt; common_floor::<One>(&[]).value(), LAST);
    assert_eq!(rt; common_floor::<Each>(&[]).entries(), [LAST; 4]);
    let rows = [Row::try_from([5, 3, 9, 4])?, Row::try_from([2, 6, 7, 8])?];
    assert_eq!(rt; common_floor::<One>(&rows).value(), 2);
    assert_eq!(rt; common_floor::<Each>(&rows).entries(), [2, 3, 7, 4]);
    Ok(())
}
