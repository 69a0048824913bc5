//! Lines as they are listed, and the buffers that they go into.
use group::group::Group;
use group::layout::Draft;
use script::list::{list, list_into};
use script::listing::Listing;
use script::script::Script;
use stamps::each::Each;
use stamps::hybrid::Hybrid;
use stamps::refusal::Refusal;
use std::alloc::Global;
use std::process::Abort;
use std::test::Fail;

fn check_listing(rt: &impl Abort, heap: Global, script: &[u8], listing: &[u8]) -> Result<(), Fail> {
    let listed = list(heap, script)?;
    assert_eq!(rt; listed.as_slice(), listing);
    Ok(())
}

#[test]
fn what_ends_a_listing(rt: HostRuntime) -> Result<(), Fail> {
    check_listing(&rt, rt.alloc(), b"", b"")?;
    check_listing(&rt, rt.alloc(), b"X", b"1 ? no 14\n")?;
    check_listing(&rt, rt.alloc(), b"T", b"1 T no 13\n")?;
    check_listing(&rt, rt.alloc(), b"H\0\0L", b"1 H no 15\n")?;
    check_listing(
        &rt,
        rt.alloc(),
        b"L\x02\x01HEL\x02\x01HEQ\0\0",
        b"1 L ok\n2 L no 15\n",
    )?;
    Ok(())
}

#[test]
fn layouts_that_make_no_group(rt: HostRuntime) -> Result<(), Fail> {
    check_listing(&rt, rt.alloc(), b"L\x02\x01XE", b"1 L no 12\n")?;
    check_listing(&rt, rt.alloc(), b"L\x02\x01HX", b"1 L no 12\n")?;
    check_listing(&rt, rt.alloc(), b"L\x05\x01HEQ\0\0", b"1 L no 12\n")?;
    Ok(())
}

#[test]
fn answers_are_listed(rt: HostRuntime) -> Result<(), Fail> {
    check_listing(&rt, rt.alloc(), b"L\x02\x01HEQ\0\0", b"1 L ok\n2 Q 0\n")?;
    check_listing(
        &rt,
        rt.alloc(),
        b"L\x02\x01ROT\0\0\0\0\0\0\0\x64Q\0\0H\0\0H\0\0",
        b"1 L ok\n2 T ok\n3 Q -100\n4 H 100.0\n5 H no 7\n",
    )?;
    Ok(())
}

#[test]
fn a_next_line_needs_96_bytes(rt: HostRuntime) -> Result<(), Fail> {
    let layout = Draft {
        sites: 2,
        partitions: 1,
    }
    .check()?;
    let mut listing = Listing::<Hybrid, Each>::new(Group::new(layout), b"Q\0\0");
    let mut short = [7; 95];
    assert_eq!(rt; listing.next_line(&mut short), Err(Refusal::ShortBuffer));
    assert_eq!(rt; short, [7; 95]);
    let mut buffer = [7; 96];
    assert_eq!(rt; listing.next_line(&mut buffer), Ok(Some(6)));
    assert_eq!(rt; &buffer[0..6], b"2 Q 0\n".as_slice());
    assert_eq!(rt; &buffer[6..96], [7; 90].as_slice());
    assert_eq!(rt; listing.next_line(&mut buffer), Ok(None));
    Ok(())
}

#[test]
fn a_line_needs_96_bytes(rt: HostRuntime) {
    let mut script = Script::new(b"L\x02\x01HEQ\0\0");
    let mut short = [7; 95];
    assert_eq!(rt; script.next_line(&mut short), Err(Refusal::ShortBuffer));
    assert_eq!(rt; short, [7; 95]);
    let mut buffer = [7; 96];
    assert_eq!(rt; script.next_line(&mut buffer), Ok(Some(7)));
    assert_eq!(rt; &buffer[0..7], b"1 L ok\n".as_slice());
    assert_eq!(rt; &buffer[7..96], [7; 89].as_slice());
    assert_eq!(rt; script.next_line(&mut buffer), Ok(Some(6)));
    assert_eq!(rt; &buffer[0..6], b"2 Q 0\n".as_slice());
    assert_eq!(rt; script.next_line(&mut buffer), Ok(None));
}

#[test]
fn a_script_that_has_ended_changes_nothing(rt: HostRuntime) {
    let mut script = Script::new(b"");
    let mut short = [7; 95];
    assert_eq!(rt; script.next_line(&mut short), Err(Refusal::ShortBuffer));
    let mut buffer = [7; 96];
    assert_eq!(rt; script.next_line(&mut buffer), Ok(None));
    assert_eq!(rt; buffer, [7; 96]);
}

// A percentage is put at site 0; a snapshot shows it there, with a key that has nothing.
#[test]
fn a_view_shows_two_keys(rt: HostRuntime) -> Result<(), Fail> {
    check_listing(
        &rt,
        rt.alloc(),
        b"L\x02\x01HOS\0P\0\0\x03\x02\0\0\x04\xb0V\0\0\0\x03\0\x04V\x01\0\0\x03\0\x04",
        b"1 L ok\n2 S 0\n3 P 0.1\n4 V none / none\n5 V no 2\n",
    )?;
    Ok(())
}

#[test]
fn values_are_listed(rt: HostRuntime) -> Result<(), Fail> {
    check_listing(
        &rt,
        rt.alloc(),
        b"L\x02\x01HES\0\
          P\0\0\x01\x01\xff\xff\xff\xffG\0\0\x01\
          P\0\0\x01\0\0\0\0\0G\0\0\x01\
          P\0\0\x01\x03\0\0\0\0G\0\0\x01\
          P\0\0\x01\x02\0\0\x27\x11",
        b"1 L ok\n2 S 0\n\
          3 P 0.1\n4 G price 4294967295 0.1 0\n\
          5 P 0.2\n6 G gone 0.2 0\n\
          7 P 0.3\n8 G basis part 0.3 0\n\
          9 P no 3\n",
    )?;
    Ok(())
}

// There is memory for the listing of a long script, which no contract can promise.
#[test]
fn a_long_script_is_listed(rt: HostRuntime) -> Result<(), Fail> {
    let mut script = Vec::new(rt.alloc());
    script.extend_from_slice(b"L\x02\x01HE")?;
    for _ in 0..21_843 {
        script.extend_from_slice(b"Q\0\0")?;
    }
    let listed = list(rt.alloc(), &script)?;
    let lines = listed.iter().filter(|byte| **byte == b'\n').count();
    assert_eq!(rt; lines, 21_844);
    Ok(())
}

#[test]
fn a_listing_needs_96_bytes_for_each_line(rt: HostRuntime) {
    let script = b"L\x02\x01HEQ\0\0X";
    let mut short = [7; 287];
    assert_eq!(rt; list_into(script, &mut short), Err(Refusal::ShortBuffer));
    assert_eq!(rt; short, [7; 287]);
    let mut buffer = [7; 288];
    assert_eq!(rt; list_into(script, &mut buffer), Ok(23));
    assert_eq!(rt; &buffer[0..23], b"1 L ok\n2 Q 0\n3 ? no 14\n".as_slice());
    assert_eq!(rt; &buffer[23..288], [7; 265].as_slice());
}
