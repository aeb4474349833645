use crate::steps::refused;
use arrayvec::ArrayString;
use script::parse;
use std::fmt::Write;
use std::test::Fail;

#[test]
fn a_line_has_80_bytes_at_most(rt: HostRuntime) {
    let long = [b'x'; 81];
    assert_eq!(rt; refused(parse(&long[0..80])), Some(11));
    assert_eq!(rt; refused(parse(&long)), Some(10));
}

#[test]
fn faults_go_by_rising_number(rt: HostRuntime) {
    assert_eq!(rt; refused(parse(b"line\t3\t1")), None);
    assert_eq!(rt; refused(parse(b"line\t003\t01")), None);
    assert_eq!(rt; refused(parse(b"bogus\t1\t2\t3\t4")), Some(11));
    assert_eq!(rt; refused(parse(b"line\tx")), Some(12));
    assert_eq!(rt; refused(parse(b"line\t256\t1")), Some(13));
    assert_eq!(rt; refused(parse(b"line\t1\t2")), Some(13));
    assert_eq!(rt; refused(parse(b"get\t0001")), Some(13));
    assert_eq!(rt; refused(parse(b"get\t\r")), Some(13));
}

#[test]
fn results_and_faults_display_as_they_are_printed(rt: HostRuntime) -> Result<(), Fail> {
    let heap = rt.alloc();
    let fault = script::ScriptFault::BadField(3);
    let outcome = rack::Outcome::Took(Some(4));
    assert!(rt; format!(in heap; "{fault}")?.as_bytes() == b"refused\t13\tscript\t3".as_slice());
    assert!(rt; format!(in heap; "{outcome}")?.as_bytes() == b"level\t4".as_slice());
    Ok(())
}

// What is left where a writer is full in between: a word goes out with its tab, in one write.
#[test]
fn a_word_displays_with_its_tab(rt: HostRuntime) {
    let level = rack::Outcome::Took(Some(4));
    let mut text: ArrayString<5> = ArrayString::new();
    assert!(rt; write!(text, "{level}").is_err());
    assert_eq!(rt; text.as_str(), "");
    let spurious = rack::Reached::Spurious(24);
    let mut text: ArrayString<8> = ArrayString::new();
    assert!(rt; write!(text, "{spurious}").is_err());
    assert_eq!(rt; text.as_str(), "");
    let fault = script::ScriptFault::BadField(3);
    assert!(rt; write!(text, "{fault}").is_err());
    assert_eq!(rt; text.as_str(), "refused\t");
    let mut text: ArrayString<7> = ArrayString::new();
    assert!(rt; write!(text, "{fault}").is_err());
    assert_eq!(rt; text.as_str(), "");
}
