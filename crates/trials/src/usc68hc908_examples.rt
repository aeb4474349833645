use crate::steps::*;
use card::{Card, CardFault, Driven, Reply};
use std::process::Abort;
use usc68hc908::Usc68hc908;

// A chip wired to level 4 with every channel enabled and not masked, and vector base 64. Register 3 is left at the vector base.
fn open(rt: &impl Abort) -> Usc68hc908 {
    let mut chip = Usc68hc908::new(4);
    follow(
        rt,
        &mut chip,
        &[write(1, 254, 0), write(2, 255, 0), write(3, 64, 0)],
    );
    chip
}

#[test]
fn edges_of_one_channel_merge_and_are_answered_once(rt: HostRuntime) {
    let mut chip = open(&rt);
    follow(
        &rt,
        &mut chip,
        &[
            drive(6, true, Driven::Latched),
            drive(6, false, Driven::Quiet),
            drive(6, true, Driven::Merged),
            no_answer(3),
            answer(4, 6, Reply::Byte(71)),
            no_answer(4),
        ],
    );
    assert_eq!(rt; chip.nesting(), 1);
}

#[test]
fn a_disabled_channel_loses_its_edge(rt: HostRuntime) {
    follow(
        &rt,
        &mut open(&rt),
        &[
            drive(6, true, Driven::Latched),
            read(0, Ok(128)),
            write(2, 127, 64),
            read(0, Ok(0)),
            drive(6, false, Driven::Quiet),
            drive(6, true, Driven::Lost),
        ],
    );
}

#[test]
fn a_lower_channel_waits_for_the_end_of_a_service(rt: HostRuntime) {
    let mut chip = open(&rt);
    follow(
        &rt,
        &mut chip,
        &[
            drive(4, true, Driven::Latched),
            answer(4, 4, Reply::Byte(69)),
            drive(2, true, Driven::Latched),
            no_answer(4),
            write(2, 254, 0),
            read(3, Ok(32)),
            write(3, 223, 0),
        ],
    );
    assert_eq!(rt; chip.asked(), 16);
    follow(
        &rt,
        &mut chip,
        &[answer(4, 2, Reply::Byte(67)), read(3, Ok(8))],
    );
}

#[test]
fn zero_written_to_isr_clears_all(rt: HostRuntime) {
    follow(
        &rt,
        &mut open(&rt),
        &[
            drive(0, true, Driven::Latched),
            drive(1, true, Driven::Follow),
            read(0, Ok(6)),
            write(2, 254, 0),
            write(3, 0, 1),
            read(1, Ok(0)),
            read(2, Ok(0)),
            no_write(0, 1, CardFault::NoAccess(0)),
            read(4, Err(CardFault::NoRegister(4))),
        ],
    );
}

#[test]
fn a_card_wired_outside_1_to_7_never_asks(rt: HostRuntime) {
    let mut chip = Usc68hc908::new(8);
    follow(
        &rt,
        &mut chip,
        &[
            write(1, 254, 0),
            write(2, 254, 0),
            drive(0, true, Driven::Latched),
        ],
    );
    assert_eq!(rt; chip.asked(), 0);
}
