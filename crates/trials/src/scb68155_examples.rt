use crate::steps::*;
use card::{Card, CardFault, Driven, Handler, Reply};
use scb68155::Scb68155;

#[test]
fn an_nmi_edge_answers_with_its_vector(rt: HostRuntime) {
    follow(
        &rt,
        &mut Scb68155::new(),
        &[
            write(3, 129, 0),
            write(2, 64, 0),
            drive(6, true, Driven::Latched),
            answer(7, 6, Reply::Byte(71)),
            read(7, Ok(15)),
            no_answer(7),
        ],
    );
}

#[test]
fn a_pointer_that_names_no_control_register_is_refused(rt: HostRuntime) {
    follow(
        &rt,
        &mut Scb68155::new(),
        &[
            write(0, 7, 0),
            read(1, Err(CardFault::NoControl(7))),
            no_write(1, 2, CardFault::NoControl(7)),
            read(0, Err(CardFault::NoAccess(0))),
            no_write(4, 0, CardFault::NoAccess(4)),
            read(8, Err(CardFault::NoRegister(8))),
        ],
    );
}

#[test]
fn a_masked_edge_latches_and_asks_once_opened(rt: HostRuntime) {
    follow(
        &rt,
        &mut Scb68155::new(),
        &[
            write(0, 3, 0),
            write(1, 6, 0),
            drive(2, true, Driven::Latched),
            drive(2, false, Driven::Quiet),
            no_answer(3),
            read(4, Ok(8)),
            write(3, 8, 0),
            answer(3, 2, Reply::Byte(3)),
            read(7, Ok(11)),
        ],
    );
}

#[test]
fn level_sort_withdraws_a_held_edge(rt: HostRuntime) {
    follow(
        &rt,
        &mut Scb68155::new(),
        &[
            write(0, 3, 0),
            write(1, 6, 0),
            drive(2, true, Driven::Latched),
            write(1, 4, 4),
            write(1, 6, 0),
            read(4, Ok(0)),
            read(1, Ok(6)),
        ],
    );
}

#[test]
fn an_asserted_line_is_a_request_again_once_it_is_of_level_sort(rt: HostRuntime) {
    follow(
        &rt,
        &mut Scb68155::new(),
        &[
            write(0, 3, 0),
            write(1, 6, 0),
            drive(2, true, Driven::Latched),
            write(1, 0, 4),
            read(4, Ok(8)),
            write(1, 2, 0),
            read(4, Ok(0)),
        ],
    );
}

#[test]
fn bus_lines_are_shown_and_a_notice_sets_r7(rt: HostRuntime) {
    let mut chip = Scb68155::new();
    follow(
        &rt,
        &mut chip,
        &[
            write(5, 255, 0),
            read(5, Ok(254)),
            read_with(6, 255, Ok(254)),
            read_with(6, 131, Ok(130)),
        ],
    );
    assert!(rt; chip.admits(7));
    assert!(rt; !chip.admits(0));
    chip.notice(5);
    follow(&rt, &mut chip, &[read(7, Ok(5))]);
}
