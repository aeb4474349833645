use card::{Answer, Card, CardFault, Reply};
use mc68153::Mc68153;

// A chip whose input 2 has this control register and an asserted wire.
fn asserted(control: u8) -> Mc68153 {
    let mut chip = Mc68153::new();
    let _ = chip.write(2, control);
    let _ = chip.drive(2, true);
    chip
}

#[test]
fn a_level_input_answers_while_its_wire_is_asserted(rt: HostRuntime) {
    let mut chip = asserted(20);
    let fifteen = Answer {
        source: 2,
        reply: Reply::Byte(15),
    };
    assert_eq!(rt; chip.asked(), 16);
    assert_eq!(rt; chip.answer(4), Ok(Some(fifteen)));
    assert_eq!(rt; chip.answer(4), Ok(Some(fifteen)));
}

#[test]
fn level_0_never_asks(rt: HostRuntime) {
    let mut chip = asserted(24);
    assert_eq!(rt; chip.asked(), 0);
    assert_eq!(rt; chip.answer(1), Ok(None));
    assert_eq!(rt; chip.answer(0), Err(CardFault::BadLevel(0)));
}

#[test]
fn the_flag_clears_with_an_outside_answer(rt: HostRuntime) {
    let mut chip = asserted(244);
    let outside = Answer {
        source: 2,
        reply: Reply::Outside,
    };
    assert_eq!(rt; chip.answer(4), Ok(Some(outside)));
    assert_eq!(rt; chip.read(2, 0), Ok(116));
}
