use crate::steps::refused;
use card::{Answer, Card, CardFault, Driven, Layer, Reply};
use joined::Joined;
use mc68153::Mc68153;
use plain::PlainHandler;
use rack::{Call, Outcome, Rack, RackFault, Reached, Side};

// A rack of the plain handler above two MC68153, of which the rear's input 1 asks at level 4 with vector 70.
fn asking() -> Rack<PlainHandler, Joined<Mc68153, Mc68153>> {
    let chain = Joined {
        front: Mc68153::new(),
        rear: Mc68153::new(),
    };
    let mut rack = Rack::new(1, PlainHandler {}, chain);
    let _ = rack.write(Side::Chain, 9, 20);
    let _ = rack.write(Side::Chain, 13, 70);
    let _ = rack.drive(Side::Chain, 5, true);
    rack
}

// The rear's input 1 answers.
const ANSWERED: Outcome = Outcome::Answered(Reached::At(
    Side::Chain,
    Answer {
        source: 5,
        reply: Reply::Byte(70),
    },
));

#[test]
fn the_presented_level_is_compared_with_the_mask(rt: HostRuntime) {
    let mut rack = asking();
    assert_eq!(rt; rack.presented_level(), 4);
    let _ = rack.set_mask(4);
    assert_eq!(rt; rack.step(Call::Take), Ok(Outcome::Took(None)));
    let _ = rack.set_mask(3);
    assert_eq!(rt; rack.step(Call::Take), Ok(Outcome::Took(Some(4))));
    assert_eq!(rt; rack.step(Call::Acknowledge), Ok(ANSWERED));
    assert_eq!(rt;
        rack.step(Call::Return { depth: 1 }),
        Ok(Outcome::Returned(3))
    );
}

#[test]
fn a_negated_wire_leaves_the_spurious_vector(rt: HostRuntime) {
    let mut rack = asking();
    let _ = rack.set_mask(0);
    assert_eq!(rt; rack.step(Call::Take), Ok(Outcome::Took(Some(4))));
    let _ = rack.drive(Side::Chain, 5, false);
    assert_eq!(rt;
        rack.step(Call::Acknowledge),
        Ok(Outcome::Answered(Reached::Spurious(24)))
    );
}

#[test]
fn faults_of_the_rear_are_renamed(rt: HostRuntime) {
    let mut rack = asking();
    assert_eq!(rt;
        rack.drive(Side::Chain, 8, true),
        Err(RackFault::Card(CardFault::NoSource(8)))
    );
    assert_eq!(rt;
        rack.read(Side::Chain, 16),
        Err(RackFault::Card(CardFault::NoRegister(16)))
    );
    assert_eq!(rt; rack.drive(Side::Chain, 7, true), Ok(Driven::Follow));
}

#[test]
fn a_taken_level_allows_only_an_acknowledge(rt: HostRuntime) {
    let mut rack = asking();
    let _ = rack.set_mask(0);
    assert_eq!(rt; rack.step(Call::Take), Ok(Outcome::Took(Some(4))));
    assert_eq!(rt; refused(rack.step(Call::Take)), Some(21));
    assert_eq!(rt; refused(rack.step(Call::Mask { mask: 9 })), Some(18));
    assert_eq!(rt; refused(rack.step(Call::Mask { mask: 0 })), Some(21));
    assert_eq!(rt; refused(rack.step(Call::Return { depth: 1 })), Some(21));
    assert_eq!(rt; refused(rack.step(Call::Reset)), Some(21));
    assert_eq!(rt; rack.step(Call::Acknowledge), Ok(ANSWERED));
    assert_eq!(rt; refused(rack.step(Call::Acknowledge)), Some(22));
    assert_eq!(rt; refused(rack.step(Call::Return { depth: 2 })), Some(23));
    assert_eq!(rt; refused(rack.step(Call::Reset)), Some(25));
}

#[test]
fn open_services_are_counted(rt: HostRuntime) {
    let mut rack = asking();
    let _ = rack.set_mask(0);
    assert_eq!(rt; rack.service_count(), 0);
    let _ = rack.step(Call::Take);
    let _ = rack.step(Call::Acknowledge);
    assert_eq!(rt; rack.service_count(), 1);
    let refusal = rack.step(Call::Reset).err().map(|fault| fault.refusal());
    assert_eq!(rt; refusal, Some(Layer::Rack.refusal(25, 1)));
    assert_eq!(rt; rack.return_depth(1), Ok(0));
    assert_eq!(rt; rack.service_count(), 0);
}
