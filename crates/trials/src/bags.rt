// A bag over few places.
use base::bag::Bag;
use base::refusal::Refusal;

#[test]
fn one_place(rt: HostRuntime) {
    let mut places = [0u8; 1];
    let mut bag = Bag::over(&mut places);
    assert_eq!(rt; bag.free(), 1);
    assert_eq!(rt; bag.take(0), Err(Refusal::NoSuchPlace));
    assert_eq!(rt; bag.put(7), Ok(()));
    assert_eq!(rt; bag.put(8), Err(Refusal::NoFreePlace));
    assert_eq!(rt; bag.at(0), Ok(7));
    assert_eq!(rt; bag.take(1), Err(Refusal::NoSuchPlace));
    assert_eq!(rt; bag.take(0), Ok(7));
    assert_eq!(rt; bag.count(), 0);
}

#[test]
fn no_place(rt: HostRuntime) {
    let mut places = [0u8; 0];
    let mut bag = Bag::over(&mut places);
    assert_eq!(rt; bag.put(7), Err(Refusal::NoFreePlace));
    assert_eq!(rt; bag.take(0), Err(Refusal::NoSuchPlace));
}

#[test]
fn last_takes_the_freed_place(rt: HostRuntime) {
    let mut places = [0u8; 4];
    let mut bag = Bag::over(&mut places);
    assert_eq!(rt; bag.put(5), Ok(()));
    assert_eq!(rt; bag.put(6), Ok(()));
    assert_eq!(rt; bag.put(7), Ok(()));
    assert_eq!(rt; bag.take(0), Ok(5));
    assert_eq!(rt; bag.at(0), Ok(7));
    assert_eq!(rt; bag.at(1), Ok(6));
    assert_eq!(rt; bag.at(2), Err(Refusal::NoSuchPlace));
}
