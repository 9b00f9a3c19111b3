// The ends of the ranges, and what is refused.
use base::refusal::Refusal;
use std::process::Abort;
use std::test::Fail;
use values::device::Device;
use values::fold::fold;
use values::inventory::Inventory;
use values::least::Least;
use values::number::Number;
use values::printed::{Printed, write_form};
use values::rank::{any_equal, rank_keys};

// The form, and the place behind it as it was.
fn shows<F: Printed>(rt: &impl Abort, value: F, form: &[u8]) -> Result<(), Fail> {
    let mut places = [b'.'; 17];
    write_form(value, &mut places)?;
    assert!(rt; form.len() < 17);
    assert!(rt; &places[0..form.len()] == form);
    assert!(rt; places[form.len()] == b'.');
    Ok(())
}

#[test]
fn forms_reach_from_zero_to_the_largest(rt: HostRuntime) -> Result<(), Fail> {
    shows(&rt, Number::new(0), b"0000000000")?;
    shows(&rt, Number::new(u32::MAX), b"4294967295")?;
    shows(&rt, Least::new(u32::MAX), b"4294967295")?;
    shows(&rt, Device::new(0, 0)?, b"00/00000")?;
    shows(&rt, Device::new(15, 65535)?, b"15/65535")?;
    shows(&rt, Inventory::new(0, 0, 0), b"00000/0000/00000")?;
    shows(&rt, Inventory::new(65535, 0xabcd, 7), b"65535/abcd/00007")
}

#[test]
fn a_form_that_does_not_fit_writes_nothing(rt: HostRuntime) {
    let mut places = [b'.'; 9];
    assert_eq!(rt;
        write_form(Number::new(1), &mut places),
        Err(Refusal::DoesNotFit)
    );
    assert_eq!(rt; places, [b'.'; 9]);
}

#[test]
fn an_unknown_class_is_refused(rt: HostRuntime) {
    assert_eq!(rt; Device::new(16, 0), Err(Refusal::ClassOutOfRange));
}

#[test]
fn the_only_key_is_first(rt: HostRuntime) -> Result<(), Fail> {
    let mut ranks = [9; 32];
    rank_keys(&[Device::new(3, 3)?], &mut ranks)?;
    assert_eq!(rt; ranks, [0; 32]);
    Ok(())
}

#[test]
fn a_full_table_is_ranked(rt: HostRuntime) -> Result<(), Fail> {
    let mut keys = [Number::new(5); 32];
    keys[31] = Number::new(4);
    let mut expected = [1; 32];
    expected[31] = 0;
    let mut ranks = [9; 32];
    rank_keys(&keys, &mut ranks)?;
    assert_eq!(rt; ranks, expected);
    Ok(())
}

#[test]
fn keys_are_one_for_each_node(rt: HostRuntime) {
    let keys = [Number::new(5); 33];
    let mut ranks = [7; 32];
    assert_eq!(rt; rank_keys(&keys, &mut ranks), Err(Refusal::NotOneEach));
    assert_eq!(rt;
        rank_keys(&keys[0..0], &mut ranks),
        Err(Refusal::NotOneEach)
    );
    assert_eq!(rt; ranks, [7; 32]);
}

#[test]
fn equal_keys_are_found(rt: HostRuntime) {
    let keys = [Number::new(4), Number::new(2), Number::new(4)];
    assert!(rt; any_equal(&keys));
    assert!(rt; !any_equal(&keys[0..2]));
}

#[test]
fn inventories_keep_what_all_have(rt: HostRuntime) {
    let own = [Inventory::new(9, 0x00f0, 3), Inventory::new(4, 0xff0f, 8)];
    assert_eq!(rt; fold(&own), Some(Inventory::new(4, 0, 8)));
}

#[test]
fn no_holdings_have_no_fold(rt: HostRuntime) {
    let own: [Least; 0] = [];
    assert_eq!(rt; fold(&own), None);
}
