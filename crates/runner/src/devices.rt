// Devices and their ranks, inventories and their fold.
use base::refusal::Refusal;
use std::io;
use values::device::Device;
use values::fold::fold;
use values::inventory::Inventory;
use values::rank::rank_keys;

pub(crate) fn show_all(rt: &impl Print) -> io::Result<()> {
    println!(rt; "Four devices, by class and number, with their ranks:")?;
    if let Ok(devices) = some_devices() {
        show_ranks(rt, &devices)?;
    }
    println!(rt; "Their inventories, and what all of them have:")?;
    let inventories = [
        Inventory::new(210, 0b0111, 12),
        Inventory::new(190, 0b0110, 30),
        Inventory::new(200, 0b1110, 25),
        Inventory::new(210, 0b0111, 8),
    ];
    for inventory in &inventories {
        show_inventory(rt, "  a device has", *inventory)?;
    }
    if let Some(common) = fold(&inventories) {
        show_inventory(rt, "  all have", common)?;
    }
    Ok(())
}

fn some_devices() -> Result<[Device; 4], Refusal> {
    Ok([
        Device::new(3, 40)?,
        Device::new(1, 900)?,
        Device::new(3, 7)?,
        Device::new(0, 65535)?,
    ])
}

// Values are told in words here: the printed form of a kind is that of `Printed`, and a `Display` would be a second.
fn show_ranks(rt: &impl Print, devices: &[Device; 4]) -> io::Result<()> {
    let mut ranks = [0; 32];
    let _ = rank_keys(devices, &mut ranks);
    for (device, rank) in devices.iter().zip(ranks) {
        println!(rt;
            "  class {}, number {}: rank {rank}",
            device.class(),
            device.number()
        )?;
    }
    Ok(())
}

fn show_inventory(rt: &impl Print, what: &str, inventory: Inventory) -> io::Result<()> {
    println!(rt;
        "{what} firmware {}, services {:04x}, delay {}",
        inventory.firmware(),
        inventory.services(),
        inventory.delay()
    )
}
