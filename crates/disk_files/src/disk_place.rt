//! The way to a disk, by the names of the folders of /sys that lead to it.

use crate::disk::DiskStep;
use crate::disk_folders::unless_unread;
use crate::system::System;
use messages::Failure;
use partitions::read_number;
use std::path::Path;
use std::rt::Files;

/// What is in front of the name of the root of a PCI bus.
const ROOT: &str = "pci";

/// What is in front of the name of a port of ATA.
const ATA: &str = "ata";

/// What is in front of the name of a USB bus.
const USB: &str = "usb";

/// The type of a disk on SCSI, as which Linux shows those on SATA and USB too: a CD-ROM is of another one.
const DISK_TYPE: u64 = 0;

/// A logical unit of SCSI.
#[derive(Clone, Copy)]
struct ScsiUnit {
    channel: u16,
    target: u16,
    lun: u16,
}

/// A USB interface of a device that isn't the root of its bus.
#[derive(Drop)]
struct UsbInterface {
    /// The ports from the bus on, counted from 1 on.
    ports: Vec<u8>,
    interface: u8,
}

impl<R: Files + AllocGlobal> System<'_, R> {
    /// The way to the disk that a folder of /sys is of, if it is known: from the root of a PCI bus over functions to SATA,
    /// NVM Express or USB.
    pub(crate) fn disk_place(
        &self,
        front: &str,
        folder: &str,
    ) -> Result<Option<Vec<DiskStep>>, Failure> {
        let Some(names) = folder.strip_prefix(front) else {
            return Ok(None);
        };
        let Some(names) = names.strip_prefix("/sys/devices/") else {
            return Ok(None);
        };
        let names: Vec<&str> = names.split('/').collect(self.alloc())?;
        let [root, functions @ ..] = names.as_slice() else {
            return Ok(None);
        };
        let Some(uid) = self.root_uid(root, ancestor(folder, functions.len()))? else {
            return Ok(None);
        };
        let mut place = Vec::new(self.alloc());
        place.push(DiskStep::Root(uid))?;
        let behind = push_functions(functions, &mut place)?;
        if self.push_end(folder, behind, &mut place)? {
            Ok(Some(place))
        } else {
            Ok(None)
        }
    }

    /// The `_UID` that ACPI has for the root of a PCI bus of this name, which has this folder.
    fn root_uid(&self, name: &str, folder: &str) -> Result<Option<u32>, Failure> {
        if !name.starts_with(ROOT) {
            return Ok(None);
        }
        let Some(uid) = self.told_number(folder, "firmware_node/uid")? else {
            return Ok(None);
        };
        Ok(u32::try_from(uid).ok())
    }

    /// Appends the steps to the disk that a folder is of, behind the last function, by the names of the folders from there
    /// on. Whether they are known.
    fn push_end(
        &self,
        folder: &str,
        names: &[&str],
        place: &mut Vec<DiskStep>,
    ) -> Result<bool, Failure> {
        match names {
            [nvme, _controller, _disk] if *nvme == "nvme" => self.push_nvme(folder, place),
            [ata, _host, _target, unit, block, _disk]
                if ata.starts_with(ATA) && *block == "block" => {
                self.push_sata(folder, ata, unit, place)
            }
            [bus, _hub, .., _target, unit, block, _disk]
                if bus.starts_with(USB) && *block == "block" => {
                self.push_usb(folder, names, unit, place)
            }
            _ => Ok(false),
        }
    }

    /// Appends the step to the namespace of NVM Express that a folder is of.
    fn push_nvme(&self, folder: &str, place: &mut Vec<DiskStep>) -> Result<bool, Failure> {
        let Some(namespace) = self.told_number(folder, "nsid")? else {
            return Ok(false);
        };
        let Ok(namespace) = u32::try_from(namespace) else {
            return Ok(false);
        };
        let eui = match unless_unread(self.text_if_there(folder, "eui"))? {
            Some(None) => Some([0; 8]),
            Some(Some(text)) => eui_of(&text),
            None => None,
        };
        let Some(eui) = eui else {
            return Ok(false);
        };
        place.push(DiskStep::Nvme { namespace, eui })?;
        Ok(true)
    }

    /// Appends the step to the disk on SATA that a folder is of, at an ATA port of this name and a unit of that one.
    fn push_sata(
        &self,
        folder: &str,
        ata: &str,
        unit: &str,
        place: &mut Vec<DiskStep>,
    ) -> Result<bool, Failure> {
        let Some(unit) = self.disk_unit(folder, unit)? else {
            return Ok(false);
        };
        let file = format!(in self.alloc(); "ata_port/{ata}/port_no")?;
        let Some(number) = self.told_number(ancestor(folder, 5), &file)? else {
            return Ok(false);
        };
        let (Some(port), 0) = (below(number), unit.target) else {
            return Ok(false);
        };
        place.push(DiskStep::Sata {
            port,
            channel: unit.channel,
            lun: unit.lun,
        })?;
        Ok(true)
    }

    /// The unit of this name, if the folder of a disk in it says that it is a disk.
    fn disk_unit(&self, folder: &str, name: &str) -> Result<Option<ScsiUnit>, Failure> {
        match self.told_number(ancestor(folder, 2), "type")? {
            Some(DISK_TYPE) => Ok(scsi_unit(name)),
            _ => Ok(None),
        }
    }

    /// Appends the steps to the disk on USB that a folder is of, by the names of the folders from the bus on, and that of
    /// its unit.
    fn push_usb(
        &self,
        folder: &str,
        names: &[&str],
        unit: &str,
        place: &mut Vec<DiskStep>,
    ) -> Result<bool, Failure> {
        let [
            _bus,
            _hub,
            ..,
            interface,
            _host,
            _target,
            _unit,
            _block,
            _disk,
        ] = names
        else {
            return Ok(false);
        };
        if self.disk_unit(folder, unit)?.is_none() {
            return Ok(false);
        }
        let Some(found) = self.usb_interface(interface)? else {
            return Ok(false);
        };
        let [first, others @ ..] = found.ports.as_slice() else {
            return Ok(false);
        };
        let Some(root_port) = self.root_port(folder, names.len(), *first)? else {
            return Ok(false);
        };
        self.push_ports(root_port, others, found.interface, place)
    }

    /// Appends the steps from a port of a root hub over ports of hubs to an interface, which are counted from 1 on.
    fn push_ports(
        &self,
        root_port: u8,
        others: &[u8],
        interface: u8,
        place: &mut Vec<DiskStep>,
    ) -> Result<bool, Failure> {
        let mut last = root_port;
        for next in others {
            if last == 0 {
                return Ok(false);
            }
            place.push(DiskStep::Usb {
                port: last - 1,
                interface: 0,
            })?;
            last = *next;
        }
        if last == 0 {
            return Ok(false);
        }
        place.push(DiskStep::Usb {
            port: last - 1,
            interface,
        })?;
        Ok(true)
    }

    /// The port of the root hub that firmware counts, counted from 1 on, of a disk on USB whose folder is so many levels
    /// below that of its controller, if Linux has this port of its bus. A controller of USB 3 has two buses in Linux, and
    /// one row of ports in firmware, so that what ACPI tells of the port counts then.
    fn root_port(&self, folder: &str, levels: usize, port: u8) -> Result<Option<u8>, Failure> {
        let first = ancestor(folder, levels.saturating_sub(2));
        if let Some(text) = self.told_text(first, "port/firmware_node/adr")? {
            return Ok(address_of(&text));
        }
        let Some(names) = self.names_in(ancestor(folder, levels))? else {
            return Ok(None);
        };
        let buses = names.iter().filter(|name| name.starts_with(USB)).count();
        Ok(if buses == 1 { Some(port) } else { None })
    }

    /// The interface of this name.
    fn usb_interface(&self, name: &str) -> Result<Option<UsbInterface>, Failure> {
        let Some((device, interface)) = name.split_once(':') else {
            return Ok(None);
        };
        let (Some((_bus, ports)), Some((_configuration, interface))) = (
            device.split_once('-'),
            interface.split_once('.'),
        ) else {
            return Ok(None);
        };
        let Some(interface) = number_u8(interface) else {
            return Ok(None);
        };
        let mut found = Vec::new(self.alloc());
        for port in ports.split('.') {
            let Some(port) = number_u8(port) else {
                return Ok(None);
            };
            found.push(port)?;
        }
        Ok(Some(UsbInterface {
            ports: found,
            interface,
        }))
    }

    /// The number that the file of this name in a folder of /sys has, if it can be read.
    fn told_number(&self, folder: &str, file: &str) -> Result<Option<u64>, Failure> {
        match self.told_text(folder, file)? {
            Some(text) => Ok(read_number(&text)),
            None => Ok(None),
        }
    }
}

/// Appends the functions by which these names begin, and gives the names behind them.
fn push_functions<'a>(
    names: &'a [&'a str],
    place: &mut Vec<DiskStep>,
) -> Result<&'a [&'a str], Failure> {
    let mut behind = names;
    while let [name, others @ ..] = behind {
        let Some(function) = function_of(name) else {
            break;
        };
        place.push(function)?;
        behind = others;
    }
    Ok(behind)
}

/// The function of a PCI device that has this name, as `0000:00:1f.2`: its domain, its bus, the device and the function, in
/// hexadecimal digits.
fn function_of(name: &str) -> Option<DiskStep> {
    let (bus, place) = name.rsplit_once(':')?;
    let (domain, bus) = bus.split_once(':')?;
    let (device, function) = place.split_once('.')?;
    let _domain = u32::from_str_radix(domain, 16).ok()?;
    let _bus = u8::from_str_radix(bus, 16).ok()?;
    Some(DiskStep::Function {
        function: u8::from_str_radix(function, 16).ok()?,
        device: u8::from_str_radix(device, 16).ok()?,
    })
}

/// The unit of this name, as `0:0:0:0`: the host, the channel, the target and the logical unit.
fn scsi_unit(name: &str) -> Option<ScsiUnit> {
    let (_host, place) = name.split_once(':')?;
    let (channel, place) = place.split_once(':')?;
    let (target, lun) = place.split_once(':')?;
    Some(ScsiUnit {
        channel: number_u16(channel)?,
        target: number_u16(target)?,
        lun: number_u16(lun)?,
    })
}

/// The EUI-64 that a text of /sys has: 16 hexadecimal digits, and perhaps spaces between them.
fn eui_of(text: &[u8]) -> Option<[u8; 8]> {
    let text = str::from_utf8(text).ok()?;
    let mut eui = [0; 8];
    let mut bytes = text.split_ascii_whitespace();
    for byte in eui.iter_mut() {
        *byte = u8::from_str_radix(bytes.next()?, 16).ok()?;
    }
    match bytes.next() {
        None => Some(eui),
        Some(_) => None,
    }
}

/// The number of a port that ACPI has as its address, as `0x00000003`.
fn address_of(text: &[u8]) -> Option<u8> {
    let digits = str::from_utf8(text)
        .ok()?
        .trim_ascii_end()
        .strip_prefix("0x")?;
    u8::from_str_radix(digits, 16).ok()
}

/// The number before this one, if it has 16 bits.
fn below(number: u64) -> Option<u16> {
    u16::try_from(number.checked_sub(1)?).ok()
}

fn number_u16(digits: &str) -> Option<u16> {
    u16::try_from(read_number(digits.as_bytes())?).ok()
}

fn number_u8(digits: &str) -> Option<u8> {
    u8::try_from(read_number(digits.as_bytes())?).ok()
}

/// The folder so many levels above this one.
fn ancestor(folder: &str, levels: usize) -> &str {
    let mut above = folder;
    for _ in 0..levels {
        above = match Path::new(above).parent() {
            Some(parent) => parent.as_str(),
            None => return above,
        };
    }
    above
}
