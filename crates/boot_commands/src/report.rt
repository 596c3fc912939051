//! What the showing subcommands answer: the whole of standard output, as text.

ghost use Rattle.std.specs.Prelude.{◌≡◌, IfOk, IfErr};
ghost use Rattle.hex.specs.Hex.{decode_of};
ghost use Rattle.uefi_vars.specs.Order.{HasBadOrder};
ghost use Rattle.boot_commands.specs.Report.{IfInput, TellsBadHex, TellsPathFault, TellsTextFault, TellsOptionFault, TellsVarFault, TellsSetFault};

use crate::refusal::{Refusal, refuse};
use hex::FromHexError;
use std::alloc::{AllocError, Global};
use uefi_option::{check_option, description_text, is_normal, read_option};
use uefi_path::{read_path, write_path};
use uefi_text::{PathText, read_text};
use uefi_vars::{PlanNumbers, Vars, boot_next, boot_order, entry_number, plan_numbers, read_set};

/// Shows the device path (UEFI 2.10, 10.3) at the start of the bytes that `hex` writes out, two digits of either case
/// for each. The report has the lines `instances N`, `nodes N`, over all instances and without the end nodes, `rest N`,
/// the bytes after the path, and `text T`, the path's text.
///
/// # Errors
///
/// [`Refusal::Input`] has the words `BadHex` if `hex` isn't an even number of hexadecimal digits; otherwise those of
/// the path's fault if the bytes don't begin with a path. [`Refusal::Memory`] comes only when out of memory.
pub fn path_report(alloc: Global, hex: &str) -> Result<String, Refusal>
    ensures { IfErr result (λ refusal. IfInput refusal (TellsPathFault hex.now)) }
{
    let bytes = read_hex(alloc, hex)?;
    let (path, len) = read_path(alloc, &bytes).map_err(|fault| refuse(alloc, fault))?;
    let instances = path.instances().len();
    // Each node takes bytes of the input, so the sum is never cut short.
    let nodes = path
        .instances()
        .iter()
        .fold(0usize, |sum, nodes| sum.saturating_add(nodes.len()));
    let rest = bytes.len() - len;
    let text = PathText(&path);
    Ok(format!(in alloc; "instances {instances}\nnodes {nodes}\nrest {rest}\ntext {text}\n")?)
}

/// Shows the bytes of the device path (UEFI 2.10, 10.3) that the text stands for, two lower-case hexadecimal digits for
/// each, on one line.
///
/// # Errors
///
/// [`Refusal::Input`] has the words of the text's fault if it doesn't stand for a path. [`Refusal::Memory`] comes only
/// when out of memory.
pub fn text_report(alloc: Global, text: &str) -> Result<String, Refusal>
    ensures { IfErr result (λ refusal. IfInput refusal (TellsTextFault text.now)) }
{
    let path = read_text(alloc, text).map_err(|fault| refuse(alloc, fault))?;
    let mut bytes = Vec::new(alloc);
    write_path(&path, &mut bytes)?;
    let mut report = hex::encode(alloc, bytes.as_slice())?;
    report.push('\n')?;
    Ok(report)
}

/// Shows the load option (UEFI 2.10, 3.1.3) that the bytes are, all of them. The report has the lines `attributes`,
/// with all eight hexadecimal digits, `active`, `category`, with four digits, `normal`, `description`, a line `path`
/// for each path of the list, and `optional`, the optional data in hexadecimal digits or `-` if there is none.
///
/// # Errors
///
/// [`Refusal::Input`] has the words of the option's fault if the bytes aren't a load option. [`Refusal::Memory`] comes
/// only when out of memory.
pub fn option_report(alloc: Global, bytes: &[u8]) -> Result<String, Refusal>
    ensures { IfErr result (λ refusal. IfInput refusal (TellsOptionFault bytes.now)) }
{
    let option = read_option(alloc, bytes).map_err(|fault| refuse(alloc, fault))?;
    let attributes = option.attributes();
    let active = yes_or_no(option.is_active());
    let category = option.category();
    let normal = yes_or_no(option.is_normal());
    let description = description_text(alloc, option.description())?;
    let mut report = format!(in alloc;
        "attributes 0x{attributes:08x}\nactive {active}\ncategory 0x{category:04x}\nnormal {normal}\n"
    )?;
    writeln!(report, "description {description}")?;
    for path in option.paths() {
        writeln!(report, "path {}", PathText(path))?;
    }
    let optional = optional_text(alloc, option.optional())?;
    writeln!(report, "optional {optional}")?;
    Ok(report)
}

/// Shows the boot variables (UEFI 2.10, 3.3) that the bytes of a set file hold, all of them. The report has the lines
/// `variables N`, one for each entry, a variable named `Boot` and four hexadecimal digits in upper case, by rising
/// number, `order` with the numbers of BootOrder or `-` if there is none, `next` with that of BootNext or `-`, and
/// `plan next`, `normal` and the numbers of each, of what a boot would try (3.1), as [`plan_numbers`] gives them. The
/// line of an entry has its name, `normal` or `other`, as [`is_normal`] says, and its description, or its name and
/// `undecodable` if its bytes aren't a load option.
///
/// # Errors
///
/// [`Refusal::Input`] has the words of the set's fault if the bytes aren't a set file; otherwise `BadOrder` if
/// BootOrder isn't a list of numbers; otherwise `BadNext` if BootNext isn't a number. [`Refusal::Memory`] comes only
/// when out of memory.
pub fn set_report(alloc: Global, bytes: &[u8]) -> Result<String, Refusal>
    ensures { IfErr result (λ refusal. IfInput refusal (TellsSetFault bytes.now)) }
{
    let vars = read_set(alloc, bytes).map_err(|fault| refuse(alloc, fault))?;
    variables_report(alloc, &vars)
}

/// Shows the boot variables.
fn variables_report(alloc: Global, vars: &Vars) -> Result<String, Refusal>
    ensures { IfErr result (λ refusal. IfInput refusal (TellsVarFault vars.now)) }
{
    let order = read_order(alloc, vars)?;
    let next = read_next(alloc, vars)?;
    let plan = read_plan(alloc, vars)?;
    let mut report = format!(in alloc; "variables {}\n", vars.len())?;
    append_entries(alloc, vars, &mut report)?;
    append_numbers("order", &order, &mut report)?;
    append_numbers("\nnext", next.as_slice(), &mut report)?;
    append_numbers("\nplan next", plan.next.as_slice(), &mut report)?;
    append_numbers(" normal", &plan.normal, &mut report)?;
    report.push('\n')?;
    Ok(report)
}

/// The numbers of BootOrder.
fn read_order(alloc: Global, vars: &Vars) -> Result<Vec<u16>, Refusal>
    ensures good { IfOk result (λ _. HasBadOrder vars.now → ⊥) }
    ensures refused { IfErr result (λ refusal. IfInput refusal (TellsVarFault vars.now)) }
{
    boot_order(alloc, vars).map_err(|fault| refuse(alloc, fault))
}

/// The number of BootNext, if BootOrder isn't bad.
fn read_next(alloc: Global, vars: &Vars) -> Result<Option<u16>, Refusal>
    requires { HasBadOrder vars.now → ⊥ }
    ensures refused { IfErr result (λ refusal. IfInput refusal (TellsVarFault vars.now)) }
{
    boot_next(vars).map_err(|fault| refuse(alloc, fault))
}

/// The numbers of what a boot would try.
fn read_plan(alloc: Global, vars: &Vars) -> Result<PlanNumbers, Refusal>
    ensures refused { IfErr result (λ refusal. IfInput refusal (TellsVarFault vars.now)) }
{
    plan_numbers(alloc, vars).map_err(|fault| refuse(alloc, fault))
}

/// Appends the line of each entry.
fn append_entries(alloc: Global, vars: &Vars, report: &mut String) -> Result<(), AllocError> {
    for (name, data) in vars.iter() {
        if entry_number(name).is_some() {
            append_entry(alloc, name, data, report)?;
        }
    }
    Ok(())
}

/// Appends the line of the entry of this name, whose variable has these bytes.
fn append_entry(
    alloc: Global,
    name: &str,
    data: &[u8],
    report: &mut String,
) -> Result<(), AllocError> {
    match check_option(data) {
        Ok(option) => {
            let kind = if is_normal(option.attributes) {
                "normal"
            } else {
                "other"
            };
            let description = option.description_text(alloc)?;
            writeln!(report, "{name} {kind} {description}")
        }
        Err(_) => writeln!(report, "{name} undecodable"),
    }
}

/// Appends the word and the numbers, each after a blank with four hexadecimal digits in upper case, or `-` if there is
/// none.
fn append_numbers(word: &str, numbers: &[u16], report: &mut String) -> Result<(), AllocError> {
    report.push_str(word)?;
    if numbers.is_empty() {
        report.push_str(" -")?;
    }
    for number in numbers {
        write!(report, " {number:04X}")?;
    }
    Ok(())
}

fn yes_or_no(is: bool) -> &'static str {
    if is { "yes" } else { "no" }
}

fn optional_text(alloc: Global, bytes: &[u8]) -> Result<String, AllocError> {
    if bytes.is_empty() {
        String::from_str(alloc, "-")
    } else {
        hex::encode(alloc, bytes)
    }
}

fn read_hex(alloc: Global, hex: &str) -> Result<Vec<u8>, Refusal>
    ensures found { IfOk result (λ bytes. decode_of hex.now ≡ Ok bytes.items) }
    ensures refused { IfErr result (λ refusal. IfInput refusal (TellsBadHex hex.now)) }
{
    match hex::decode(alloc, hex) {
        Ok(bytes) => Ok(bytes),
        Err(FromHexError::OutOfMemory) => Err(Refusal::Memory),
        Err(_) => Err(Refusal::Input(String::from_str(alloc, "BadHex")?)),
    }
}
