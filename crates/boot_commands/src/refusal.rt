//! Why a report is refused, and what the faults of the libraries are to it.

ghost use Rattle.std.specs.Prelude.{◌≡◌, ◌↔◌, ℕ, List, IfOk, IsTrue};
ghost use Rattle.std.specs.String.{string_bytes};
ghost use Rattle.uefi_option.specs.Words.{option_fault_words};
ghost use Rattle.uefi_option.specs.declared.fault.OptionFault.TheVariants as option_fault;
ghost use Rattle.uefi_path.specs.Words.{path_fault_words};
ghost use Rattle.uefi_path.specs.declared.fault.PathFault.TheVariants as path_fault;
ghost use Rattle.uefi_text.specs.Words.{text_fault_words};
ghost use Rattle.uefi_text.specs.declared.fault.TextFault.TheVariants as text_fault;
ghost use Rattle.uefi_vars.specs.Words.{set_fault_words, var_fault_words};
ghost use Rattle.uefi_vars.specs.declared.fault.SetFault.TheVariants as set_fault;
ghost use Rattle.uefi_vars.specs.declared.fault.VarFault.TheVariants as var_fault;
ghost use Rattle.boot_commands.specs.Report.{IfInput};
ghost use Rattle.boot_commands.specs.declared.refusal.Refusal.TheVariants as refusal;

use std::alloc::{AllocError, Global};
use uefi_option::OptionFault;
use uefi_path::PathFault;
use uefi_text::TextFault;
use uefi_vars::{SetFault, VarFault};

/// Why a report is refused.
#[derive(Debug, Drop)]
pub enum Refusal {
    /// The input is at fault. The words name the fault and its place, as `BadLength 0`.
    Input(String),
    /// Memory was refused.
    Memory,
}

impl From<AllocError> for Refusal {
    ghost from_gives = { λ _ made. made ≡ refusal.Memory };

    fn from(_refusal: AllocError) -> Refusal {
        Refusal::Memory
    }
}

/// What a library answers if it gives no value: a fault of its input, or that it is out of memory.
pub trait Fault {
    // The case that tells of no input: memory was refused.
    ghost memory: { Self };

    // The words of each case.
    ghost words: { Self → List ℕ };

    /// Whether memory was refused.
    fn is_memory(&self) -> bool
        ensures { IsTrue result ↔ (self.now ≡ memory) };

    /// The words, which name the fault and its place.
    fn words(&self, alloc: Global) -> Result<String, AllocError>
        ensures { IfOk result (λ text. string_bytes text ≡ words self.now) };
}

/// What a fault is to a report: out of memory, or the input's fault in its words, if there is memory for these.
pub fn refuse<F: Fault + Drop>(alloc: Global, fault: F) -> Refusal
    ensures memory { fault ≡ F.memory → result ≡ refusal.Memory }
    ensures words { IfInput result (λ text. text ≡ F.words fault) }
{
    if fault.is_memory() {
        return Refusal::Memory;
    }
    match fault.words(alloc) {
        Ok(words) => Refusal::Input(words),
        Err(AllocError) => Refusal::Memory,
    }
}

impl Fault for PathFault {
    ghost memory = { path_fault.OutOfMemory };

    ghost words = { path_fault_words };

    fn is_memory(&self) -> bool {
        matches!(self, PathFault::OutOfMemory)
    }

    fn words(&self, alloc: Global) -> Result<String, AllocError> {
        PathFault::words(self, alloc)
    }
}

impl Fault for TextFault {
    ghost memory = { text_fault.OutOfMemory };

    ghost words = { text_fault_words };

    fn is_memory(&self) -> bool {
        matches!(self, TextFault::OutOfMemory)
    }

    fn words(&self, alloc: Global) -> Result<String, AllocError> {
        TextFault::words(self, alloc)
    }
}

impl Fault for OptionFault {
    ghost memory = { option_fault.OutOfMemory };

    ghost words = { option_fault_words };

    fn is_memory(&self) -> bool {
        matches!(self, OptionFault::OutOfMemory)
    }

    fn words(&self, alloc: Global) -> Result<String, AllocError> {
        OptionFault::words(self, alloc)
    }
}

impl Fault for SetFault {
    ghost memory = { set_fault.OutOfMemory };

    ghost words = { set_fault_words };

    fn is_memory(&self) -> bool {
        matches!(self, SetFault::OutOfMemory)
    }

    fn words(&self, alloc: Global) -> Result<String, AllocError> {
        SetFault::words(self, alloc)
    }
}

impl Fault for VarFault {
    ghost memory = { var_fault.OutOfMemory };

    ghost words = { var_fault_words };

    fn is_memory(&self) -> bool {
        matches!(self, VarFault::OutOfMemory)
    }

    fn words(&self, alloc: Global) -> Result<String, AllocError> {
        VarFault::words(self, alloc)
    }
}
