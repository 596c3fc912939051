//! What a boot would try, as a value and as text.

ghost use Rattle.std.specs.Prelude.{◌≡◌, ◌++◌, IfOk, OnOk};
ghost use Rattle.std.specs.Option.{option_map};
ghost use Rattle.std.specs.String.{string_bytes};
ghost use Rattle.uefi_vars.specs.Plan.{plan_parts};
ghost use Rattle.uefi_vars.specs.Words.{number_words, choices_words, plan_words};

use crate::name::four_digits;
use std::alloc::{AllocError, Global};
use std::marker::Model;
use uefi_option::{LoadOption, laws};

/// An option that is to be tried: the number of its entry, and the option.
#[derive(Debug, PartialEq, Eq, Drop)]
pub struct Choice {
    /// The number of its entry, as in Boot####.
    pub number: u16,
    /// The load option that is stored there.
    pub option: LoadOption,
}

impl Choice {
    /// An equal choice, whose option shares the lists of this one's. This fails only when out of memory.
    pub fn copy(&self, alloc: Global) -> Result<Choice, AllocError>
        ensures { IfOk result (λ copy. copy ≡ self.now) }
    {
        Ok(Choice {
            number: self.number,
            option: self.option.copy(alloc)?,
        })
    }
}

/// What a boot would try (UEFI 2.10, 3.3): first one option, if BootNext names one, and then others in their order.
#[derive(Debug, Drop)]
pub struct BootPlan {
    next: Option<Choice>,
    normal: Vec<Choice>,
}

impl Model for BootPlan {
    ghost use Rattle.uefi_vars.specs.Plan.{PlanParts, plan_parts};

    ghost Value = { PlanParts };

    ghost view = { λ p. plan_parts p.next p.normal.items };
}

impl PartialEq for BootPlan {
    ghost use Rattle.std.specs.Prelude.{◌≡◌, ◌↔◌, IsTrue};
    ghost use Rattle.std.proofs.Common.{rules};
    ghost use Rattle.std.specs.Cmp.Rules.{comparing};
    ghost use Rattle.uefi_option.specs.contracts.load_option.LoadOptionEq.TheImpl.Laws.{laws-law as option_equiv};
    ghost use Rattle.uefi_vars.specs.PlanEquality.{plan_eq};

    ghost eq = { plan_eq };

    ghost laws = { Prim.search (comparing, rules, option_equiv) depth 8 };

    fn eq(&self, other: &BootPlan) -> bool
        ensures value { result ≡ plan_eq self.now other.now }
        ensures equal { IsTrue result ↔ (self.now ≡ other.now) }
    {
        laws::load_options_compare_as_values();
        self.next == other.next && self.normal == other.normal
    }
}

impl Eq for BootPlan {
    ghost use Rattle.std.proofs.Common.{rules};
    ghost use Rattle.std.specs.Cmp.Rules.{comparing};
    ghost use Rattle.uefi_option.specs.contracts.load_option.LoadOptionEq.TheImpl.Laws.{laws-law as option_equiv};

    ghost laws = { Prim.search (comparing, rules, option_equiv) depth 8 };
}

impl BootPlan {
    /// The plan that tries this option first, if there is one, and then these.
    pub fn new(next: Option<Choice>, normal: Vec<Choice>) -> BootPlan
        ensures { result ≡ plan_parts next normal.items }
    {
        BootPlan { next, normal }
    }

    /// BootNext's option, which is tried first whatever its attributes are: `None` if BootNext isn't stored, or if its
    /// entry isn't stored or isn't a load option.
    pub fn next(&self) -> Option<&Choice>
        ensures { option_map (λ choice. choice.now) result ≡ self.now.next }
    {
        self.next.as_ref()
    }

    /// The normal options of BootOrder, which are tried then, in their order.
    pub fn normal(&self) -> &[Choice]
        ensures { result.now ≡ self.now.normal }
    {
        &self.normal
    }

    /// The option that is tried first, if there is one, and the others in their order, given away. This takes no memory.
    pub fn into_parts(self) -> (Option<Choice>, Vec<Choice>)
        ensures { plan_parts result.0 result.1.items ≡ self }
    {
        let BootPlan { next, normal } = self;
        (next, normal)
    }

    /// An equal plan, whose options share the lists of this one's: this takes memory for the choices alone. The call
    /// fails only if it is out of memory.
    pub fn copy(&self, alloc: Global) -> Result<BootPlan, AllocError>
        ensures { IfOk result (λ plan. plan ≡ self.now) }
    {
        let next = copy_if_any(alloc, self.next.as_ref())?;
        let normal = copy_choices(alloc, &self.normal)?;
        Ok(BootPlan { next, normal })
    }

    /// The plan as one line of words with one blank between two: `plan`, `next`, the number of the option that is tried
    /// first, `normal`, and the numbers of the others in their order. A number has four hexadecimal digits, in upper
    /// case, and `-` is written if there is none. This fails only when out of memory.
    pub fn words(&self, alloc: Global) -> Result<String, AllocError>
        ensures { IfOk result (λ text. string_bytes text ≡ plan_words self.now) }
    {
        let mut text = String::from_str(alloc, "plan next")?;
        match &self.next {
            Some(choice) => append_number(choice.number, &mut text)?,
            None => text.push_str(" -")?,
        }
        text.push_str(" normal")?;
        append_numbers(&self.normal, &mut text)?;
        Ok(text)
    }
}

/// The numbers of what a boot would try (UEFI 2.10, 3.3), without the options.
#[derive(Debug, PartialEq, Eq, Drop)]
pub struct PlanNumbers {
    /// The number of the option that is tried first: `None` if [`BootPlan::next`] gives none.
    pub next: Option<u16>,
    /// The numbers of the options that are tried then, in their order, as [`BootPlan::normal`] gives them.
    pub normal: Vec<u16>,
}

/// An equal choice, if there is one, and memory for it.
pub(crate) fn copy_if_any(
    alloc: Global,
    choice: Option<&Choice>,
) -> Result<Option<Choice>, AllocError>
    ensures { IfOk result (λ copy. copy ≡ option_map (λ c. c.now) choice.entry) }
{
    match choice {
        Some(choice) => Ok(Some(choice.copy(alloc)?)),
        None => Ok(None),
    }
}

/// Equal choices, if there is memory for them.
fn copy_choices(alloc: Global, choices: &[Choice]) -> Result<Vec<Choice>, AllocError>
    ensures { IfOk result (λ copies. copies.items ≡ choices.now) }
{
    let mut copies = Vec::with_capacity(alloc, choices.len())?;
    for choice in choices {
        copies.push(choice.copy(alloc)?)?;
    }
    Ok(copies)
}

/// Appends a blank and a number.
fn append_number(number: u16, text: &mut String) -> Result<(), AllocError>
    ensures { OnOk result (string_bytes text.new ≡ string_bytes text.old ++ number_words number) }
{
    text.push(' ')?;
    let [a, b, c, d] = four_digits(number);
    text.push(char::from(a))?;
    text.push(char::from(b))?;
    text.push(char::from(c))?;
    text.push(char::from(d))
}

/// Appends the numbers of the choices, or what stands for none.
fn append_numbers(choices: &[Choice], text: &mut String) -> Result<(), AllocError>
    ensures { OnOk result
        (string_bytes text.new ≡ string_bytes text.old ++ choices_words choices.now) }
{
    if choices.is_empty() {
        return text.push_str(" -");
    }
    for choice in choices {
        append_number(choice.number, text)?;
    }
    Ok(())
}
