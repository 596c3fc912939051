//! Requests as values.

ghost use Rattle.std.specs.Prelude.{◌≡◌, IfOk};
ghost use Rattle.std.specs.List.{AllByRecursion};
ghost use Rattle.uefi_vars.specs.Order.{IsEntryNumber};
ghost use Rattle.boot_requests.specs.Request.{IsRequest, kind_of, named_entry};
ghost use Rattle.boot_requests.specs.Words.{request_name};

use crate::frame::Kind;
use std::alloc::{AllocError, Global};
use std::marker::Model;
use uefi_option::LoadOption;

/// The numbers of entries in the order in which a boot is to try them, as BootOrder has them (UEFI 2.10, 3.3).
#[derive(Debug, Drop)]
pub struct OrderList {
    numbers: Vec<u16>,
}

impl Model for OrderList {
    ghost use Rattle.std.specs.Prelude.{ℕ, List};

    ghost Value = { List ℕ };

    ghost view = { λ order. order.numbers.items };
}

impl PartialEq for OrderList {
    ghost use Rattle.std.specs.Prelude.{◌≡◌, ◌==◌, ◌↔◌, IsTrue};
    ghost use Rattle.std.proofs.Common.{rules};
    ghost use Rattle.std.specs.Cmp.Lexicographic.{pointwise};
    ghost use Rattle.std.specs.Cmp.Rules.{comparing};

    ghost eq = { pointwise ◌==◌ };

    ghost laws = { Prim.search (comparing, rules) };

    fn eq(&self, other: &OrderList) -> bool
        ensures value { result ≡ pointwise ◌==◌ self.now other.now }
        ensures equal { IsTrue result ↔ (self.now ≡ other.now) }
    {
        self.numbers == other.numbers
    }
}

impl Eq for OrderList {
    ghost use Rattle.std.proofs.Common.{rules};
    ghost use Rattle.std.specs.Cmp.Rules.{comparing};

    ghost laws = { Prim.search (comparing, rules) };
}

impl OrderList {
    /// These numbers in their order.
    pub fn new(numbers: Vec<u16>) -> OrderList
        ensures { result ≡ numbers.items }
    {
        OrderList { numbers }
    }

    /// An equal list. This fails only when out of memory.
    pub fn copy(&self, alloc: Global) -> Result<OrderList, AllocError>
        ensures equal { IfOk result (λ order. order ≡ self.now) }
        ensures valid { AllByRecursion IsEntryNumber self.now }
    {
        let numbers = Vec::from_slice(alloc, self.numbers())?;
        Ok(OrderList { numbers })
    }

    /// The numbers.
    pub fn numbers(&self) -> &[u16]
        ensures numbers { result.now ≡ self.now }
        ensures valid { AllByRecursion IsEntryNumber self.now }
    {
        each_number(&self.numbers)
    }
}

/// The same numbers. A contract learns here what the type says: that each is one of two bytes.
fn each_number(numbers: &[u16]) -> &[u16]
    ensures same { result.now ≡ numbers.now }
    ensures valid { AllByRecursion IsEntryNumber numbers.now }
{
    numbers
}

/// A change of the boot entries (UEFI 2.10, 3.3). The number of an entry is that of its variable, `Boot####`.
#[derive(Debug, PartialEq, Eq, Drop)]
pub enum Request {
    /// Stores an entry that isn't there, and appends its number to BootOrder.
    Add(u16, LoadOption),
    /// Stores an entry in the place of one that is there.
    Replace(u16, LoadOption),
    /// Takes out an entry, its number from BootOrder, and a BootNext that names it.
    Remove(u16),
    /// Sets BootOrder to these numbers of entries that are there, each once.
    Order(OrderList),
    /// Sets BootNext to an entry that is there.
    Next(u16),
    /// Stores an entry under the least number that none has when the request is applied, and appends that number to
    /// BootOrder. The outcome tells it.
    AddFree(LoadOption),
    /// Stores an entry under such a number, and puts that number in front of BootOrder. The outcome tells it.
    AddFirst(LoadOption),
    /// Puts an entry that is there in front of BootOrder, and leaves the other numbers there as they are.
    First(u16),
}

impl Request {
    /// An equal request. This fails only when out of memory.
    pub fn copy(&self, alloc: Global) -> Result<Request, AllocError>
        ensures equal { IfOk result (λ request. request ≡ self.now) }
        ensures valid { IsRequest self.now }
    {
        Ok(match self {
            Request::Add(entry, option) => Request::Add(*entry, option.copy(alloc)?),
            Request::Replace(entry, option) => Request::Replace(*entry, option.copy(alloc)?),
            Request::Remove(entry) => Request::Remove(*entry),
            Request::Order(order) => Request::Order(order.copy(alloc)?),
            Request::Next(entry) => Request::Next(*entry),
            Request::AddFree(option) => Request::AddFree(option.copy(alloc)?),
            Request::AddFirst(option) => Request::AddFirst(option.copy(alloc)?),
            Request::First(entry) => Request::First(*entry),
        })
    }

    /// What the request is called: `add`, `replace`, `remove`, `order`, `next`, `add-free`, `add-first` or `first`.
    pub fn name(&self) -> &'static str
        ensures { result.now ≡ request_name self.now }
    {
        match self {
            Request::Add(..) => "add",
            Request::Replace(..) => "replace",
            Request::Remove(_) => "remove",
            Request::Order(_) => "order",
            Request::Next(_) => "next",
            Request::AddFree(_) => "add-free",
            Request::AddFirst(_) => "add-first",
            Request::First(_) => "first",
        }
    }

    /// The number of the entry that the request names, if it names one.
    pub fn entry(&self) -> Option<u16>
        ensures { result ≡ named_entry self.now }
    {
        match self {
            Request::Add(entry, _)
            | Request::Replace(entry, _)
            | Request::Remove(entry)
            | Request::First(entry)
            | Request::Next(entry) => Some(*entry),
            Request::Order(_) | Request::AddFree(_) | Request::AddFirst(_) => None,
        }
    }

    /// What the request is about.
    pub(crate) fn kind(&self) -> Kind
        ensures { result ≡ kind_of self.now }
    {
        match self {
            Request::Add(..) => Kind::Add,
            Request::Replace(..) => Kind::Replace,
            Request::Remove(_) => Kind::Remove,
            Request::Order(_) => Kind::Order,
            Request::Next(_) => Kind::Next,
            Request::AddFree(_) => Kind::AddFree,
            Request::AddFirst(_) => Kind::AddFirst,
            Request::First(_) => Kind::First,
        }
    }
}
