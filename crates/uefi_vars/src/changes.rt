//! What is to become of variables, before it is made.

ghost use Rattle.std.specs.Prelude.{◌≡◌, ◌≢◌, ◌↔◌, ◌<◌, [], length, is_some, Some, None, Err, OnOk, OnErr, IfErr, IsErrAnd};
ghost use Rattle.std.specs.Option.{option_map};
ghost use Rattle.std.specs.FinMap as map;
ghost use Rattle.uefi_vars.specs.declared.fault.PutFault.{PutFault};
ghost use Rattle.uefi_vars.specs.Name.{IsName, entry_text};
ghost use Rattle.uefi_vars.specs.Vars.{Variables, name_cmp, data_max, IsVariable, entry_of};
ghost use Rattle.uefi_vars.specs.NameChanges.{with_changes, or_before};
ghost use Rattle.uefi_vars.specs.ChangeRecords.{AreChanges};
ghost use Rattle.uefi_vars.specs.Records.{pairs_of};
ghost use Rattle.uefi_vars.specs.Free.{IsLowestFreeIfAny};

use crate::fault::{PutFault, PutRefusal};
use crate::free::lowest_free;
use crate::name::{entry_name, name_text};
use crate::named::{Named, find, make_place, seek, set_at};
use crate::shared::Shared;
use crate::vars::{Vars, check_variable};
use std::alloc::{AllocError, AllocFailed, Global};
use std::marker::Model;

/// What is to become of the variable of a name: it gets this data, or it is taken out.
pub(crate) type Change = Named<Option<Shared>>;

/// What is to become of variables: which names get new data, and which are taken out. [`Vars::make`] makes all of it, or
/// nothing if memory is refused. Until then each call that reads is given the variables, and answers as if it were made.
#[derive(Debug, Drop)]
pub struct Changes {
    /// Each name once, in the order of the names.
    changes: Vec<Change>,
}

impl Model for Changes {
    ghost use Rattle.std.specs.FinMap as map;
    ghost use Rattle.std.specs.Coded.{coded_ℕ, coded_list, coded_option};
    ghost use Rattle.uefi_vars.specs.NameChanges.{NameChanges};

    ghost Value = { NameChanges };

    ghost coded = { map.code (coded_list coded_ℕ) (coded_option (coded_list coded_ℕ)) };

    ghost use Rattle.uefi_vars.specs.ChangeRecords.{AreChanges, changes_of};
    ghost use Rattle.uefi_vars.specs.Records.{pairs_of};

    ghost view = { λ c. changes_of c.changes.items };

    ghost invariant = { λ c. AreChanges (pairs_of c.changes.items) };
}

impl Changes {
    /// Nothing is to change.
    pub fn new(alloc: Global) -> Changes
        ensures { (vars : Variables) → with_changes vars result ≡ vars }
    {
        Changes {
            changes: Vec::new(alloc),
        }
    }

    /// The changes, in the order of their names.
    pub(crate) fn into_each(self) -> Vec<Change>
        ensures each { pairs_of result.items ≡ map.entries self }
        ensures held { AreChanges (pairs_of result.items) }
    {
        self.changes
    }

    /// The data of the variable of this name, if there is one then.
    pub fn get<'a>(&'a self, vars: &'a Vars, name: &str) -> Option<&'a [u8]>
        ensures { option_map (λ bytes. bytes.now) result
            ≡ map.get (with_changes vars.now self.now) name.now }
    {
        match find(&self.changes, name.as_bytes()) {
            Some(Some(data)) => Some(data.as_slice()),
            Some(None) => None,
            None => vars.get(name),
        }
    }

    /// The data of the entry of this number, the variable `Boot####` (UEFI 2.10, 3.1.1), if there is one then.
    pub fn entry<'a>(&'a self, vars: &'a Vars, number: u16) -> Option<&'a [u8]>
        ensures { option_map (λ bytes. bytes.now) result ≡ entry_of (with_changes vars.now self.now) number }
    {
        let name = entry_name(number);
        self.get(vars, name_text(&name))
    }

    /// The least number under which no entry is stored then, or `None` if all of 0x0000 to 0xFFFF are taken, as
    /// [`lowest_free`] finds it. The call takes no memory, and goes over the variables and the changes once.
    pub fn lowest_free(&self, vars: &Vars) -> Option<u16>
        ensures { IsLowestFreeIfAny (entry_of (with_changes vars.now self.now)) result }
    {
        if self.changes.is_empty() {
            return lowest_free(vars);
        }
        self.first_free(vars)
    }

    /// The same, number by number.
    fn first_free(&self, vars: &Vars) -> Option<u16>
        ensures { IsLowestFreeIfAny (entry_of (with_changes vars.now self.now)) result }
    {
        let mut changes = self.changes.as_slice();
        let mut variables = vars.variables();
        // The names of entries rise with their numbers.
        for number in 0..=u16::MAX {
            let name = entry_name(number);
            let (changes_left, change) = seek(changes, &name);
            let (variables_left, data) = seek(variables, &name);
            if !is_stored(change, data) {
                return Some(number);
            }
            changes = changes_left;
            variables = variables_left;
        }
        None
    }

    /// The variable of this name is to get this data, which is copied, whatever was to become of it before. A refusal
    /// changes nothing.
    ///
    /// # Errors
    ///
    /// [`PutFault::BadName`] if the name isn't one to [`NAME_MAX`](crate::NAME_MAX) characters from 0x21 to 0x7E;
    /// otherwise [`PutFault::EmptyData`] if there is no data; otherwise [`PutFault::DataTooLong`] if it has more than
    /// [`DATA_MAX`] bytes; otherwise [`PutFault::OutOfMemory`] if memory for it was refused.
    pub fn put(&mut self, name: &str, value: &[u8]) -> Result<(), PutFault>
        ensures put { OnOk result ((vars : Variables) →
            with_changes vars self.new ≡ map.insert (with_changes vars self.old) name.now value.now) }
        ensures valid { OnOk result (IsVariable (name.now, value.now)) }
        ensures unchanged { OnErr result (self.new ≡ self.old) }

        ensures bad_name { (result ≡ Err PutFault.BadName) ↔ (¬ IsName name.now) }
        ensures empty_data { (result ≡ Err PutFault.EmptyData) ↔ (IsName name.now × (value.now ≡ [])) }
        ensures data_too_long { (result ≡ Err PutFault.DataTooLong)
            ↔ (IsName name.now × (data_max < length value.now)) }
    {
        let changes = &mut self.changes;
        check_variable(name, value)?;
        let value = Vec::from_slice(*changes.allocator(), value)?;
        store(changes, name, value)?;
        Ok(())
    }

    /// The variable of this name is to get the bytes of this list, as by [`Changes::put`], but the list is taken over instead
    /// of copied, with the room that it has to spare. A refusal changes nothing, and hands the list back.
    ///
    /// # Errors
    ///
    /// The list, with the fault, which is as for [`Changes::put`]: [`PutFault::BadName`], otherwise
    /// [`PutFault::EmptyData`], otherwise [`PutFault::DataTooLong`], otherwise [`PutFault::OutOfMemory`].
    pub fn put_vec(&mut self, name: &str, value: Vec<u8>) -> Result<(), PutRefusal>
        ensures put { OnOk result ((vars : Variables) →
            with_changes vars self.new ≡ map.insert (with_changes vars self.old) name.now value.items) }
        ensures valid { OnOk result (IsVariable (name.now, value.items)) }
        ensures unchanged { OnErr result (self.new ≡ self.old) }
        ensures value_returned { IfErr result (λ refusal. refusal.value.items ≡ value.items) }

        ensures bad_name { IsErrAnd result (λ refusal. refusal.fault ≡ PutFault.BadName)
            ↔ (¬ IsName name.now) }
        ensures empty_data { IsErrAnd result (λ refusal. refusal.fault ≡ PutFault.EmptyData)
            ↔ (IsName name.now × (value.items ≡ [])) }
        ensures data_too_long { IsErrAnd result (λ refusal. refusal.fault ≡ PutFault.DataTooLong)
            ↔ (IsName name.now × (data_max < length value.items)) }
    {
        let changes = &mut self.changes;
        if let Err(fault) = check_variable(name, value.as_slice()) {
            return Err(PutRefusal { fault, value });
        }
        store(changes, name, value)?;
        Ok(())
    }

    /// The entry of this number, the variable `Boot####` (UEFI 2.10, 3.1.1), is to get this data, which is copied. A
    /// refusal changes nothing.
    ///
    /// # Errors
    ///
    /// [`PutFault::EmptyData`] if there is no data; otherwise [`PutFault::DataTooLong`] if it has more than
    /// [`DATA_MAX`] bytes; otherwise [`PutFault::OutOfMemory`] if memory for it was refused. [`PutFault::BadName`]
    /// never comes, since each number has a name.
    pub fn put_entry(&mut self, number: u16, value: &[u8]) -> Result<(), PutFault>
        ensures put { OnOk result ((vars : Variables) →
            with_changes vars self.new ≡ map.insert (with_changes vars self.old) (entry_text number) value.now) }
        ensures valid { OnOk result (IsVariable (entry_text number, value.now)) }
        ensures unchanged { OnErr result (self.new ≡ self.old) }

        ensures named { result ≢ Err PutFault.BadName }
        ensures empty_data { (result ≡ Err PutFault.EmptyData) ↔ (value.now ≡ []) }
        ensures data_too_long { (result ≡ Err PutFault.DataTooLong) ↔ (data_max < length value.now) }
    {
        let name = entry_name(number);
        self.put(name_text(&name), value)
    }

    /// The entry of this number, the variable `Boot####` (UEFI 2.10, 3.1.1), is to get the bytes of this list, as by
    /// [`Changes::put_entry`], but the list is taken over instead of copied. A refusal changes nothing, and hands the list
    /// back.
    ///
    /// # Errors
    ///
    /// The list, with the fault, which is as for [`Changes::put_entry`]: [`PutFault::EmptyData`], otherwise
    /// [`PutFault::DataTooLong`], otherwise [`PutFault::OutOfMemory`].
    pub fn put_entry_vec(&mut self, number: u16, value: Vec<u8>) -> Result<(), PutRefusal>
        ensures put { OnOk result ((vars : Variables) →
            with_changes vars self.new ≡ map.insert (with_changes vars self.old) (entry_text number) value.items) }
        ensures valid { OnOk result (IsVariable (entry_text number, value.items)) }
        ensures unchanged { OnErr result (self.new ≡ self.old) }
        ensures value_returned { IfErr result (λ refusal. refusal.value.items ≡ value.items) }

        ensures named { IfErr result (λ refusal. refusal.fault ≢ PutFault.BadName) }
        ensures empty_data { IsErrAnd result (λ refusal. refusal.fault ≡ PutFault.EmptyData)
            ↔ (value.items ≡ []) }
        ensures data_too_long { IsErrAnd result (λ refusal. refusal.fault ≡ PutFault.DataTooLong)
            ↔ (data_max < length value.items) }
    {
        let name = entry_name(number);
        self.put_vec(name_text(&name), value)
    }

    /// The variable of this name is to be taken out, if there is one then. A refusal changes nothing.
    ///
    /// # Errors
    ///
    /// [`AllocError`] if memory was refused.
    pub fn remove(&mut self, name: &str) -> Result<(), AllocError>
        ensures removed { OnOk result ((vars : Variables) →
            with_changes vars self.new ≡ map.remove (with_changes vars self.old) name.now) }
        ensures unchanged { OnErr result (self.new ≡ self.old) }
    {
        store_removal(&mut self.changes, name)?;
        Ok(())
    }

    /// The entry of this number, the variable `Boot####` (UEFI 2.10, 3.1.1), is to be taken out, if there is one then. A
    /// refusal changes nothing.
    ///
    /// # Errors
    ///
    /// [`AllocError`] if memory was refused.
    pub fn remove_entry(&mut self, number: u16) -> Result<(), AllocError>
        ensures removed { OnOk result ((vars : Variables) →
            with_changes vars self.new ≡ map.remove (with_changes vars self.old) (entry_text number)) }
        ensures unchanged { OnErr result (self.new ≡ self.old) }
    {
        let name = entry_name(number);
        self.remove(name_text(&name))
    }
}

/// Whether there is a variable of a name then, by the change of the name, if any, and otherwise by the data that there
/// is now.
fn is_stored(change: Option<&Option<Shared>>, before: Option<&Shared>) -> bool
    ensures { result ≡ is_some (or_before
        (option_map (λ kept. kept.now) change.entry) (option_map (λ kept. kept.now) before.entry)) }
{
    match change {
        Some(new) => new.is_some(),
        None => before.is_some(),
    }
}

/// The variable of this name is to get the bytes of this list, which is taken over, or handed back if memory is refused.
fn store(changes: &mut Vec<Change>, name: &str, value: Vec<u8>) -> Result<(), AllocFailed<Vec<u8>>>
    requires rising { AreChanges (pairs_of changes.old.items) }
    requires valid { IsVariable (name.now, value.items) }
    ensures stored { OnOk result (pairs_of changes.new.items
        ≡ map.put name_cmp name.now (Some value.items) (pairs_of changes.old.items)) }
    ensures unchanged { OnErr result (changes.new.items ≡ changes.old.items) }
    ensures held { AreChanges (pairs_of changes.new.items) }
    ensures value_returned { IfErr result (λ refusal. refusal.value ≡ value) }
{
    let Ok(place) = make_place(changes, name) else {
        return Err(AllocFailed { value });
    };
    match Shared::from_vec(value) {
        Ok(data) => {
            set_at(changes, place, Some(data));
            Ok(())
        }
        Err(refusal) => Err(refusal),
    }
}

/// The variable of this name is to be taken out.
fn store_removal(changes: &mut Vec<Change>, name: &str) -> Result<(), AllocError>
    requires { AreChanges (pairs_of changes.old.items) }
    ensures stored { OnOk result (pairs_of changes.new.items
        ≡ map.put name_cmp name.now None (pairs_of changes.old.items)) }
    ensures unchanged { OnErr result (changes.new.items ≡ changes.old.items) }
    ensures held { AreChanges (pairs_of changes.new.items) }
{
    let place = make_place(changes, name)?;
    set_at(changes, place, None);
    Ok(())
}
