//! The variables of a machine as one value.

ghost use Rattle.std.specs.Prelude.{◌≡◌, ◌≢◌, ◌↔◌, ◌<◌, ◌≤◌, ◌+◌, [], length, slice_get, is_some, Err, IfOk, IfErr, IsErrAnd, OnOk, OnErr, IsTrue};
ghost use Rattle.std.specs.Option.{option_map};
ghost use Rattle.std.specs.List.{AllByRecursion};
ghost use Rattle.std.specs.Vec.{vec_len, vec_capacity};
ghost use Rattle.std.specs.FinMap as map;
ghost use Rattle.uefi_vars.specs.declared.fault.PutFault.{PutFault};
ghost use Rattle.uefi_vars.specs.Name.{IsName, entry_text};
ghost use Rattle.uefi_vars.specs.Vars.{name_cmp, data_max, IsVariable, IsVars, entry_of};
ghost use Rattle.uefi_vars.specs.Records.{pair_of, pairs_of, AreVariables, vars_of, without};
ghost use Rattle.uefi_vars.specs.NameChanges.{with_changes, with_data, after_each, IsChange};

use crate::changes::{Change, Changes};
use crate::fault::{PutFault, PutRefusal};
use crate::name::{entry_name, is_name, name_text};
use crate::named::{Named, find, make_place, place_of, search, set_at};
use crate::shared::Shared;
use std::alloc::{AllocError, AllocFailed, Global};
use std::marker::Model;

/// The most bytes that the data of a variable has.
pub const DATA_MAX: usize = 1_048_576;

/// A variable: its name and its data, of which its copies share the bytes. Nobody writes into shared bytes: a variable that
/// is set gets new ones.
pub(crate) type Variable = Named<Shared>;

/// The variables of a machine: a finite map from names to data. A name has one to [`NAME_MAX`](crate::NAME_MAX) characters
/// from 0x21 to 0x7E. No variable is without data, since setting a variable to no data deletes it (UEFI 2.10, 8.2), and none
/// has more than [`DATA_MAX`] bytes. The vendors' GUIDs of variables and their attributes are not kept.
#[derive(Debug, Drop)]
pub struct Vars {
    /// In the order of their names.
    variables: Vec<Variable>,
}

impl Model for Vars {
    ghost use Rattle.std.specs.FinMap as map;
    ghost use Rattle.std.specs.Coded.{coded_ℕ, coded_list};
    ghost use Rattle.uefi_vars.specs.Vars.{Variables};

    ghost Value = { Variables };

    ghost coded = { map.code (coded_list coded_ℕ) (coded_list coded_ℕ) };

    ghost use Rattle.uefi_vars.specs.Records.{pairs_of, AreVariables, vars_of};

    ghost view = { λ v. vars_of v.variables.items };

    ghost invariant = { λ v. AreVariables (pairs_of v.variables.items) };
}

impl PartialEq for Vars {
    ghost use Rattle.std.specs.Prelude.{◌≡◌, ◌↔◌, IsTrue};
    ghost use Rattle.std.proofs.Common.{rules};
    ghost use Rattle.std.specs.Cmp.Rules.{comparing};
    ghost use Rattle.uefi_vars.specs.Equality.{vars_eq};

    ghost eq = { vars_eq };

    ghost laws = { Prim.search (comparing, rules) };

    fn eq(&self, other: &Vars) -> bool
        ensures value { result ≡ vars_eq self.now other.now }
        ensures equal { IsTrue result ↔ (self.now ≡ other.now) }
    {
        self.variables == other.variables
    }
}

impl Eq for Vars {
    ghost use Rattle.std.proofs.Common.{rules};
    ghost use Rattle.std.specs.Cmp.Rules.{comparing};

    ghost laws = { Prim.search (comparing, rules) };
}

/// The variables of a machine in the rising order of the names' bytes, each as its name and its data, as [`Vars::iter`]
/// gives them.
#[derive(Clone, Copy, Debug)]
pub struct Iter<'a> {
    variables: &'a [Variable],
}

impl<'a> Iterator for Iter<'a> {
    type Item = (&'a str, &'a [u8]);

    ghost use Rattle.std.specs.Iterator.{YieldsFirstBy, item_count};
    ghost use Rattle.uefi_vars.specs.Iter.{variables_left};

    ghost next_gives = { YieldsFirstBy (λ item. (item.0.now, item.1.now)) variables_left };

    ghost remaining = { item_count variables_left };

    fn next(&mut self) -> Option<(&'a str, &'a [u8])> {
        let (variable, others) = self.variables.split_first()?;
        self.variables = others;
        Some((variable.name.as_str(), variable.kept.as_slice()))
    }
}

impl<'a> ExactSizeIterator for Iter<'a> {
    fn len(&self) -> usize {
        self.variables.len()
    }
}

impl Vars {
    ghost use Rattle.uefi_vars.specs.Iter.{variables_left};

    /// No variables.
    pub fn new(alloc: Global) -> Vars
        ensures { result ≡ map.empty }
    {
        Vars {
            variables: Vec::new(alloc),
        }
    }

    /// These variables, which are in the order of their names.
    pub(crate) fn from_variables(variables: Vec<Variable>) -> Vars
        requires { AreVariables (pairs_of variables.items) }
        ensures { result ≡ vars_of variables.items }
    {
        Vars { variables }
    }

    /// The variables, in the order of their names.
    pub(crate) fn variables(&self) -> &[Variable]
        ensures pairs { pairs_of result.now ≡ map.entries self.now }
        ensures valid { IsVars self.now }
    {
        &self.variables
    }

    /// An equal value. The two share the bytes of the names and of the data, so this takes memory for one list alone,
    /// and no later change of one shows in the other. Bytes stay in memory as long as one value has them: those of a
    /// list that [`Vars::put_vec`] took over, and those of a whole file that [`read_set`](crate::read_set) read, as
    /// long as one variable of that file is in one of the values. This fails only when out of memory.
    pub fn copy(&self, alloc: Global) -> Result<Vars, AllocError>
        ensures equal { IfOk result (λ vars. vars ≡ self.now) }
        ensures valid { IsVars self.now }
    {
        Ok(Vars {
            variables: copy_variables(alloc, &self.variables)?,
        })
    }

    /// How many variables there are.
    pub fn len(&self) -> usize
        ensures len { result ≡ map.len self.now }
        ensures valid { IsVars self.now }
    {
        self.iter().len()
    }

    /// Whether there is no variable.
    pub fn is_empty(&self) -> bool
        ensures { IsTrue result ↔ (self.now ≡ map.empty) }
    {
        self.variables.is_empty()
    }

    /// The data of the variable of this name, if there is one.
    pub fn get(&self, name: &str) -> Option<&[u8]>
        ensures value { option_map (λ bytes. bytes.now) result ≡ map.get self.now name.now }
        ensures valid { IsVars self.now }
    {
        find_data(&self.variables, name.as_bytes())
    }

    /// The data of the entry of this number, the variable `Boot####` (UEFI 2.10, 3.1.1), if there is one.
    pub fn entry(&self, number: u16) -> Option<&[u8]>
        ensures value { option_map (λ bytes. bytes.now) result ≡ entry_of self.now number }
        ensures valid { IsVars self.now }
    {
        find_data(&self.variables, &entry_name(number))
    }

    /// The variable at this place in the rising order of the names' bytes, counted from 0: its name and its data, if
    /// there is one.
    pub fn item(&self, index: usize) -> Option<(&str, &[u8])>
        ensures item { option_map (λ item. (item.0.now, item.1.now)) result
            ≡ slice_get (map.entries self.now) index }
        ensures valid { IsVars self.now }
    {
        let variable = self.variables.get(index)?;
        Some((variable.name.as_str(), variable.kept.as_slice()))
    }

    /// The variables in the rising order of the names' bytes, each as its name and its data.
    pub fn iter(&self) -> Iter<'_>
        ensures items { variables_left result ≡ map.entries self.now }
        ensures valid { IsVars self.now }
    {
        Iter {
            variables: &self.variables,
        }
    }

    /// Sets the variable of this name to this data, which is copied: one more variable if there was none of the name,
    /// otherwise its new data. A refusal changes nothing.
    ///
    /// # Errors
    ///
    /// [`PutFault::BadName`] if the name isn't one to [`NAME_MAX`](crate::NAME_MAX) characters from 0x21 to 0x7E;
    /// otherwise [`PutFault::EmptyData`] if there is no data; otherwise [`PutFault::DataTooLong`] if it has more than
    /// [`DATA_MAX`] bytes; otherwise [`PutFault::OutOfMemory`] if memory for it was refused.
    pub fn put(&mut self, name: &str, value: &[u8]) -> Result<(), PutFault>
        ensures put { OnOk result (self.new ≡ map.insert self.old name.now value.now) }
        ensures unchanged { OnErr result (self.new ≡ self.old) }

        ensures bad_name { (result ≡ Err PutFault.BadName) ↔ (¬ IsName name.now) }
        ensures empty_data { (result ≡ Err PutFault.EmptyData) ↔ (IsName name.now × (value.now ≡ [])) }
        ensures data_too_long { (result ≡ Err PutFault.DataTooLong)
            ↔ (IsName name.now × (data_max < length value.now)) }
        ensures valid { IsVars self.new }
    {
        let variables = &mut self.variables;
        check_variable(name, value)?;
        let value = Vec::from_slice(*variables.allocator(), value)?;
        store(variables, name, value)?;
        Ok(())
    }

    /// Sets the variable of this name to the bytes of this list, as [`Vars::put`] does, but takes the list over instead of
    /// copying it, with the room that it has to spare. A refusal changes nothing, and hands the list back.
    ///
    /// # Errors
    ///
    /// The list, with the fault, which is as for [`Vars::put`]: [`PutFault::BadName`], otherwise
    /// [`PutFault::EmptyData`], otherwise [`PutFault::DataTooLong`], otherwise [`PutFault::OutOfMemory`].
    pub fn put_vec(&mut self, name: &str, value: Vec<u8>) -> Result<(), PutRefusal>
        ensures put { OnOk result (self.new ≡ map.insert self.old name.now value.items) }
        ensures unchanged { OnErr result (self.new ≡ self.old) }
        ensures value_returned { IfErr result (λ refusal. refusal.value.items ≡ value.items) }

        ensures bad_name { IsErrAnd result (λ refusal. refusal.fault ≡ PutFault.BadName)
            ↔ (¬ IsName name.now) }
        ensures empty_data { IsErrAnd result (λ refusal. refusal.fault ≡ PutFault.EmptyData)
            ↔ (IsName name.now × (value.items ≡ [])) }
        ensures data_too_long { IsErrAnd result (λ refusal. refusal.fault ≡ PutFault.DataTooLong)
            ↔ (IsName name.now × (data_max < length value.items)) }
        ensures valid { IsVars self.new }
    {
        let variables = &mut self.variables;
        if let Err(fault) = check_variable(name, value.as_slice()) {
            return Err(PutRefusal { fault, value });
        }
        store(variables, name, value)?;
        Ok(())
    }

    /// Sets the entry of this number, the variable `Boot####` (UEFI 2.10, 3.1.1), to this data, which is copied: one
    /// more variable if there was no such entry, otherwise its new data. A refusal changes nothing.
    ///
    /// # Errors
    ///
    /// [`PutFault::EmptyData`] if there is no data; otherwise [`PutFault::DataTooLong`] if it has more than
    /// [`DATA_MAX`] bytes; otherwise [`PutFault::OutOfMemory`] if memory for it was refused. [`PutFault::BadName`]
    /// never comes, since each number has a name.
    pub fn put_entry(&mut self, number: u16, value: &[u8]) -> Result<(), PutFault>
        ensures put { OnOk result (self.new ≡ map.insert self.old (entry_text number) value.now) }
        ensures unchanged { OnErr result (self.new ≡ self.old) }

        ensures named { result ≢ Err PutFault.BadName }
        ensures empty_data { (result ≡ Err PutFault.EmptyData) ↔ (value.now ≡ []) }
        ensures data_too_long { (result ≡ Err PutFault.DataTooLong) ↔ (data_max < length value.now) }
        ensures valid { IsVars self.new }
    {
        let name = entry_name(number);
        self.put(name_text(&name), value)
    }

    /// Sets the entry of this number, the variable `Boot####` (UEFI 2.10, 3.1.1), to the bytes of this list, as
    /// [`Vars::put_entry`] does, but takes the list over instead of copying it. A refusal changes nothing, and hands the list
    /// back.
    ///
    /// # Errors
    ///
    /// The list, with the fault, which is as for [`Vars::put_entry`]: [`PutFault::EmptyData`], otherwise
    /// [`PutFault::DataTooLong`], otherwise [`PutFault::OutOfMemory`].
    pub fn put_entry_vec(&mut self, number: u16, value: Vec<u8>) -> Result<(), PutRefusal>
        ensures put { OnOk result (self.new ≡ map.insert self.old (entry_text number) value.items) }
        ensures unchanged { OnErr result (self.new ≡ self.old) }
        ensures value_returned { IfErr result (λ refusal. refusal.value.items ≡ value.items) }

        ensures named { IfErr result (λ refusal. refusal.fault ≢ PutFault.BadName) }
        ensures empty_data { IsErrAnd result (λ refusal. refusal.fault ≡ PutFault.EmptyData)
            ↔ (value.items ≡ []) }
        ensures data_too_long { IsErrAnd result (λ refusal. refusal.fault ≡ PutFault.DataTooLong)
            ↔ (data_max < length value.items) }
        ensures valid { IsVars self.new }
    {
        let name = entry_name(number);
        self.put_vec(name_text(&name), value)
    }

    /// Takes out the variable of this name. Whether there was one.
    pub fn remove(&mut self, name: &str) -> bool
        ensures was { result ≡ map.contains_key self.old name.now }
        ensures removed { self.new ≡ map.remove self.old name.now }
        ensures valid { IsVars self.new }
    {
        erase(&mut self.variables, name.as_bytes())
    }

    /// Takes out the entry of this number, the variable `Boot####` (UEFI 2.10, 3.1.1). Whether there was one.
    pub fn remove_entry(&mut self, number: u16) -> bool
        ensures was { result ≡ map.contains_key self.old (entry_text number) }
        ensures removed { self.new ≡ map.remove self.old (entry_text number) }
        ensures valid { IsVars self.new }
    {
        erase(&mut self.variables, &entry_name(number))
    }

    /// Makes these changes, or none of them if memory for more variables is refused. Their names and data are taken over, and
    /// not copied.
    ///
    /// # Errors
    ///
    /// [`AllocError`] if memory was refused.
    pub fn make(&mut self, changes: Changes) -> Result<(), AllocError>
        ensures made { OnOk result (self.new ≡ with_changes self.old changes) }
        ensures unchanged { OnErr result (self.new ≡ self.old) }
        ensures valid { IsVars self.new }
    {
        make_each(&mut self.variables, changes.into_each())
    }
}

/// Whether this name and this data may be in a set.
pub(crate) fn check_variable(name: &str, value: &[u8]) -> Result<(), PutFault>
    ensures valid { OnOk result (IsVariable (name.now, value.now)) }
    ensures bad_name { (result ≡ Err PutFault.BadName) ↔ (¬ IsName name.now) }
    ensures empty_data { (result ≡ Err PutFault.EmptyData) ↔ (IsName name.now × (value.now ≡ [])) }
    ensures data_too_long { (result ≡ Err PutFault.DataTooLong)
        ↔ (IsName name.now × (data_max < length value.now)) }
{
    if !is_name(name.as_bytes()) {
        return Err(PutFault::BadName);
    }
    if value.is_empty() {
        return Err(PutFault::EmptyData);
    }
    if value.len() > DATA_MAX {
        return Err(PutFault::DataTooLong);
    }
    Ok(())
}

/// Makes the changes, which are in the order of their names, one after the other. Nothing changes if there is no memory for
/// more variables.
fn make_each(variables: &mut Vec<Variable>, changes: Vec<Change>) -> Result<(), AllocError>
    requires rising { AreVariables (pairs_of variables.old.items) }
    requires valid { AllByRecursion IsChange (pairs_of changes.items) }
    ensures made { OnOk result (vars_of variables.new.items
        ≡ after_each (vars_of variables.old.items) (pairs_of changes.items)) }
    ensures unchanged { OnErr result (variables.new.items ≡ variables.old.items) }
    ensures held { AreVariables (pairs_of variables.new.items) }
{
    variables.reserve(changes.len())?;
    for change in changes {
        make_one(variables, change);
    }
    Ok(())
}

/// Makes one change. There is room for a new name.
fn make_one(variables: &mut Vec<Variable>, change: Change)
    requires rising { AreVariables (pairs_of variables.old.items) }
    requires valid { IsChange (pair_of change) }
    requires room { vec_len variables.old < vec_capacity variables.old }
    ensures made { vars_of variables.new.items
        ≡ with_data (vars_of variables.old.items) (pair_of change).0 (pair_of change).1 }
    ensures held { AreVariables (pairs_of variables.new.items) }
    ensures len { vec_len variables.new ≤ vec_len variables.old + 1 }
    ensures capacity { vec_capacity variables.old ≤ vec_capacity variables.new }
{
    let Named { name, kept } = change;
    match kept {
        Some(data) => move_in(variables, Named { name, kept: data }),
        None => {
            erase(variables, name.as_bytes());
        }
    }
}

/// The data of the variable of this name, if there is one.
fn find_data<'a>(variables: &'a [Variable], name: &[u8]) -> Option<&'a [u8]>
    requires { AreVariables (pairs_of variables.now) }
    ensures { option_map (λ bytes. bytes.now) result ≡ map.find name_cmp name.now (pairs_of variables.now) }
{
    Some(find(variables, name)?.as_slice())
}

/// Puts this variable among those, in place of one of its name. There is room for a new name.
fn move_in(variables: &mut Vec<Variable>, variable: Variable)
    requires rising { AreVariables (pairs_of variables.old.items) }
    requires valid { IsVariable (pair_of variable) }
    requires room { vec_len variables.old < vec_capacity variables.old }
    ensures stored { pairs_of variables.new.items
        ≡ map.put name_cmp variable.name variable.kept (pairs_of variables.old.items) }
    ensures held { AreVariables (pairs_of variables.new.items) }
    ensures len { vec_len variables.new ≤ vec_len variables.old + 1 }
    ensures capacity { vec_capacity variables.old ≤ vec_capacity variables.new }
{
    let Named { name, kept } = variable;
    let place = place_of(variables, name);
    set_at(variables, place, kept);
}

/// Sets the variable of this name to the bytes of this list, which is taken over, or handed back if memory is refused.
fn store(
    variables: &mut Vec<Variable>,
    name: &str,
    value: Vec<u8>,
) -> Result<(), AllocFailed<Vec<u8>>>
    requires rising { AreVariables (pairs_of variables.old.items) }
    requires valid { IsVariable (name.now, value.items) }
    ensures stored { OnOk result (pairs_of variables.new.items
        ≡ map.put name_cmp name.now value.items (pairs_of variables.old.items)) }
    ensures unchanged { OnErr result (variables.new.items ≡ variables.old.items) }
    ensures held { AreVariables (pairs_of variables.new.items) }
    ensures value_returned { IfErr result (λ refusal. refusal.value ≡ value) }
{
    let Ok(place) = make_place(variables, name) else {
        return Err(AllocFailed { value });
    };
    match Shared::from_vec(value) {
        Ok(data) => {
            set_at(variables, place, data);
            Ok(())
        }
        Err(refusal) => Err(refusal),
    }
}

/// Takes out the variable of this name. Whether there was one.
fn erase(variables: &mut Vec<Variable>, name: &[u8]) -> bool
    requires { AreVariables (pairs_of variables.old.items) }
    ensures was { result ≡ is_some (map.find name_cmp name.now (pairs_of variables.old.items)) }
    ensures erased { pairs_of variables.new.items ≡ without name.now (pairs_of variables.old.items) }
    ensures held { AreVariables (pairs_of variables.new.items) }
    ensures len { vec_len variables.new ≤ vec_len variables.old }
    ensures capacity { vec_capacity variables.new ≡ vec_capacity variables.old }
{
    match search(variables, name) {
        Ok(place) => {
            variables.remove(place);
            true
        }
        Err(_) => false,
    }
}

/// An equal variable, which shares the bytes.
fn copy_variable(variable: &Variable) -> Result<Variable, AllocError>
    ensures { IfOk result (λ copy. pair_of copy ≡ pair_of variable.now) }
{
    Ok(Named {
        name: variable.name.copy()?,
        kept: variable.kept.copy()?,
    })
}

/// Equal variables, which share the bytes.
fn copy_variables(alloc: Global, variables: &[Variable]) -> Result<Vec<Variable>, AllocError>
    ensures { IfOk result (λ copies. pairs_of copies.items ≡ pairs_of variables.now) }
{
    let mut copies = Vec::with_capacity(alloc, variables.len())?;
    for variable in variables {
        copies.push(copy_variable(variable)?)?;
    }
    Ok(copies)
}
