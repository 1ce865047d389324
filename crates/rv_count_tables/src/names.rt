//! The names of one image's functions, looked up and added.

ghost use Rattle.std.specs.Prelude.{◌≡◌, ◌==◌, nat_lt, option_map, OnOk};
ghost use Rattle.std.specs.List.{find, prefix_len};
ghost use Rattle.rv_count_tables.specs.ReadSteps.{with_name};
ghost use Rattle.rv_count_tables.specs.Table.{name_of};

use crate::table::FunctionName;
use std::alloc::AllocError;

/// Returns the first name of a function in the list, or `None` if it has none. Takes time linear in the number of names.
pub fn name_of(names: &[FunctionName], function: u32) -> Option<&str>
    ensures { option_map (λ name. name.now) result ≡ name_of function names.now }
{
    match first_of(names, function) {
        Some(entry) => Some(entry.name.as_str()),
        None => None,
    }
}

// Returns the first entry of a function in the list, or `None` if it has none.
fn first_of(names: &[FunctionName], function: u32) -> Option<&FunctionName>
    ensures { option_map (λ entry. entry.now) result ≡ find (λ name. name.function == function) names.now }
{
    names.iter().find(|name| name.function == function)
}

/// Inserts a name before the names of functions at higher addresses, unless its function already has a name in the list.
pub fn add_name(names: &mut Vec<FunctionName>, name: FunctionName) -> Result<(), AllocError>
    ensures { OnOk result (names.new.items ≡ with_name name names.old.items) }
{
    if name_of(names.as_slice(), name.function).is_some() {
        return Ok(());
    }
    let index = index_of_function(names.as_slice(), name.function);
    names.insert(index, name)?;
    Ok(())
}

// Returns the index at which the list has the name of a function, or at which it would be inserted: the number of names of functions at
// lower addresses.
fn index_of_function(names: &[FunctionName], function: u32) -> usize
    ensures { result ≡ prefix_len (λ m. nat_lt m.function function) names.now }
{
    let mut count = 0;
    while count < names.len() && names[count].function < function {
        count += 1;
    }
    count
}
