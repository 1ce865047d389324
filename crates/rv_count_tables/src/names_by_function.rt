//! The names of one image's functions while its lines are parsed.

ghost use Rattle.std.specs.Prelude.{◌≡◌, [], IfOk, OnOk, option_map};
ghost use Rattle.rv_count_tables.specs.ReadSteps.{with_name};
ghost use Rattle.rv_count_tables.specs.Table.{name_of};

use crate::push_item::push_item;
use crate::table::{FunctionName, FunctionNames};
use rv_call_tree::Text;
use std::alloc::{AllocError, Global};
use std::collections::BTreeMap;
use std::marker::Model;

/// A map from functions to their names, with look-ups and insertions in logarithmic time. Contracts see it as a list sorted by function.
#[derive(Drop)]
pub(crate) struct NamesByFunction {
    names: BTreeMap<u32, Text>,
}

impl Model for NamesByFunction {
    ghost use Rattle.std.specs.Prelude.{List};
    ghost use Rattle.rv_count_tables.specs.declared.table.FunctionName.{FunctionName};
    ghost use Rattle.rv_count_tables.specs.NamesByFunctionInside.{names_of_entries};

    ghost Value = { List FunctionName };

    ghost view = { λ n. names_of_entries n.names.entries };
}

impl NamesByFunction {
    /// Returns an empty map of names. Does not allocate.
    pub(crate) fn new(alloc: Global) -> NamesByFunction
        ensures { result ≡ [] }
    {
        NamesByFunction {
            names: BTreeMap::new(alloc),
        }
    }

    /// Returns the name of a function, or `None` if it has none.
    pub(crate) fn find(&self, function: u32) -> Option<&str>
        ensures { option_map (λ name. name.now) result ≡ name_of function self.now }
    {
        match self.names.get(&function) {
            Some(name) => Some(name.as_str()),
            None => None,
        }
    }

    /// Adds a name, unless its function already has one.
    pub(crate) fn add(&mut self, name: FunctionName) -> Result<(), AllocError>
        ensures { OnOk result (self.new ≡ with_name name self.old) }
    {
        if self.find(name.function).is_none() {
            self.names.insert(name.function, name.name)?;
        }
        Ok(())
    }

    /// Returns the names, sorted by function.
    pub(crate) fn into_names(self, alloc: Global) -> Result<FunctionNames, AllocError>
        ensures { IfOk result (λ names. names ≡ self) }
    {
        let mut names = Vec::new(alloc);
        for (function, name) in self.names {
            push_item(&mut names, FunctionName { function, name })?;
        }
        Ok(FunctionNames::new(names))
    }
}
