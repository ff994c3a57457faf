//! The unit that the items of a text become.

ghost use Rattle.std.specs.Prelude.{◌≡◌, ◌++◌, ◌∷◌, [], length, IfOk, OnOk, MatchResult};
ghost use Rattle.c_check.specs.Faults.{Checks, Passes, IsFirst};
ghost use Rattle.c_check.specs.Units.{definitions, prototypes, item_faults, after_item, items_faults, after_items, nothing_made, value_faults, with_global, with_mutex, with_prototype, with_function};
ghost use Rattle.gob_tree.specs.Widths.{fits};

use crate::fault::{FrontFault, FrontKind, ask};
use crate::heads::signature;
use crate::items::{check_prototype, check_value, function};
use crate::meaning::{Meaning, Signature};
use crate::named::Named;
use crate::scope::{FileScope, next_number};
use c_parse::{RawHead, RawItem, RawName};
use gob_tree::{Function, GlobalDecl, Memory, Seq, Text, Width};
use std::alloc::Global;
use std::marker::Model;

/// What the items above a place declare, and the functions, globals and mutexes that they become.
#[derive(Drop)]
pub(crate) struct Making {
    pub names: FileScope,
    pub funcs: Seq<Function>,
    pub globals: Seq<GlobalDecl>,
    pub mutexes: Seq<Text>,
}

impl Model for Making {
    ghost use Rattle.c_check.specs.Units.{Made};
    ghost use Rattle.gob_tree.specs.contracts.unit.Function as function;
    ghost use Rattle.std.specs.Coded.{codes};

    ghost Value = { Made };

    ghost coded = { Prim.hlevel (codes, function.the_row.coded) };

    ghost view = { λ m. record { names = m.names; funcs = m.funcs; globals = m.globals; mutexes = m.mutexes } };
}

/// Adds the definition that an item is, if it is one; they are numbered as they come.
fn add_definition(alloc: Global, list: &mut Named<Signature>, item: &RawItem) -> Result<(), Memory>
    ensures { OnOk result (list.new ≡ list.old ++ definitions (length list.old) (item.now ∷ [])) }
{
    match item {
        RawItem::Function { head, .. } => {
            let number = next_number(list.len())?;
            let own = signature(alloc, number, head)?;
            list.push(alloc, &head.name.text, own)
        }
        _ => Ok(()),
    }
}

/// The functions that the items define.
fn definitions_of(alloc: Global, items: &[RawItem]) -> Result<Named<Signature>, Memory>
    ensures { IfOk result (λ list. list ≡ definitions 0 items.now) }
{
    let mut list = Named::new(alloc);
    for item in items {
        add_definition(alloc, &mut list, item)?;
    }
    Ok(list)
}

/// Adds the prototype that an item is, if it is one.
fn add_prototype(alloc: Global, list: &mut Named<Signature>, item: &RawItem) -> Result<(), Memory>
    ensures { OnOk result (list.new ≡ list.old ++ prototypes (item.now ∷ [])) }
{
    match item {
        RawItem::Prototype(head) => {
            let own = signature(alloc, 0, head)?;
            list.push(alloc, &head.name.text, own)
        }
        _ => Ok(()),
    }
}

/// The functions that the prototypes declare.
fn prototypes_of(alloc: Global, items: &[RawItem]) -> Result<Named<Signature>, Memory>
    ensures { IfOk result (λ list. list ≡ prototypes items.now) }
{
    let mut list = Named::new(alloc);
    for item in items {
        add_prototype(alloc, &mut list, item)?;
    }
    Ok(list)
}

impl Making {
    /// Nothing, before the first item.
    pub(crate) fn new(alloc: Global, items: &[RawItem]) -> Result<Making, Memory>
        ensures { IfOk result (λ m. m ≡ nothing_made items.now) }
    {
        let definitions = definitions_of(alloc, items)?;
        let prototypes = prototypes_of(alloc, items)?;
        Ok(Making {
            names: FileScope {
                definitions,
                prototypes,
                values: Named::new(alloc),
                defined: Named::new(alloc),
                prototyped: Named::new(alloc),
            },
            funcs: Seq::new(alloc),
            globals: Seq::new(alloc),
            mutexes: Seq::new(alloc),
        })
    }

    fn add_global(
        &mut self,
        alloc: Global,
        name: &RawName,
        width: Width,
        initial: i64,
    ) -> Result<(), Memory>
        ensures { OnOk result (self.new ≡ with_global name.now width initial self.old) }
    {
        let number = next_number(self.globals.len())?;
        self.names
            .values
            .push(alloc, &name.text, Meaning::Global(number, width))?;
        let name = name.text.copy(alloc)?;
        self.globals.push(GlobalDecl {
            name,
            width,
            initial,
        })
    }

    fn add_mutex(&mut self, alloc: Global, name: &RawName) -> Result<(), Memory>
        ensures { OnOk result (self.new ≡ with_mutex name.now self.old) }
    {
        let number = next_number(self.mutexes.len())?;
        self.names
            .values
            .push(alloc, &name.text, Meaning::Mutex(number))?;
        let name = name.text.copy(alloc)?;
        self.mutexes.push(name)
    }

    fn add_prototype(&mut self, alloc: Global, head: &RawHead) -> Result<(), Memory>
        ensures { OnOk result (self.new ≡ with_prototype head.now self.old) }
    {
        self.names.prototyped.push(alloc, &head.name.text, ())
    }

    fn add_function(
        &mut self,
        alloc: Global,
        head: &RawHead,
        function: Function,
    ) -> Result<(), Memory>
        ensures { OnOk result (self.new ≡ record self.old { names = record self.old.names { defined = self.old.names.defined ++ head.now.name.text ∷ [] }; funcs = self.old.funcs ++ function ∷ [] }) }
    {
        self.names.defined.push(alloc, &head.name.text, ())?;
        self.funcs.push(function)
    }

    /// One more item.
    #[tactic(auto, using(crate::proofs::Firsts::first_left, crate::proofs::Firsts::first_right, crate::proofs::Firsts::none_of, crate::proofs::Firsts::want_is_first))]
    fn add_item(&mut self, alloc: Global, item: &RawItem) -> Result<(), FrontFault>
        ensures { MatchResult result (λ _. (item_faults self.old.names item.now ≡ []) × (self.new ≡ after_item item.now self.old)) (λ fault. IsFirst fault (item_faults self.old.names item.now)) }
    {
        match item {
            RawItem::Global {
                name,
                width,
                initial,
                literal,
            } => {
                check_value(&self.names, name)?;
                let fits = fits_width(*width, *initial);
                ask(fits, FrontKind::BadLiteral, *literal)?;
                self.add_global(alloc, name, *width, *initial)?;
                Ok(())
            }
            RawItem::Mutex(name) => {
                check_value(&self.names, name)?;
                self.add_mutex(alloc, name)?;
                Ok(())
            }
            RawItem::Prototype(head) => {
                check_prototype(alloc, &self.names, head)?;
                self.add_prototype(alloc, head)?;
                Ok(())
            }
            RawItem::Function { head, end, body } => {
                let made = function(alloc, &self.names, head, *end, body.as_slice())?;
                self.add_function(alloc, head, made)?;
                Ok(())
            }
        }
    }

    /// All items, in the order of the text.
    pub(crate) fn add_items(&mut self, alloc: Global, items: &[RawItem]) -> Result<(), FrontFault>
        ensures { MatchResult result (λ _. (items_faults items.now self.old ≡ []) × (self.new ≡ after_items items.now self.old)) (λ fault. IsFirst fault (items_faults items.now self.old)) }
    {
        for item in items {
            self.add_item(alloc, item)?;
        }
        Ok(())
    }
}

/// Whether a number is one of a width.
fn fits_width(width: Width, n: i64) -> bool
    ensures { result ≡ fits width n }
{
    match width {
        Width::W32 => -2147483648 <= n && n <= 2147483647,
        Width::W64 => true,
    }
}
