//! The limits of a unit.

ghost use Rattle.std.specs.Prelude.{◌≡◌, ◌++◌, List, map, MatchResult};
ghost use Rattle.gob_tree.specs.declared.place.Place.{Place as PlaceValue};
ghost use Rattle.std.specs.List.{flat_map};
ghost use Rattle.std.specs.Option.{option_to_list};
ghost use Rattle.c_check.specs.Faults.{Passes, IsFirst};
ghost use Rattle.c_check.specs.Stages.{counted_place};
ghost use Rattle.c_check.specs.Units.{over, param_place, param_limit_faults, limit_faults};

use crate::fault::{FrontFault, FrontKind, fault_at};
use c_parse::{RawItem, RawParam};
use gob_tree::Place;

/// What there may be only so many of in a unit.
#[derive(Clone, Copy, Debug, PartialEq, Eq)]
pub enum Counted {
    Functions,
    Globals,
    Mutexes,
}

/// Where an item is named, if it is counted.
fn counted_place(counted: Counted, item: &RawItem) -> Option<Place>
    ensures { option_to_list result ≡ counted_place counted item.now }
{
    match (counted, item) {
        (Counted::Functions, RawItem::Function { head, .. }) => Some(head.name.place),
        (Counted::Globals, RawItem::Global { name, .. }) => Some(name.place),
        (Counted::Mutexes, RawItem::Mutex(name)) => Some(name.place),
        _ => None,
    }
}

/// One more that is counted, if there is one: how many more there may be.
#[tactic(auto, using(crate::proofs::Counting::over_one, crate::proofs::Counting::over_none))]
fn count_one(left: usize, place: Option<Place>) -> Result<usize, FrontFault>
    ensures { (others : List PlaceValue) → MatchResult result (λ n. over left (option_to_list place ++ others) ≡ over n others) (λ fault. IsFirst fault (over left (option_to_list place ++ others))) }
{
    match place {
        None => Ok(left),
        Some(place) => {
            if left == 0 {
                return Err(fault_at(FrontKind::Limit, place));
            }
            Ok(left - 1)
        }
    }
}

/// No more than so many items are counted.
fn check_count(items: &[RawItem], counted: Counted, limit: usize) -> Result<(), FrontFault>
    ensures { Passes result (over limit (flat_map (counted_place counted) items.now)) }
{
    let mut left = limit;
    for item in items {
        let place = counted_place(counted, item);
        left = count_one(left, place)?;
    }
    Ok(())
}

/// The place of a parameter's name, or that of its function's where it has none.
fn param_place(place: Place, param: &RawParam) -> Place
    ensures { result ≡ param_place place param.now }
{
    match &param.name {
        Some(name) => name.place,
        None => place,
    }
}

/// A function has no more than 8 parameters.
#[tactic(auto, using(crate::proofs::Counting::ninth_told, crate::proofs::Counting::no_ninth))]
fn check_params(place: Place, params: &[RawParam]) -> Result<(), FrontFault>
    ensures { Passes result (over 8 (map (param_place place) params.now)) }
{
    if params.len() > 8 {
        let place = param_place(place, &params[8]);
        return Err(fault_at(FrontKind::Limit, place));
    }
    Ok(())
}

/// The parameters of the function that an item is, if it is one.
fn check_item_params(item: &RawItem) -> Result<(), FrontFault>
    ensures { Passes result (param_limit_faults item.now) }
{
    match item {
        RawItem::Function { head, .. } => check_params(head.name.place, head.params.as_slice()),
        _ => Ok(()),
    }
}

/// No function has more than 8 parameters.
fn check_all_params(items: &[RawItem]) -> Result<(), FrontFault>
    ensures { Passes result (flat_map param_limit_faults items.now) }
{
    for item in items {
        check_item_params(item)?;
    }
    Ok(())
}

/// The limits of a unit: functions, parameters, globals and mutexes, in this order.
#[tactic(auto, using(crate::proofs::Firsts::first_left, crate::proofs::Firsts::first_right, crate::proofs::Firsts::none_of))]
pub(crate) fn check_limits(items: &[RawItem]) -> Result<(), FrontFault>
    ensures { Passes result (limit_faults items.now) }
{
    check_count(items, Counted::Functions, 128)?;
    check_all_params(items)?;
    check_count(items, Counted::Globals, 64)?;
    check_count(items, Counted::Mutexes, 8)
}
