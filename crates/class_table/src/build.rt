//! How classes stand to one another: derivation, then the names of attributes, then containment.
ghost use Rattle.std.specs.Prelude.{◌≡◌, map, IfOk, IfErr, OnOk};
ghost use Rattle.class_table.specs.Names.{classes, space};
ghost use Rattle.class_table.specs.Outline.{class_of};
ghost use Rattle.class_table.specs.Faults.{OnFault, Stands, HaveNoFault, IsSmall, pointed};
ghost use Rattle.class_table.specs.Tables.{IsTable};
ghost use Rattle.class_table.specs.Sound.{HasNesting};

use crate::attributes::count_attributes;
use crate::cycles::{check_containment, check_derivation};
use crate::names::Space;
use crate::{Class, TableFault};
use conf_syntax::{ClassDecl, Item};
use graph_walk::State;
use std::alloc::Global;

/// An order of the classes and the number of each one's attributes, where neither derivation nor
/// attributes have a fault.
#[derive(Drop)]
pub(crate) struct Order {
    pub order: Vec<State>,
    pub counts: Vec<u32>,
}

/// Checks derivation, the names of attributes, and containment.
pub(crate) fn check_classes(
    alloc: Global,
    items: &[Item],
    names: &Space,
    decls: &[&ClassDecl],
    made: &[Class],
) -> Result<Order, TableFault>
    requires names { names.now.entries ≡ space items.now }
    requires decls { pointed decls.now ≡ classes items.now }
    requires made { made.now ≡ map (class_of (space items.now)) (classes items.now) }
    requires small { IsSmall items.now }
    ensures table { IfOk result (λ family. IsTable made.now family.counts.items
        family.order.items) }
    ensures right { OnOk result (HaveNoFault items.now) }
    ensures nesting { OnOk result (HasNesting made.now) }
    ensures fault { IfErr result (λ fault. OnFault fault (Stands items.now)) }
{
    let order = match check_derivation(alloc, names, decls) {
        Ok(order) => order,
        Err(fault) => return Err(fault),
    };
    let counts = match count_attributes(alloc, made, decls) {
        Ok(counts) => counts,
        Err(fault) => return Err(fault),
    };
    if let Err(fault) = check_containment(alloc, names, decls) {
        return Err(fault);
    }
    Ok(Order { order, counts })
}
