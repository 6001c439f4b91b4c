//! Models near the limit of weight, one for each shape that multiplies.
use std::alloc::{AllocError, Global};

/// A shape that multiplies.
#[derive(Clone, Copy)]
pub(crate) enum Shape {
    /// Sums over all machines, filtered by a reference, for each host.
    Sums,
    /// Sizes that aren't fixed, summed where a reference is one object.
    Flags,
    /// A flag times a number, for each pair of objects.
    Products,
    /// A quantifier over a set within another over the same set, each with a filter.
    Filters,
    /// An attribute of one of many objects.
    Attributes,
    /// An attribute behind two references.
    Far,
    /// Values of all objects that differ.
    Different,
    /// Items that fit.
    Packing,
    /// References for which no two may be the same.
    Apart,
    /// Parts of chosen objects that are the same.
    Mapped,
    /// Whether a chosen object is in a set.
    Members,
    /// Whether a chosen object is in the set of a chosen owner.
    Chosen,
    /// Whether an object that is known is in a set.
    Known,
    /// Whether an object that is known is in a long list.
    Listed,
    /// Operators in one another.
    Nested,
    /// The same test of all objects, named many times.
    Again,
    /// Objectives over all objects.
    Goals,
    /// Objectives of one cell each.
    Cells,
    /// Cells that constraints fix.
    Fixed,
    /// Quantifiers over nobody.
    Nobody,
    /// Quantifiers over a class of one object.
    Single,
    /// References to a class whose objects have gaps between them.
    Gaps,
}

/// So many times a text.
fn repeated(alloc: Global, text: &str, count: u32) -> Result<String, AllocError> {
    let mut all = String::new(alloc);
    for _turn in 0..count {
        all.push_str(text)?;
    }
    Ok(all)
}

/// Items with two sizes that aren't fixed, for bins.
fn flags(alloc: Global, hosts: u32, machines: u32) -> Result<String, AllocError> {
    format!(in alloc;
        "class Bin {{ var room as 40..40; \
        where sum i in Item where i.bin = this {{ i.size }} <= room; \
        where sum i in Item where i.bin = this {{ i.length }} <= 60; }} \
        class Item {{ var size as 2..8; var length as 2..8; var bin as ref Bin; }} \
        var bins as Bin[{hosts}]; var items as Item[{machines}]; \
        minimize count b in bins {{ exists i in items {{ i.bin = b; }} }};"
    )
}

/// A flag of each of n objects times a number of each.
fn products(alloc: Global, n: u32) -> Result<String, AllocError> {
    format!(in alloc;
        "class A {{ var on as bool; var size as 1..9; \
        where sum b in A where on {{ b.size }} <= 90; }} var a as A[{n}];"
    )
}

/// Sets of hosts with a quantifier in a quantifier.
fn filters(alloc: Global, hosts: u32, services: u32) -> Result<String, AllocError> {
    format!(in alloc;
        "class Host {{ var load as 0..20; }} \
        class Service {{ var hosts as ref Host[3]; \
        where forall h in hosts where h.load > 3 {{ \
        exists k in hosts where k != h {{ k.load < h.load; }}; }}; }} \
        var hosts as Host[{hosts}]; var services as Service[{services}];"
    )
}

/// An attribute of one of many hosts.
fn attributes(alloc: Global, hosts: u32, machines: u32) -> Result<String, AllocError> {
    format!(in alloc;
        "class Host {{ var cap as 1..9; }} \
        class Vm {{ var size as 1..9; var host as ref Host; where size <= host.cap; }} \
        var hosts as Host[{hosts}]; var machines as Vm[{machines}];"
    )
}

/// An attribute behind two references.
fn far(alloc: Global, zones: u32, hosts: u32, machines: u32) -> Result<String, AllocError> {
    format!(in alloc;
        "class Zone {{ var price as 1..9; }} class Host {{ var zone as ref Zone; }} \
        class Vm {{ var host as ref Host; where host.zone.price <= 5; }} \
        var zones as Zone[{zones}]; var hosts as Host[{hosts}]; var machines as Vm[{machines}];"
    )
}

/// Values of n objects that differ.
fn different(alloc: Global, n: u32) -> Result<String, AllocError> {
    format!(in alloc;
        "class X {{ var v as 1..2000; }} var x as X[{n}]; where alldifferent a in X {{ a.v }};"
    )
}

/// Machines that fit on hosts.
fn packing(alloc: Global, hosts: u32, machines: u32) -> Result<String, AllocError> {
    format!(in alloc;
        "class Host {{ var cap as 8..16; }} \
        class Vm {{ var size as 1..4; var host as ref Host; }} \
        var hosts as Host[{hosts}]; var machines as Vm[{machines}]; \
        where pack v in Vm {{ v.host; v.size; v.host.cap; }};"
    )
}

/// References for which no two may be the same.
fn apart(alloc: Global, hosts: u32, machines: u32) -> Result<String, AllocError> {
    format!(in alloc;
        "class Host {{ }} class Vm {{ var host as ref Host; \
        where forall v in Vm where v != this {{ v.host != host; }}; }} \
        var hosts as Host[{hosts}]; var machines as Vm[{machines}];"
    )
}

/// Racks of chosen hosts that are the same.
fn mapped(alloc: Global, hosts: u32, machines: u32) -> Result<String, AllocError> {
    format!(in alloc;
        "class Rack {{ }} class Host {{ var rack as Rack; }} \
        class Vm {{ var host as ref Host; \
        where exists v in Vm where v != this {{ v.host.rack = host.rack; }}; }} \
        var hosts as Host[{hosts}]; var machines as Vm[{machines}];"
    )
}

/// Whether a chosen host is in the set of each service.
fn members(alloc: Global, hosts: u32, services: u32) -> Result<String, AllocError> {
    format!(in alloc;
        "class Host {{ }} class Service {{ var hosts as ref Host[3]; var main as ref Host; \
        where exists s in Service {{ main in s.hosts; }}; }} \
        var hosts as Host[{hosts}]; var services as Service[{services}];"
    )
}

/// Whether a chosen host is in the set of a chosen service.
fn chosen(alloc: Global, hosts: u32, services: u32, calls: u32) -> Result<String, AllocError> {
    format!(in alloc;
        "class Host {{ }} class Service {{ var hosts as ref Host[3]; }} \
        class Call {{ var main as ref Host; var peer as ref Service; var other as ref Service; \
        where main in peer.hosts; where not (main in other.hosts); }} \
        var hosts as Host[{hosts}]; var services as Service[{services}]; \
        var calls as Call[{calls}];"
    )
}

/// Whether a known host is in the set of each service, so many times.
fn known(alloc: Global, hosts: u32, services: u32, times: u32) -> Result<String, AllocError> {
    let asked = repeated(
        alloc,
        "where count s in Service { this in s.hosts } <= 2; ",
        times,
    )?;
    format!(in alloc;
        "class Host {{ {asked}}} class Service {{ var hosts as ref Host[3]; }} \
        var hosts as Host[{hosts}]; var services as Service[{services}];"
    )
}

/// Whether a known item is in a long list, so many times.
fn listed(alloc: Global, items: u32, times: u32) -> Result<String, AllocError> {
    let asked = repeated(alloc, "where this in home.items; ", times)?;
    format!(in alloc;
        "class Item {{ {asked}}} class Home {{ var items as Item[{items}]; }} var home as Home;"
    )
}

/// So many pairs of operators in one another.
fn nested(alloc: Global, pairs: u32, objects: u32) -> Result<String, AllocError> {
    let opening = repeated(alloc, "(x + y <= 7 or (x - y >= 2 and ", pairs)?;
    let closing = repeated(alloc, "))", pairs)?;
    format!(in alloc;
        "class A {{ var x as 0..9; var y as 0..9; where {opening}x = y{closing}; }} \
        var a as A[{objects}];"
    )
}

/// The same test of n objects, so many times.
fn again(alloc: Global, n: u32, times: u32) -> Result<String, AllocError> {
    let asked = repeated(alloc, "where exists b in A { b.x = 3; }; ", times)?;
    format!(in alloc; "class A {{ var x as 0..9; }} var a as A[{n}]; {asked}")
}

/// So many objectives over n objects.
fn goals(alloc: Global, n: u32, times: u32) -> Result<String, AllocError> {
    let asked = repeated(alloc, "minimize sum b in A { b.x }; ", times)?;
    format!(in alloc; "class A {{ var x as 0..9; }} var a as A[{n}]; {asked}")
}

/// So many objectives of one cell each.
fn cells(alloc: Global, times: u32) -> Result<String, AllocError> {
    let asked = repeated(alloc, "minimize x; ", times)?;
    format!(in alloc; "var x as 0..9; {asked}")
}

/// Two cells of each of n objects that constraints fix, and sums of them.
fn fixed(alloc: Global, n: u32, times: u32) -> Result<String, AllocError> {
    let asked = repeated(
        alloc,
        "where sum b in A where b.on { b.x } <= 40000; ",
        times,
    )?;
    format!(in alloc;
        "class A {{ var x as 0..9; var on as bool; where x = 3; where on; }} \
        var a as A[{n}]; {asked}"
    )
}

/// Quantifiers over a class without objects.
fn nobody(alloc: Global, objects: u32, times: u32) -> Result<String, AllocError> {
    let asked = repeated(alloc, "where forall b in None { b.x = y; }; ", times)?;
    format!(in alloc;
        "class None {{ var x as 0..9; }} class A {{ var y as 0..9; {asked}}} \
        var a as A[{objects}];"
    )
}

/// Quantifiers over a class of one object.
fn single(alloc: Global, objects: u32, times: u32) -> Result<String, AllocError> {
    let asked = repeated(alloc, "where forall b in One { b.x = y; }; ", times)?;
    format!(in alloc;
        "class One {{ var x as 0..9; }} class A {{ var y as 0..9; {asked}}} \
        var one as One; var a as A[{objects}];"
    )
}

/// References to hosts that stand apart.
fn gaps(alloc: Global, hosts: u32, machines: u32) -> Result<String, AllocError> {
    format!(in alloc;
        "class Disk {{ }} class Host {{ var disk as Disk; var cap as 0..9; \
        where forall v in Vm where v.host = this {{ v.size <= cap; }}; }} \
        class Vm {{ var size as 0..9; var host as ref Host; }} \
        class Rack {{ var host as Host; var disk as Disk; }} \
        var racks as Rack[{hosts}]; var machines as Vm[{machines}];"
    )
}

/// The text of a model of the shape.
pub(crate) fn limit_text(alloc: Global, shape: Shape) -> Result<String, AllocError> {
    match shape {
        Shape::Sums => crate::models::sites(alloc, 208),
        Shape::Flags => flags(alloc, 200, 332),
        Shape::Products => products(alloc, 499),
        Shape::Filters => filters(alloc, 50, 52),
        Shape::Attributes => attributes(alloc, 1000, 1980),
        Shape::Far => far(alloc, 100, 900, 1980),
        Shape::Different => different(alloc, 1400),
        Shape::Packing => packing(alloc, 400, 750),
        Shape::Apart => apart(alloc, 20, 246),
        Shape::Mapped => mapped(alloc, 100, 79),
        Shape::Members => members(alloc, 100, 135),
        Shape::Chosen => chosen(alloc, 80, 100, 4000),
        Shape::Known => known(alloc, 5000, 3, 14),
        Shape::Listed => listed(alloc, 5000, 66),
        Shape::Nested => nested(alloc, 45, 2000),
        Shape::Again => again(alloc, 9000, 31),
        Shape::Goals => goals(alloc, 9000, 44),
        Shape::Cells => cells(alloc, 80000),
        Shape::Fixed => fixed(alloc, 9000, 26),
        Shape::Nobody => nobody(alloc, 5000, 399),
        Shape::Single => single(alloc, 5000, 39),
        Shape::Gaps => gaps(alloc, 363, 363),
    }
}
