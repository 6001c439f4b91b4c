//! The models that are made ground.
use crate::limits::{Shape, limit_text};
use std::alloc::{AllocError, Global};

/// A model: a name, and how its text is made.
#[derive(Clone, Copy)]
pub(crate) struct Row {
    /// The name.
    pub(crate) name: &'static str,
    /// Which text it is.
    source: Source,
}

/// Which text a model has.
#[derive(Clone, Copy)]
enum Source {
    /// Two sites of so many hosts each, and twice so many machines.
    Sites(u32),
    /// Two sites of four hosts, and twenty machines of four classes.
    Site,
    /// So many pigeons, and one hole less.
    Pigeons(u32),
    /// Items with two sizes, so many for each of so many bins.
    Bins(u32, u32),
    /// Services that each name hosts in a set, and prices behind two dots.
    Sets(u32),
    /// A model near the limit of weight.
    Limit(Shape),
}

/// How many rows there are.
pub(crate) const ROWS: u32 = 31;

/// How many of them are shown where no row is asked for; those that take longest come last.
pub(crate) const QUICK_ROWS: u32 = 19;

/// The row of this number.
pub(crate) fn nth_row(number: u32) -> Row {
    let (name, source) = match number {
        0 => ("gen-100", Source::Sites(100)),
        1 => ("gen-50", Source::Sites(50)),
        2 => ("site", Source::Site),
        3 => ("pigeons-10", Source::Pigeons(10)),
        4 => ("bins-4x12", Source::Bins(4, 12)),
        5 => ("bins-12x60", Source::Bins(12, 60)),
        6 => ("sets-10", Source::Sets(10)),
        7 => ("sets-20", Source::Sets(20)),
        8 => ("limit-sums", Source::Limit(Shape::Sums)),
        9 => ("limit-flags", Source::Limit(Shape::Flags)),
        10 => ("limit-attributes", Source::Limit(Shape::Attributes)),
        11 => ("limit-far", Source::Limit(Shape::Far)),
        12 => ("limit-apart", Source::Limit(Shape::Apart)),
        13 => ("limit-gaps", Source::Limit(Shape::Gaps)),
        14 => ("limit-nested", Source::Limit(Shape::Nested)),
        15 => ("limit-again", Source::Limit(Shape::Again)),
        16 => ("limit-goals", Source::Limit(Shape::Goals)),
        17 => ("limit-cells", Source::Limit(Shape::Cells)),
        18 => ("limit-fixed", Source::Limit(Shape::Fixed)),
        19 => ("limit-sets", Source::Sets(107)),
        20 => ("limit-filters", Source::Limit(Shape::Filters)),
        21 => ("limit-products", Source::Limit(Shape::Products)),
        22 => ("limit-different", Source::Limit(Shape::Different)),
        23 => ("limit-packing", Source::Limit(Shape::Packing)),
        24 => ("limit-mapped", Source::Limit(Shape::Mapped)),
        25 => ("limit-members", Source::Limit(Shape::Members)),
        26 => ("limit-single", Source::Limit(Shape::Single)),
        27 => ("limit-nobody", Source::Limit(Shape::Nobody)),
        28 => ("limit-listed", Source::Limit(Shape::Listed)),
        29 => ("limit-known", Source::Limit(Shape::Known)),
        _ => ("limit-chosen", Source::Limit(Shape::Chosen)),
    };
    Row { name, source }
}

/// Two sites of n hosts each, and 2n machines that are placed on hosts.
pub(crate) fn sites(alloc: Global, n: u32) -> Result<String, AllocError> {
    format!(in alloc;
        "class Host {{ var cap as 8..8; \
        where sum v in Vm where v.host = this {{ v.size }} <= cap; }} \
        abstract class Vm {{ var size as 1..4; var host as ref Host; }} \
        class Small extends Vm {{ where size = 1; }} \
        class Large extends Vm {{ where size = 3; }} \
        class Site {{ var hosts as Host[{n}]; }} \
        var home as Site; var away as Site; var small as Small[{n}]; var large as Large[{n}]; \
        maximize count v in Vm {{ v.host in home.hosts }};"
    )
}

/// Two sites of four hosts, and twenty machines of four classes with two sizes each.
const SITE: &str = "class Host { var cpu as 16..16; var mem as 64..64; \
    where sum v in Vm where v.host = this { v.cpu } <= cpu; \
    where sum v in Vm where v.host = this { v.mem } <= mem; } \
    class Site { var hosts as Host[4]; } \
    abstract class Vm { var cpu as 0..16; var mem as 0..64; var host as ref Host; } \
    class Small extends Vm { where { cpu = 1; mem = 2; } } \
    class Medium extends Vm { where { cpu = 2; mem = 8; } } \
    class Large extends Vm { where { cpu = 4; mem = 16; } } \
    class Replica extends Medium { \
    where forall r in Replica where r != this { r.host != host; }; } \
    var home as Site; var away as Site; \
    var store as Replica[4]; var front as Small[8]; var app as Medium[6]; var db as Large[2]; \
    maximize count v in Vm { v.host in home.hosts };";

/// So many pigeons, and one hole less.
fn pigeons(alloc: Global, n: u32) -> Result<String, AllocError> {
    let holes = n.saturating_sub(1);
    format!(in alloc;
        "class Hole {{ }} class Pigeon {{ var at as ref Hole; \
        where forall p in Pigeon where p != this {{ p.at != at; }}; }} \
        var holes as Hole[{holes}]; var pigeons as Pigeon[{n}];"
    )
}

/// Items with two sizes, for bins that have two rooms.
fn bins(alloc: Global, count: u32, items: u32) -> Result<String, AllocError> {
    format!(in alloc;
        "class Bin {{ var room as 40..40; var depth as 60..60; \
        where sum i in Item where i.bin = this {{ i.size }} <= room; \
        where sum i in Item where i.bin = this {{ i.length }} <= depth; }} \
        class Item {{ var size as 2..8; var length as 2..8; var bin as ref Bin; }} \
        var bins as Bin[{count}]; var items as Item[{items}]; \
        minimize count b in bins {{ exists i in items {{ i.bin = b; }} }};"
    )
}

/// Services that each name three hosts in a set, and prices behind two dots.
fn sets(alloc: Global, n: u32) -> Result<String, AllocError> {
    format!(in alloc;
        "class Zone {{ var price as 1..9; }} \
        class Host {{ var zone as ref Zone; var load as 0..20; \
        where count s in Service {{ this in s.hosts }} <= 4; }} \
        class Service {{ var hosts as ref Host[3]; var main as ref Host; \
        where main in hosts; \
        where forall h in hosts where h != main {{ h.zone != main.zone; }}; \
        where sum h in hosts {{ h.load }} <= 30; }} \
        var zones as Zone[4]; var hosts as Host[{n}]; var services as Service[{n}]; \
        minimize sum s in services {{ s.main.zone.price }};"
    )
}

/// The text of a row's model.
pub(crate) fn text_of(alloc: Global, row: Row) -> Result<String, AllocError> {
    match row.source {
        Source::Sites(n) => sites(alloc, n),
        Source::Site => String::from_str(alloc, SITE),
        Source::Pigeons(n) => pigeons(alloc, n),
        Source::Bins(count, items) => bins(alloc, count, items),
        Source::Sets(n) => sets(alloc, n),
        Source::Limit(shape) => limit_text(alloc, shape),
    }
}
