//! How a picture is shown: as lines of text, or drawn as SVG.
#![tactic(auto)]

mod canvas;
mod classes;
mod names;
mod shapes;
mod sheet;
mod svg;

pub use shapes::push_escaped;
pub use sheet::lines_of;
pub use svg::svg_of;
