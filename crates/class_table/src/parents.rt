//! The parents of classes, as walks and graphs of `graph_walk` ask for them.
ghost use Rattle.std.specs.Prelude.{◌≡◌, ◌<◌, length};
ghost use Rattle.class_table.specs.Outline.{parent_in};

use crate::Class;
use graph_walk::Parents;

/// The parent of a class.
#[tactic(auto, using(crate::proofs::ScopeLaws::parent_read))]
pub(crate) fn parent_of(classes: &[Class], class: usize) -> Option<u32>
    requires class { class < length classes.now }
    ensures parent { result ≡ parent_in classes.now class }
{
    classes[class].parent
}

/// Classes as nodes, each with its parent.
#[derive(Drop)]
pub(crate) struct ClassList<'a> {
    pub classes: &'a [Class],
}

impl<'a> Parents for ClassList<'a> {
    ghost size = { λ list. length list.classes.now };

    ghost up = { λ list. parent_in list.classes.now };

    fn count(&self) -> usize {
        self.classes.len()
    }

    fn parent(&self, node: u32) -> Option<u32> {
        parent_of(self.classes, node as usize)
    }
}
