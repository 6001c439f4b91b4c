//! The bytes of a name that is looked for, lent from a text.
ghost use Rattle.std.specs.Prelude.{◌≡◌, nat_eq};
ghost use Rattle.std.specs.Cmp.Lexicographic.{pointwise, bytes_decides, nat_list_eq_equiv};
ghost use Rattle.std.specs.Hash as fed;
ghost use Rattle.std.proofs.Common.{ap};

use conf_syntax::Name;
use indexmap::Equivalent;
use std::hash::Hash;

/// The bytes of a name.
#[derive(Clone, Copy, PartialEq, Eq, Hash)]
pub(crate) struct NameText<'a> {
    pub bytes: &'a [u8],
}

/// A text stands for the name of its bytes.
impl<'a> Equivalent<Name> for NameText<'a> {
    ghost equivalent = { λ q k. pointwise nat_eq q.bytes.now k };

    ghost respects_hash = { λ q k h. ap (fed.slice fed.u8) ((bytes_decides q.bytes.now k).0 h) };

    ghost respects_eq = { λ q x y. nat_list_eq_equiv.congr q.bytes.now x y };

    fn equivalent(&self, key: &Name) -> bool {
        self.bytes == key.as_bytes()
    }
}
