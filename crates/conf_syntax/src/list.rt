//! The plain lists that trees hold, each seen by clauses as the list of its items.
ghost use Rattle.std.specs.Prelude.{◌≡◌};

use crate::{Expr, Ident, Item, Member};
use std::marker::Model;

/// The values of an enumeration, in order.
#[derive(Debug)]
pub struct Idents {
    items: Vec<Ident>,
}

impl Drop for Idents {
    fn drop(self) {
        let Idents { items: _ } = self;
    }
}

impl Model for Idents {
    ghost use Rattle.std.specs.Prelude.{List};
    ghost use Rattle.conf_syntax.specs.declared.token.Ident.{Ident};

    ghost Value = { List Ident };

    ghost view = { λ list. list.items.items };
}

impl Idents {
    /// The list of these items.
    pub fn of(items: Vec<Ident>) -> Self
        ensures items { result ≡ items.items }
    {
        Idents { items }
    }

    /// The items, in order.
    pub fn items(&self) -> &[Ident]
        ensures items { result.now ≡ self.now }
    {
        &self.items
    }
}

/// Expressions, in order.
pub struct Exprs {
    items: Vec<Expr>,
}

impl Drop for Exprs {
    fn drop(self) {
        let Exprs { items: _ } = self;
    }
}

impl Model for Exprs {
    ghost use Rattle.std.specs.Prelude.{List};
    ghost use Rattle.conf_syntax.specs.declared.tree.Expr.{Expr};
    ghost use Rattle.conf_syntax.specs.contracts.tree.Expr as expr;
    ghost use Rattle.std.specs.Coded.{codes};

    ghost Value = { List Expr };

    ghost coded = { Prim.hlevel (codes, expr.the_row.coded) };

    ghost view = { λ list. list.items.items };
}

impl Exprs {
    /// The list of these items.
    pub fn of(items: Vec<Expr>) -> Self
        ensures items { result ≡ items.items }
    {
        Exprs { items }
    }

    /// The items, in order.
    pub fn items(&self) -> &[Expr]
        ensures items { result.now ≡ self.now }
    {
        &self.items
    }
}

/// The members of a class, in order.
pub struct Members {
    items: Vec<Member>,
}

impl Drop for Members {
    fn drop(self) {
        let Members { items: _ } = self;
    }
}

impl Model for Members {
    ghost use Rattle.std.specs.Prelude.{List};
    ghost use Rattle.conf_syntax.specs.declared.tree.Member.{Member};
    ghost use Rattle.conf_syntax.specs.contracts.tree.Expr as expr;
    ghost use Rattle.std.specs.Coded.{codes};

    ghost Value = { List Member };

    ghost coded = { Prim.hlevel (codes, expr.the_row.coded) };

    ghost view = { λ list. list.items.items };
}

impl Members {
    /// The list of these items.
    pub fn of(items: Vec<Member>) -> Self
        ensures items { result ≡ items.items }
    {
        Members { items }
    }

    /// The items, in order.
    pub fn items(&self) -> &[Member]
        ensures items { result.now ≡ self.now }
    {
        &self.items
    }
}

/// The items of a model, in order.
pub struct Items {
    items: Vec<Item>,
}

impl Drop for Items {
    fn drop(self) {
        let Items { items: _ } = self;
    }
}

impl Model for Items {
    ghost use Rattle.std.specs.Prelude.{List};
    ghost use Rattle.conf_syntax.specs.declared.tree.Item.{Item};
    ghost use Rattle.conf_syntax.specs.contracts.tree.Expr as expr;
    ghost use Rattle.std.specs.Coded.{codes};

    ghost Value = { List Item };

    ghost coded = { Prim.hlevel (codes, expr.the_row.coded) };

    ghost view = { λ list. list.items.items };
}

impl Items {
    /// The list of these items.
    pub fn of(items: Vec<Item>) -> Self
        ensures items { result ≡ items.items }
    {
        Items { items }
    }

    /// The items, in order.
    pub fn items(&self) -> &[Item]
        ensures items { result.now ≡ self.now }
    {
        &self.items
    }
}
