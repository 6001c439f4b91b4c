//! The small lists of a log: of lines, and of what lines and rounds hold; contracts see each as a
//! plain list.
ghost use Rattle.std.specs.Prelude.{◌≡◌, IfOk};

use crate::line::Line;
use std::alloc::AllocError;
use std::marker::Model;

/// Values, one for each variable or for each goal.
pub struct Values {
    items: Vec<i64>,
}

impl Drop for Values {
    fn drop(self) {
        let Values { items: _ } = self;
    }
}

impl Model for Values {
    ghost use Rattle.std.specs.Prelude.{ℤ, List};

    ghost Value = { List ℤ };

    ghost view = { λ l. l.items.items };
}

impl Values {
    /// These values.
    pub fn of(items: Vec<i64>) -> Self
        ensures { result ≡ items.items }
    {
        Values { items }
    }

    /// They, in order.
    pub fn items(&self) -> &[i64]
        ensures { result.now ≡ self.now }
    {
        self.items.as_slice()
    }

    /// The same values again.
    pub fn copy(&self) -> Result<Self, AllocError>
        ensures { IfOk result (λ l. l ≡ self.now) }
    {
        let items = self.items.as_slice().to_vec(*self.items.allocator())?;
        Ok(Values { items })
    }

    /// They as a vector again, without memory.
    pub fn into_items(self) -> Vec<i64>
        ensures { result.items ≡ self }
    {
        let Values { items } = self;
        items
    }
}

/// Indexes of parts of a model.
pub struct Indexes {
    items: Vec<u32>,
}

impl Drop for Indexes {
    fn drop(self) {
        let Indexes { items: _ } = self;
    }
}

impl Model for Indexes {
    ghost use Rattle.std.specs.Prelude.{ℕ, List};

    ghost Value = { List ℕ };

    ghost view = { λ l. l.items.items };
}

impl Indexes {
    /// These indexes.
    pub fn of(items: Vec<u32>) -> Self
        ensures { result ≡ items.items }
    {
        Indexes { items }
    }

    /// They, in order.
    pub fn items(&self) -> &[u32]
        ensures { result.now ≡ self.now }
    {
        self.items.as_slice()
    }

    /// They as a vector again, without memory.
    pub fn into_items(self) -> Vec<u32>
        ensures { result.items ≡ self }
    {
        let Indexes { items } = self;
        items
    }
}

/// Lines of a log, in order.
pub struct Lines {
    items: Vec<Line>,
}

impl Drop for Lines {
    fn drop(self) {
        let Lines { items: _ } = self;
    }
}

impl Model for Lines {
    ghost use Rattle.std.specs.Prelude.{List};
    ghost use Rattle.log_form.specs.declared.line.Line.{Line};

    ghost Value = { List Line };

    ghost view = { λ l. l.items.items };
}

impl Lines {
    /// These lines.
    pub fn of(items: Vec<Line>) -> Self
        ensures { result ≡ items.items }
    {
        Lines { items }
    }

    /// They, in order.
    pub fn items(&self) -> &[Line]
        ensures { result.now ≡ self.now }
    {
        self.items.as_slice()
    }

    /// They as a vector again, without memory.
    pub fn into_items(self) -> Vec<Line>
        ensures { result.items ≡ self }
    {
        let Lines { items } = self;
        items
    }
}
