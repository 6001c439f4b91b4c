//! Objects by their paths.
//!
//! `Objects::object_at` is the entry. It reads a path from its front, a name and an index at a
//! time, and takes no memory.
ghost use Rattle.std.specs.Prelude.{◌≡◌, ◌<◌, ◌≤◌, ◌^◌, ◌++◌, ℕ, Some, IfSome, IfNone, length, slice_get, codes, decimal};
ghost use Rattle.class_table.specs.declared.table.Variable.{Variable as AVariable};
ghost use Rattle.class_table.specs.Sound.{IsSound};
ghost use Rattle.object_alloc.specs.Variables.{variables_of};
ghost use Rattle.object_alloc.specs.Named.{IsStep, HasName, first_place};
ghost use Rattle.object_alloc.specs.Paths.{object_named, index_text, path};
ghost use Rattle.object_alloc.specs.Parts.{IsElement};
ghost use Rattle.object_alloc.specs.Walk.{objects as all_objects};

use crate::objects::Objects;
use class_table::Resolved;
use decimal_text::number_of;

impl<'t> Objects<'t> {
    /// The object that has this path. The cost is proportional to the path's length, but for an
    /// inherited attribute, which costs as many look-ups as the logarithm of the number of classes.
    pub fn object_at(&self, text: &[u8]) -> Option<u32>
        ensures object { result ≡ object_named self.now text.now }
        ensures own { (n : ℕ) → n < length (all_objects self.now) → path self.now n ≡ text.now
            → result ≡ Some n }
        ensures there { IfSome result (λ n. n < length (all_objects self.now)) }
        ensures path { IfSome result (λ n. path self.now n ≡ text.now) }
    {
        let _count = self.sound_count();
        let mut owner = None;
        let mut from = 0;
        loop {
            let rest = &text[from..];
            let end = first_of(rest, b'.');
            let object = self.part_named(owner, &rest[..end])?;
            if end == rest.len() {
                return Some(object);
            }
            owner = Some(object);
            from += end + 1;
        }
    }

    /// How many objects there are. It also hands on what holds of every model's outline.
    fn sound_count(&self) -> u32
        ensures sound { IsSound self.now }
        ensures few { length (all_objects self.now) < 2 ^ 32 }
    {
        let _classes = self.table().class_count();
        self.count()
    }

    /// The object that this owner holds and that a path names so, after the owner's path.
    fn part_named(&self, owner: Option<u32>, step: &[u8]) -> Option<u32>
        requires owner { IfSome owner (λ n. n < length (all_objects self.now)) }
        ensures there { IfSome result (λ n. n < length (all_objects self.now)) }
        ensures step { IfSome result (IsStep self.now owner step.now) }
        ensures named { (n : ℕ) → IsStep self.now owner step.now n → result ≡ Some n }
    {
        let _count = self.sound_count();
        let end = first_of(step, b'[');
        let k = self.variable_named(owner, &step[..end])?;
        let element = element_named(self.shape(owner, k), &step[end..])?;
        Some(self.part(owner, k, element))
    }

    /// The attribute of an object, or the variable of the top level, that has this name.
    fn variable_named(&self, owner: Option<u32>, name: &[u8]) -> Option<u32>
        requires owner { IfSome owner (λ n. n < length (all_objects self.now)) }
        ensures name { IfSome result (HasName (variables_of self.now owner) name.now) }
        ensures named { (k : ℕ) → HasName (variables_of self.now owner) name.now k → result
            ≡ Some k }
    {
        let _count = self.sound_count();
        match owner {
            Some(owner) => self.table().attribute_spelled(self.class(owner), name),
            None => {
                let root = self.table().root_spelled(name)?;
                if self.table().root(root).name.as_bytes() == name {
                    Some(root)
                } else {
                    None
                }
            }
        }
    }
}

/// The element of this shape that stands with this index in a path: an array's is a number in
/// brackets, and that of one object is left out.
fn element_named(shape: Resolved, index: &[u8]) -> Option<u32>
    ensures element { IfSome result (IsElement shape) }
    ensures text { IfSome result (λ i. index_text shape i ≡ index.now) }
    ensures named { (i : ℕ) → i < 2 ^ 32 → IsElement shape i → index_text shape i ≡ index.now
        → result ≡ Some i }
{
    match shape {
        Resolved::One(_) => { if index.is_empty() { Some(0) } else { None } }
        Resolved::Many(_, count) => {
            let element = index_of(index)?;
            if element < count { Some(element) } else { None }
        }
        _ => None,
    }
}

/// The number in brackets.
fn index_of(index: &[u8]) -> Option<u32>
    ensures some { IfSome result (λ i. codes "[" ++ decimal i ++ codes "]" ≡ index.now) }
    ensures none { IfNone result ((i : ℕ) → i < 2 ^ 32 → codes "[" ++ decimal i ++ codes "]"
        ≡ index.now → ⊥) }
{
    if index.len() < 2 || index[0] != b'[' || index[index.len() - 1] != b']' {
        return None;
    }
    let number = number_of(&index[1..index.len() - 1])?;
    if number > u32::MAX as u64 {
        return None;
    }
    Some(number as u32)
}

/// The place of the first such byte, or the length where there is none.
fn first_of(text: &[u8], byte: u8) -> usize
    ensures place { result ≡ first_place byte text.now }
    ensures within { result ≤ length text.now }
{
    for i in 0..text.len() {
        if text[i] == byte {
            return i;
        }
    }
    text.len()
}
