//! A whole model: its constraints and objectives, each typed and resolved, in order of place.
ghost use Rattle.std.specs.Prelude.{◌≡◌, ◌≤◌, ◌<◌, ◌+◌, ◌-◌, ◌^◌, ◌++◌, [], map, length, All, AllPairs, Contains, None, Some, IfOk, IfErr, IfSome, OnOk};
ghost use Rattle.std.specs.List.{flat_map};
ghost use Rattle.model_limits.specs.Limits.{model_bytes, most_nesting};
ghost use Rattle.class_table.specs.Names.{item_class};
ghost use Rattle.class_table.specs.Outline.{Outline, outline};
ghost use Rattle.class_table.specs.Sound.{IsSound};
ghost use Rattle.conf_syntax.specs.Trees.{depth, item_depth, nesting, program_tokens, deepest, expr_depth, member_depth};
ghost use Rattle.conf_types.specs.Checked.{scope_of};
ghost use Rattle.conf_types.specs.Programs.{OnFault, constraint_at, resolved_constraint, resolved_goal, constraint_faults, goal_faults, faults, constraints, goals, stated, member_exprs, item_constraints, item_goal, next_class, outside};
ghost use Rattle.conf_types.specs.Typing.{IsTypedConstraint, IsTypedGoal, IsTypedModel};

use crate::copies::copy_constraints;
use crate::expressions::check_needed;
use crate::scope::Scope;
use crate::{Constraint, Constraints, Goal, Goals, Need, TypeFault};
use class_table::ClassTable;
use conf_syntax::{Expr, GoalDecl, Item, Member, Program};
use std::alloc::{AllocError, Global};

/// A model in which the expressions have no fault: its constraints and objectives, resolved.
pub struct TypedModel {
    constraints: Constraints,
    goals: Goals,
}

impl Drop for TypedModel {
    fn drop(self) {
        let TypedModel {
            constraints: _,
            goals: _,
        } = self;
    }
}

impl TypedModel {
    /// The constraints, in order of place.
    pub fn constraints(&self) -> &[Constraint]
        ensures constraints { result.now ≡ self.now.constraints }
    {
        self.constraints.items()
    }

    /// The objectives, in order of place.
    pub fn goals(&self) -> &[Goal]
        ensures goals { result.now ≡ self.now.goals }
    {
        self.goals.items()
    }

    /// The model with the constraints of these indexes alone, in order, and with no objective.
    pub fn only(&self, alloc: Global, keep: &[u32]) -> Result<TypedModel, AllocError>
        requires ascend { AllPairs ◌<◌ keep.now }
        requires exist { All (λ k. k < length self.now.constraints) keep.now }
        ensures constraints { IfOk result (λ m. m.constraints
            ≡ map (constraint_at self.now.constraints) keep.now) }
        ensures goals { IfOk result (λ m. m.goals ≡ []) }
        ensures typed { (o : Outline) → IsTypedModel o self.now.constraints self.now.goals
            → IfOk result (λ m. IsTypedModel o m.constraints m.goals) }
    {
        let constraints = copy_constraints(alloc, self.constraints.items(), keep)?;
        Ok(TypedModel {
            constraints: Constraints::of(constraints),
            goals: Goals::of(Vec::new(alloc)),
        })
    }
}

/// What was resolved so far.
#[derive(Drop)]
struct Parts {
    constraints: Vec<Constraint>,
    goals: Vec<Goal>,
}

/// The scope of a whole expression: no quantifier stands round it.
fn outside<'a>(alloc: Global, class: Option<u32>) -> Scope<'a>
    ensures scope { scope_of result ≡ outside class }
    ensures class { result.class ≡ class }
    ensures locals { result.locals.items ≡ [] }
{
    Scope {
        class,
        locals: Vec::new(alloc),
    }
}

/// A constraint, which is stated for the objects of this class or at the top level.
fn check_constraint(
    alloc: Global,
    table: &ClassTable,
    class: Option<u32>,
    expr: &Expr,
) -> Result<Constraint, TypeFault>
    requires sound { IsSound table.now }
    requires class { IfSome class (λ c. c < length table.now.classes) }
    requires depth { depth expr.now.node ≤ most_nesting }
    ensures constraint { IfOk result (λ k. k ≡ resolved_constraint table.now
        (stated class expr.now)) }
    ensures right { OnOk result (constraint_faults table.now (stated class expr.now) ≡ []) }
    ensures typed { IfOk result (λ k. IsTypedConstraint table.now k) }
    ensures fault { IfErr result (λ f. OnFault f
        (λ g. Contains (constraint_faults table.now (stated class expr.now)) g)) }
{
    let scope = outside(alloc, class);
    match check_needed(alloc, table, &scope, expr, Need::Truth) {
        Ok(x) => Ok(Constraint {
            class,
            place: x.first,
            expr: x.expr,
        }),
        Err(fault) => Err(fault),
    }
}

/// An objective.
fn check_goal(alloc: Global, table: &ClassTable, decl: &GoalDecl) -> Result<Goal, TypeFault>
    requires sound { IsSound table.now }
    requires depth { depth decl.now.expr.node ≤ most_nesting }
    ensures goal { IfOk result (λ k. k ≡ resolved_goal table.now decl.now) }
    ensures right { OnOk result (goal_faults table.now decl.now ≡ []) }
    ensures typed { IfOk result (λ k. IsTypedGoal table.now k) }
    ensures fault { IfErr result (λ f. OnFault f (λ g. Contains (goal_faults table.now decl.now)
        g)) }
{
    let scope = outside(alloc, None);
    match check_needed(alloc, table, &scope, &decl.expr, Need::Int) {
        Ok(x) => Ok(Goal {
            max: decl.max,
            expr: x.expr,
        }),
        Err(fault) => Err(fault),
    }
}

/// Adds some constraints.
fn check_list(
    alloc: Global,
    table: &ClassTable,
    class: Option<u32>,
    list: &[Expr],
    found: &mut Vec<Constraint>,
) -> Result<(), TypeFault>
    requires sound { IsSound table.now }
    requires class { IfSome class (λ c. c < length table.now.classes) }
    requires depth { deepest expr_depth list.now ≤ most_nesting }
    ensures constraints { OnOk result (found.new.items ≡ found.old.items
        ++ map (resolved_constraint table.now) (map (stated class) list.now)) }
    ensures right { OnOk result (flat_map (constraint_faults table.now)
        (map (stated class) list.now) ≡ []) }
    ensures typed { OnOk result (All (IsTypedConstraint table.now) found.old.items
        → All (IsTypedConstraint table.now) found.new.items) }
    ensures fault { IfErr result (λ f. OnFault f
        (λ g. Contains (flat_map (constraint_faults table.now) (map (stated class) list.now)) g)) }
{
    for expr in list {
        match check_constraint(alloc, table, class, expr) {
            Ok(constraint) => found.push(constraint)?,
            Err(fault) => return Err(fault),
        }
    }
    Ok(())
}

/// Adds the constraints of a class.
fn check_members(
    alloc: Global,
    table: &ClassTable,
    class: u32,
    members: &[Member],
    found: &mut Vec<Constraint>,
) -> Result<(), TypeFault>
    requires sound { IsSound table.now }
    requires class { class < length table.now.classes }
    requires depth { deepest member_depth members.now ≤ most_nesting }
    ensures constraints { OnOk result (found.new.items ≡ found.old.items
        ++ map (resolved_constraint table.now)
        (map (stated (Some class)) (flat_map member_exprs members.now))) }
    ensures right { OnOk result (flat_map (constraint_faults table.now)
        (map (stated (Some class)) (flat_map member_exprs members.now)) ≡ []) }
    ensures typed { OnOk result (All (IsTypedConstraint table.now) found.old.items
        → All (IsTypedConstraint table.now) found.new.items) }
    ensures fault { IfErr result (λ f. OnFault f
        (λ g. Contains (flat_map (constraint_faults table.now)
        (map (stated (Some class)) (flat_map member_exprs members.now))) g)) }
{
    for member in members {
        let Member::Where(decl) = member else {
            continue;
        };
        if let Err(fault) = check_list(alloc, table, Some(class), decl.list.items(), found) {
            return Err(fault);
        }
    }
    Ok(())
}

/// Adds the constraints or the objective of an item. The next class has this number.
fn check_item(
    alloc: Global,
    table: &ClassTable,
    class: u32,
    item: &Item,
    found: &mut Parts,
) -> Result<(), TypeFault>
    requires sound { IsSound table.now }
    requires class { class + length (item_class item.now) ≤ length table.now.classes }
    requires depth { item_depth item.now ≤ most_nesting }
    ensures constraints { OnOk result (found.new.constraints.items ≡ found.old.constraints.items
        ++ map (resolved_constraint table.now) (item_constraints item.now class)) }
    ensures goals { OnOk result (found.new.goals.items ≡ found.old.goals.items
        ++ map (resolved_goal table.now) (item_goal item.now)) }
    ensures right_constraints { OnOk result (flat_map (constraint_faults table.now)
        (item_constraints item.now class) ≡ []) }
    ensures right_goals { OnOk result (flat_map (goal_faults table.now) (item_goal item.now) ≡ []) }
    ensures typed { OnOk result (IsTypedModel table.now found.old.constraints.items
        found.old.goals.items → IsTypedModel table.now found.new.constraints.items
        found.new.goals.items) }
    ensures fault { IfErr result (λ f. OnFault f
        (λ g. Contains (flat_map (constraint_faults table.now) (item_constraints item.now class)
        ++ flat_map (goal_faults table.now) (item_goal item.now)) g)) }
{
    match item {
        Item::Class(decl) => check_members(
            alloc,
            table,
            class,
            decl.members.items(),
            &mut found.constraints,
        ),
        Item::Where(decl) => check_list(
            alloc,
            table,
            None,
            decl.list.items(),
            &mut found.constraints,
        ),
        Item::Goal(decl) => match check_goal(alloc, table, decl) {
            Ok(goal) => {
                found.goals.push(goal)?;
                Ok(())
            }
            Err(fault) => Err(fault),
        },
        Item::Enum(_) | Item::Var(_) => Ok(()),
    }
}

/// The number of the next class, behind an item.
fn class_behind(item: &Item, class: u32) -> u32
    requires few { class < 2 ^ 32 - 1 }
    ensures { result ≡ next_class item.now class }
{
    match item {
        Item::Class(_) => class + 1,
        Item::Enum(_) | Item::Var(_) | Item::Where(_) | Item::Goal(_) => class,
    }
}

/// The constraints and objectives of the items of a model.
fn check_items(alloc: Global, table: &ClassTable, items: &[Item]) -> Result<Parts, TypeFault>
    requires table { table.now ≡ outline items.now }
    requires sound { IsSound table.now }
    requires few { length items.now < 2 ^ 32 - 1 }
    requires depth { deepest item_depth items.now ≤ most_nesting }
    ensures constraints { IfOk result (λ m. m.constraints.items
        ≡ map (resolved_constraint table.now) (constraints items.now)) }
    ensures goals { IfOk result (λ m. m.goals.items ≡ map (resolved_goal table.now)
        (goals items.now)) }
    ensures right { OnOk result (faults table.now items.now ≡ []) }
    ensures typed { IfOk result (λ m. IsTypedModel table.now m.constraints.items m.goals.items) }
    ensures fault { IfErr result (λ f. OnFault f (λ g. Contains (faults table.now items.now) g)) }
{
    let mut found = Parts {
        constraints: Vec::new(alloc),
        goals: Vec::new(alloc),
    };
    let mut class = 0;
    for item in items {
        if let Err(fault) = check_item(alloc, table, class, item, &mut found) {
            return Err(fault);
        }
        class = class_behind(item, class);
    }
    Ok(found)
}

/// Types and resolves the constraints and objectives of a model, whose table this is.
///
/// # Errors
///
/// A fault that stands in the expressions, at its place; `Memory` where there is none left. No
/// fault is passed over: where one stands, there is no typed model.
pub fn check(alloc: Global, program: &Program, table: &ClassTable) -> Result<TypedModel, TypeFault>
    requires table { table.now ≡ outline program.now.items }
    requires tokens { length (program_tokens program.now) ≤ model_bytes }
    requires nesting { nesting program.now ≤ most_nesting }
    ensures constraints { IfOk result (λ m. m.constraints ≡ map (resolved_constraint table.now)
        (constraints program.now.items)) }
    ensures few { IfOk result (λ m. length m.constraints ≤ model_bytes) }
    ensures goals { IfOk result (λ m. m.goals ≡ map (resolved_goal table.now)
        (goals program.now.items)) }
    ensures right { OnOk result (faults table.now program.now.items ≡ []) }
    ensures typed { IfOk result (λ m. IsTypedModel table.now m.constraints m.goals) }
    ensures fault { IfErr result (λ f. OnFault f (λ g. Contains (faults table.now program.now.items)
        g)) }
{
    let _classes = table.class_count();
    match check_items(alloc, table, program.items.items()) {
        Ok(found) => Ok(TypedModel {
            constraints: Constraints::of(found.constraints),
            goals: Goals::of(found.goals),
        }),
        Err(fault) => Err(fault),
    }
}
