//! The groups that a walk composes.

ghost use Rattle.std.specs.Prelude.{◌≡◌, ◌++◌, IfOk, OnOk};
ghost use Rattle.trace_state.specs.Trees.{tree_path, up_from};
ghost use Rattle.doc_model.specs.declared.canvas.Walk.TheVariants as walk;

use doc_model::Walk;
use geom_core::NoMemory;
use std::alloc::Global;
use tree_core::Tree;

/// The groups that a walk composes, each after those in it.
pub fn path_of(alloc: Global, tree: &Tree, walk: Walk) -> Result<Vec<u16>, NoMemory>
    ensures { IfOk result (λ path. path.items ≡ tree_path walk tree.now) }
{
    match walk {
        Walk::Up(group) => path_up(alloc, tree, group),
        Walk::All => all_groups(alloc, tree),
    }
}

/// All groups, each after those in it, the root last.
fn all_groups(alloc: Global, tree: &Tree) -> Result<Vec<u16>, NoMemory>
    ensures { IfOk result (λ path. path.items ≡ tree_path walk.All tree.now) }
{
    let groups = tree.groups();
    let mut path = Vec::from_slice(alloc, groups.as_slice())?;
    path.push(0)?;
    Ok(path)
}

/// The group with those round it, the root last.
fn path_up(alloc: Global, tree: &Tree, group: u16) -> Result<Vec<u16>, NoMemory>
    ensures { IfOk result (λ path. path.items ≡ tree_path (walk.Up group) tree.now) }
{
    let mut path = Vec::new(alloc);
    push_up(tree, group, &mut path)?;
    path.push(0)?;
    Ok(path)
}

/// The group and those round it up to the root, which is left out.
fn push_up(tree: &Tree, group: u16, path: &mut Vec<u16>) -> Result<(), NoMemory>
    ensures { OnOk result (path.new.items ≡ path.old.items ++ up_from group tree.now) }
{
    let _count = tree.node_count();
    let mut at = group;
    while at != 0 {
        let Some(parent) = tree.parent(at) else {
            return Ok(());
        };
        path.push(at)?;
        at = parent;
    }
    Ok(())
}
