//! The lists of three edges and of three uses, and three labels that wait.

ghost use Rattle.std.specs.Prelude.{◌≡◌, IfOk};
ghost use Rattle.cj_links.specs.EdgeTable.{given, three_edges};
ghost use Rattle.cj_links.specs.UseTable.{given_uses, three_uses};

use cj_ir::{Label, Reg};
use cj_links::{EdgeId, EdgeLists, UseId, UseLists, Worklist};
use std::alloc::Global;
use std::process::Abort;
use std::test::Fail;

#[test]
fn a_label_waits_once(rt: HostRuntime) -> Result<(), Fail> {
    let mut list = Worklist::new(rt.alloc(), 3)?;
    assert_eq!(&rt; list.put(Label(1)), true);
    assert_eq!(&rt; list.put(Label(1)), false);
    assert_eq!(&rt; list.take(), Some(Label(1)));
    assert_eq!(&rt; list.take(), None);
    Ok(())
}

#[test]
fn labels_wait_in_the_order_in_which_they_came(rt: HostRuntime) -> Result<(), Fail> {
    let mut list = Worklist::new(rt.alloc(), 2)?;
    assert_eq!(&rt; list.put(Label(1)), true);
    assert_eq!(&rt; list.put(Label(0)), true);
    assert_eq!(&rt; list.take(), Some(Label(1)));
    assert_eq!(&rt; list.put(Label(1)), true);
    assert_eq!(&rt; list.take(), Some(Label(0)));
    assert_eq!(&rt; list.take(), Some(Label(1)));
    Ok(())
}

fn three(alloc: Global) -> Result<EdgeLists, Fail>
    ensures { IfOk result (λ lists. lists ≡ given 3 three_edges) }
{
    let edges = [
        (Label(0), Label(1)),
        (Label(0), Label(2)),
        (Label(1), Label(2)),
    ];
    let lists = EdgeLists::of(alloc, 3, &edges)?;
    Ok(lists)
}

#[test]
fn edges_into_a_label_in_order(rt: HostRuntime) -> Result<(), Fail> {
    let lists = three(rt.alloc())?;
    assert_eq!(&rt; lists.count(Label(2)), 2);
    assert_eq!(&rt; lists.first(Label(2)), Some(EdgeId(1)));
    assert_eq!(&rt; lists.next(EdgeId(1)), Some(EdgeId(2)));
    assert_eq!(&rt; lists.next(EdgeId(2)), None);
    Ok(())
}

#[test]
fn a_moved_edge_is_the_last(rt: HostRuntime) -> Result<(), Fail> {
    let mut lists = three(rt.alloc())?;
    lists.move_to(EdgeId(0), Label(2));
    assert_eq!(&rt; lists.edge(EdgeId(0)), (Label(0), Label(2)));
    assert_eq!(&rt; lists.next(EdgeId(2)), Some(EdgeId(0)));
    assert_eq!(&rt; lists.count(Label(2)), 3);
    assert_eq!(&rt; lists.first(Label(1)), None);
    Ok(())
}

#[test]
fn an_unlinked_edge_is_gone(rt: HostRuntime) -> Result<(), Fail> {
    let mut lists = three(rt.alloc())?;
    lists.unlink(EdgeId(1));
    assert_eq!(&rt; lists.first(Label(2)), Some(EdgeId(2)));
    assert_eq!(&rt; lists.count(Label(2)), 1);
    Ok(())
}

fn two_registers(alloc: Global) -> Result<UseLists, Fail>
    ensures { IfOk result (λ lists. lists ≡ given_uses 2 three_uses) }
{
    let uses = [(Reg(0), Label(0)), (Reg(1), Label(0)), (Reg(0), Label(2))];
    let lists = UseLists::of(alloc, 2, &uses)?;
    Ok(lists)
}

#[test]
fn uses_of_a_register_in_order(rt: HostRuntime) -> Result<(), Fail> {
    let lists = two_registers(rt.alloc())?;
    assert_eq!(&rt; lists.count(Reg(0)), 2);
    assert_eq!(&rt; lists.first(Reg(0)), Some(UseId(0)));
    assert_eq!(&rt; lists.next(UseId(0)), Some(UseId(2)));
    assert_eq!(&rt; lists.label(UseId(2)), Label(2));
    Ok(())
}

#[test]
fn an_unlinked_use_is_gone(rt: HostRuntime) -> Result<(), Fail> {
    let mut lists = two_registers(rt.alloc())?;
    lists.unlink(UseId(0));
    assert_eq!(&rt; lists.first(Reg(0)), Some(UseId(2)));
    assert_eq!(&rt; lists.count(Reg(0)), 1);
    Ok(())
}
