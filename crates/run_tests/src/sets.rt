//! The sets and classes of the planner, which no command shows.
use cfix_base::{FnId, List, NodeId};
use plan_types::{Class, Classes, FnSet, NodeSet};
use std::test::Fail;

const MEMBERS: [u32; 5] = [0, 63, 64, 100, 129];

#[test]
fn sets_have_what_was_inserted(rt: HostRuntime) -> Result<(), Fail> {
    for size in [0u32, 1, 64, 65, 130] {
        let mut set = NodeSet::empty(rt.alloc(), size).expect(&rt, "memory");
        for number in MEMBERS {
            if number < set.size() {
                set.insert(NodeId { number });
            }
        }
        assert_eq!(rt; set.size(), size);
        for number in 0..140u32 {
            let is_member = MEMBERS.contains(&number) && number < size;
            assert_eq!(rt; set.contains(NodeId { number }), is_member);
        }
    }
    let mut set = FnSet::empty(rt.alloc(), 70).expect(&rt, "memory");
    if set.size() > 66 {
        set.insert(FnId { number: 66 });
    }
    assert_eq!(rt; set.size(), 70);
    for number in 0..80u32 {
        assert_eq!(rt; set.contains(FnId { number }), number == 66);
    }
    Ok(())
}

#[test]
fn the_classes_are_a_list(rt: HostRuntime) -> Result<(), Fail> {
    let alloc = rt.alloc();
    let mut classes = Classes::new(alloc);
    let mut reports = List::new(alloc);
    assert_eq!(rt; reports.push(3), Ok(()));
    let mut nodes = NodeSet::empty(alloc, 9).expect(&rt, "memory");
    if nodes.size() > 8 {
        nodes.insert(NodeId { number: 8 });
    }
    assert_eq!(rt; classes.push(Class { nodes, reports }), Ok(()));
    for class in classes.as_slice() {
        assert!(rt; class.nodes.contains(NodeId { number: 8 }));
        assert_eq!(rt; class.reports.len(), 1);
        for report in class.reports.as_slice() {
            assert_eq!(rt; *report, 3);
        }
    }
    assert_eq!(rt; classes.len(), 1);
    Ok(())
}
