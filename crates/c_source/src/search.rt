ghost use Rattle.std.specs.Prelude.{◌≡◌};
ghost use Rattle.c_prog.specs.Lines.{access_before, node_before, same_access, same_node};
ghost use Rattle.c_prog.specs.Rising.{keys, Rises, line_in};

use cfix_base::{AccessId, NodeId};

fn is_node_before(a: NodeId, b: NodeId) -> bool
    ensures { result ≡ node_before a b }
{
    a.number < b.number
}

fn is_access_before(a: AccessId, b: AccessId) -> bool
    ensures { result ≡ access_before a b }
{
    is_node_before(a.node, b.node) || (a.node.number == b.node.number && a.index < b.index)
}

/// The line of an access among entries in rising order.
pub fn access_line(entries: &[(AccessId, u32)], id: AccessId) -> Option<u32>
    requires { Rises access_before (keys entries.now) }
    ensures { result ≡ line_in same_access id entries.now }
{
    if entries.is_empty() {
        return None;
    }
    let middle = entries.len() / 2;
    let (key, line) = entries[middle];
    if is_access_before(id, key) {
        access_line(&entries[..middle], id)
    } else if is_access_before(key, id) {
        access_line(&entries[middle + 1..], id)
    } else {
        Some(line)
    }
}

/// The line of a call among entries in rising order.
pub fn call_line(entries: &[(NodeId, u32)], node: NodeId) -> Option<u32>
    requires { Rises node_before (keys entries.now) }
    ensures { result ≡ line_in same_node node entries.now }
{
    if entries.is_empty() {
        return None;
    }
    let middle = entries.len() / 2;
    let (key, line) = entries[middle];
    if is_node_before(node, key) {
        call_line(&entries[..middle], node)
    } else if is_node_before(key, node) {
        call_line(&entries[middle + 1..], node)
    } else {
        Some(line)
    }
}
