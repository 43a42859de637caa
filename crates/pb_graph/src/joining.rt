ghost use Rattle.std.specs.Prelude.{◌≡◌, ◌++◌, ◌<◌, ◌^◌, IfErr, IfOk, OnOk, length};
ghost use Rattle.pb_graph.specs.Edges.{is_among};
ghost use Rattle.pb_graph.specs.Rows.{joined_by, makers, with_others};
ghost use Rattle.pb_graph.specs.declared.refusal.GraphRefusal.TheVariants.{Memory};

use crate::node::Node;
use crate::refusal::GraphRefusal;
use pb_layers::Link;
use std::alloc::Global;

pub(crate) fn makes(node: &Node, rule: u32) -> bool
    ensures { result ≡ is_among node.now.rules rule }
{
    node.rules.contains(&rule)
}

/// The numbers of the segments whose cells a rule may make.
fn makers(alloc: Global, nodes: &[Node], rule: u32) -> Result<Vec<u32>, GraphRefusal>
    requires { length nodes.now < 2 ^ 32 }
    ensures found { IfOk result (λ ms. ms.items ≡ makers nodes.now rule) }
    ensures refused { IfErr result (λ e. e ≡ Memory) }
{
    let mut makers = Vec::new(alloc);
    for (number, node) in nodes.iter().enumerate() {
        if !makes(node, rule) {
            continue;
        }
        makers.push(number as u32)?;
    }
    Ok(makers)
}

/// Adds at the end of a list the first of these segments with each other.
fn push_joined(joined: &mut Vec<Link>, segments: &[u32]) -> Result<(), GraphRefusal>
    ensures found { OnOk result (joined.new.items ≡ joined.old.items ++ with_others segments.now) }
    ensures refused { IfErr result (λ e. e ≡ Memory) }
{
    if let [from, others @ ..] = segments {
        for to in others {
            joined.push(Link {
                from: *from,
                to: *to,
            })?;
        }
    }
    Ok(())
}

/// The segments that must share a layer: those that a rule that isn't for single cells may make, the first with each other.
pub(crate) fn joined(
    alloc: Global,
    nodes: &[Node],
    wide_rules: &[u32],
) -> Result<Vec<Link>, GraphRefusal>
    requires { length nodes.now < 2 ^ 32 }
    ensures found { IfOk result (λ ls. ls.items ≡ joined_by nodes.now wide_rules.now) }
    ensures refused { IfErr result (λ e. e ≡ Memory) }
{
    let mut joined = Vec::new(alloc);
    for rule in wide_rules {
        push_joined(&mut joined, &makers(alloc, nodes, *rule)?)?;
    }
    Ok(joined)
}
