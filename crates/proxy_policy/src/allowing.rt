//! The requests that a policy allows.

ghost use Rattle.std.specs.Prelude.{◌≡◌, ◌==◌, string_bytes};
ghost use Rattle.std.specs.List.{list_any};
ghost use Rattle.std.specs.Str.{bytes_eq};
ghost use Rattle.proxy_request.specs.Ops.{same_op};
ghost use Rattle.proxy_policy.specs.Allowing.{allows, is_order_op, is_proxy_client, lets_order, may_name, may_order, may_use, rule_allows};

use crate::rule::{Policy, Rule};
use coord_types::{Client, Identifier, NodeId};
use proxy_request::{Op, PROXY_CLIENT, Request};

impl Policy {
    /// Tests whether a principal may send this request.
    pub fn allows(&self, principal: &str, request: &Request) -> bool
        ensures { result ≡ allows self.now.rules.items principal.now request.now }
    {
        !is_proxy_client(request.client())
            && some_rule_allows(self.rules.as_slice(), principal, request)
    }

    /// Tests whether some rule allows a principal an op other than `show` and `watch`.
    pub fn may_order(&self, principal: &str) -> bool
        ensures { result ≡ may_order self.now.rules.items principal.now }
    {
        some_rule_lets_order(self.rules.as_slice(), principal)
    }
}

fn some_rule_lets_order(rules: &[Rule], principal: &str) -> bool
    ensures { result ≡ may_order rules.now principal.now }
{
    for rule in rules {
        if lets_order(rule, principal) {
            return true;
        }
    }
    false
}

fn lets_order(rule: &Rule, principal: &str) -> bool
    ensures { result ≡ lets_order rule.now principal.now }
{
    is_for(rule.principals.as_slice(), principal) && has_order(rule.ops.as_slice())
}

fn has_order(ops: &[Op]) -> bool
    ensures { result ≡ list_any is_order_op ops.now }
{
    for op in ops {
        if is_order_op(*op) {
            return true;
        }
    }
    false
}

fn is_order_op(op: Op) -> bool
    ensures { result ≡ is_order_op op }
{
    !matches!(op, Op::Show | Op::Watch)
}

fn some_rule_allows(rules: &[Rule], principal: &str, request: &Request) -> bool
    ensures { result ≡ list_any (λ rule. rule_allows rule principal.now request.now) rules.now }
{
    for rule in rules {
        if rule_allows(rule, principal, request) {
            return true;
        }
    }
    false
}

fn rule_allows(rule: &Rule, principal: &str, request: &Request) -> bool
    ensures { result ≡ rule_allows rule.now principal.now request.now }
{
    is_for(rule.principals.as_slice(), principal)
        && has_op(rule.ops.as_slice(), request.op())
        && may_use(&rule.clients, request.client())
        && may_name(&rule.nodes, request.first_node())
        && may_name(&rule.nodes, request.second_node())
}

fn is_proxy_client(client: Option<Client>) -> bool
    ensures { result ≡ is_proxy_client client }
{
    match client {
        Some(client) => client.number() == PROXY_CLIENT,
        None => false,
    }
}

fn is_for(principals: &[String], principal: &str) -> bool
    ensures { result ≡ list_any (λ name. bytes_eq (string_bytes name) principal.now) principals.now }
{
    for name in principals {
        if name.as_str() == principal {
            return true;
        }
    }
    false
}

fn has_op(ops: &[Op], op: Op) -> bool
    ensures { result ≡ list_any (λ each. same_op each op) ops.now }
{
    for each in ops {
        if each.number() == op.number() {
            return true;
        }
    }
    false
}

fn may_use(clients: &Option<Vec<Client>>, client: Option<Client>) -> bool
    ensures { result ≡ may_use clients.now client }
{
    match (clients, client) {
        (Some(clients), Some(client)) => is_listed(clients.as_slice(), client.number()),
        _ => true,
    }
}

fn may_name(nodes: &Option<Vec<NodeId>>, node: Option<NodeId>) -> bool
    ensures { result ≡ may_name nodes.now node }
{
    match (nodes, node) {
        (Some(nodes), Some(node)) => is_listed(nodes.as_slice(), node.number()),
        _ => true,
    }
}

fn is_listed<const MOST: u8>(all: &[Identifier<MOST>], number: u8) -> bool
    ensures { result ≡ list_any (λ each. each == number) all.now }
{
    for each in all {
        if each.number() == number {
            return true;
        }
    }
    false
}
