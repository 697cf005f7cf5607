//! Prints a policy.

ghost use Rattle.std.specs.Prelude.{◌≡◌, ◌++◌, OnOk, string_bytes};
ghost use Rattle.proxy_policy.specs.Listing.{limit_text, numbers_text, op_texts, principal_line, rule_lines, rule_text, listed};

use crate::rule::{Policy, Rule};
use coord_types::Identifier;
use proxy_request::Op;
use std::alloc::AllocError;

impl Policy {
    /// Appends a line for each principal of each rule: the principal, and the rule's ops, clients and nodes. Clients
    /// and nodes appear only if the rule lists any. Errors: out of memory.
    pub fn print(&self, text: &mut String) -> Result<(), AllocError>
        ensures { OnOk result (string_bytes text.new ≡ string_bytes text.old ++ listed self.now.rules.items) }
    {
        for rule in &self.rules {
            print_rule(text, rule)?;
        }
        Ok(())
    }
}

fn print_rule(text: &mut String, rule: &Rule) -> Result<(), AllocError>
    ensures { OnOk result (string_bytes text.new ≡ string_bytes text.old ++ rule_lines rule.now) }
{
    for principal in &rule.principals {
        print_principal(text, rule, principal.as_str())?;
    }
    Ok(())
}

fn print_principal(text: &mut String, rule: &Rule, principal: &str) -> Result<(), AllocError>
    ensures { OnOk result (string_bytes text.new ≡ string_bytes text.old ++ principal_line rule.now principal.now) }
{
    text.push_str(principal)?;
    text.push_str(":")?;
    print_rights(text, rule)?;
    text.push_str("\n")
}

fn print_rights(text: &mut String, rule: &Rule) -> Result<(), AllocError>
    ensures { OnOk result (string_bytes text.new ≡ string_bytes text.old ++ rule_text rule.now) }
{
    print_ops(text, rule.ops.as_slice())?;
    print_limit(text, ", as clients", &rule.clients)?;
    print_limit(text, ", at nodes", &rule.nodes)
}

fn print_ops(text: &mut String, ops: &[Op]) -> Result<(), AllocError>
    ensures { OnOk result (string_bytes text.new ≡ string_bytes text.old ++ op_texts ops.now) }
{
    for op in ops {
        let name = op.name();
        write!(text, " {name}")?;
    }
    Ok(())
}

fn print_limit<const MOST: u8>(
    text: &mut String,
    name: &str,
    limit: &Option<Vec<Identifier<MOST>>>,
) -> Result<(), AllocError>
    ensures { OnOk result (string_bytes text.new ≡ string_bytes text.old ++ limit_text name.now limit.now) }
{
    match limit {
        Some(numbers) => {
            text.push_str(name)?;
            print_numbers(text, numbers.as_slice())
        }
        None => Ok(()),
    }
}

fn print_numbers<const MOST: u8>(
    text: &mut String,
    numbers: &[Identifier<MOST>],
) -> Result<(), AllocError>
    ensures { OnOk result (string_bytes text.new ≡ string_bytes text.old ++ numbers_text numbers.now) }
{
    for identifier in numbers {
        let number = identifier.number();
        write!(text, " {number}")?;
    }
    Ok(())
}
