//! The line of an order that the proxy numbers.

ghost use Rattle.std.specs.Prelude.{◌≡◌, IfOk, Ok, Some};
ghost use Rattle.coord_admin.specs.Requests.{asked_by};
ghost use Rattle.coord_admin.specs.declared.request.Request.TheVariants.{Order};
ghost use Rattle.proxy_request.specs.Spelling.{spelled};

use crate::request::PROXY_CLIENT;
use coord_heard::laws::order_is_read;
use coord_orders::Line;
use coord_types::{Client, Command};
use coord_wire::print_order;
use std::alloc::{AllocError, Global};

/// Returns the line, without its line feed, of an order of the proxy's client with this number. The
/// server reads the line as that order. Errors: out of memory.
pub fn spell(alloc: Global, number: u64, command: Command) -> Result<Vec<u8>, AllocError>
    ensures text { IfOk result (λ text. text.items ≡ spelled number command) }
    ensures read { IfOk result (λ text. asked_by (Some text.items) ≡
        Ok (Order PROXY_CLIENT number command)) }
{
    command.lemma_in_range();
    order_is_read();
    let Some(client) = Client::new(PROXY_CLIENT) else {
        unreachable!()
    };
    let mut text = String::new(alloc);
    print_order(&mut text, client, &Line { number, command })?;
    let mut line = text.into_bytes();
    let _line_feed = line.pop();
    Ok(line)
}
