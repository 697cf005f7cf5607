//! Implements the `Policy` trait of the proxy's core for `Access`.

ghost use Rattle.std.specs.Prelude.{◌≡◌, IfOk};
ghost use Rattle.proxy_access.specs.Access.{core_rules, is_for_server, is_own, is_probe, access_principals, request_from, access_rules};

use crate::resets::{names_epoch, permits};
use crate::table::Access;
use coord_admin::LineFault;
use coord_types::Command;
use proxy_core::{Judgement, Policy};
use proxy_request::{
    PROXY_CLIENT, Request, is_out_of_turn, is_refusal, is_reply, read_line, refuses_number, spell,
};
use std::alloc::{AllocError, Global};

impl Policy for Access {
    ghost rules = { λ access. core_rules (access_rules access) (access_principals access) };

    fn judge(&self, alloc: Global, role: u32, line: &[u8]) -> Result<Judgement, AllocError> {
        let Some(request) = read(alloc, line)? else {
            return Ok(Judgement {
                is_allowed: false,
                is_once: false,
                is_query: false,
                is_unnumbered: false,
                needs_view: false,
            });
        };
        Ok(Judgement {
            is_allowed: is_for_server(&request) && self.may(role, &request),
            is_once: request.is_once(),
            is_query: request.is_query(),
            is_unnumbered: request.unnumbered_command().is_some(),
            needs_view: names_epoch(&request),
        })
    }

    fn spell(&self, alloc: Global, number: u64, line: &[u8]) -> Result<Vec<u8>, AllocError> {
        let Some(request) = read(alloc, line)? else {
            return Ok(Vec::new(alloc));
        };
        match request.unnumbered_command() {
            Some(command) => spell(alloc, number, command),
            None => Ok(Vec::new(alloc)),
        }
    }

    fn refuses_number(&self, answer: &[u8]) -> bool {
        refuses_number(answer)
    }

    fn uses_number(&self, answer: &[u8]) -> bool {
        is_reply(answer)
    }

    fn is_refusal(&self, answer: &[u8]) -> bool {
        is_refusal(answer)
    }

    fn is_inconclusive(&self, answer: &[u8]) -> bool {
        is_out_of_turn(answer)
    }

    fn permits(&self, alloc: Global, view: &[u8], line: &[u8]) -> Result<bool, AllocError> {
        let Some(request) = read(alloc, line)? else {
            return Ok(false);
        };
        // A reset that names an epoch has no number.
        if request.unnumbered_command().is_none() {
            return Ok(false);
        }
        permits(alloc, view, &request)
    }
}

/// Returns the request that a line makes, or None if the line has a fault. Errors: out of memory.
#[tactic(auto, unfolding(crate::specs::Access::request_from))]
fn read(alloc: Global, line: &[u8]) -> Result<Option<Request>, AllocError>
    ensures { IfOk result (λ request. request ≡ request_from line.now) }
{
    match read_line(alloc, Some(line)) {
        Ok(request) => Ok(Some(request)),
        Err(LineFault::OutOfMemory) => Err(AllocError),
        Err(_) => Ok(None),
    }
}

/// Tests whether a request is sent to the server. The proxy answers `watch` itself.
fn is_for_server(request: &Request) -> bool
    ensures { result ≡ is_for_server request.now }
{
    !matches!(request, Request::Watch)
}

/// Tests whether the proxy may send a request over its own connection.
pub(crate) fn is_own(request: &Request) -> bool
    ensures { result ≡ is_own request.now }
{
    match request {
        Request::Order(client, _, command) => client.number() == PROXY_CLIENT && is_probe(*command),
        Request::Show => true,
        _ => false,
    }
}

fn is_probe(command: Command) -> bool
    ensures { result ≡ is_probe command }
{
    matches!(command, Command::Confirm(_, 0))
}
