//! How the proxy reads lines and answers, and who may send which lines.

ghost use Rattle.std.specs.Prelude.{◌≡◌, IfOk};
ghost use Rattle.proxy_core.specs.Judging.{judgement};
ghost use Rattle.proxy_core.specs.Rules.{Rules};

use std::alloc::{AllocError, Global};

/// What the core has to know about a line.
#[derive(Clone, Copy, Debug, PartialEq, Eq)]
pub struct Judgement {
    /// The connection that sent the line may send it.
    pub is_allowed: bool,
    /// The line must not be sent to the server a second time; an example is `close`.
    pub is_once: bool,
    /// The line is a query: the server changes nothing for it.
    pub is_query: bool,
    /// The line is an order without a client and a number.
    pub is_unnumbered: bool,
    /// The line may be sent only right after a view that permits it; an example is a reset that names an epoch.
    pub needs_view: bool,
}

/// How lines and answers are read, and who may send which lines. Contracts see a policy as `Rules`.
pub trait Policy {
    ghost rules: { Self → Rules };

    /// Judges a line from a connection in this role. Errors: out of memory.
    fn judge(&self, alloc: Global, role: u32, line: &[u8]) -> Result<Judgement, AllocError>
        ensures { IfOk result (λ judged. judged ≡ judgement (rules self.now) role line.now) };

    /// Returns an order that has no client and number as a line with the proxy's client and this number, without its
    /// line feed. Errors: out of memory.
    fn spell(&self, alloc: Global, number: u64, line: &[u8]) -> Result<Vec<u8>, AllocError>
        ensures { IfOk result (λ text. text.items ≡ (rules self.now).spelled number line.now) };

    /// Returns whether the answer refuses the order's number, not the order itself.
    fn refuses_number(&self, answer: &[u8]) -> bool
        ensures { result ≡ (rules self.now).refuses_number answer.now };

    /// Returns whether the answer says that the number is used now.
    fn uses_number(&self, answer: &[u8]) -> bool
        ensures { result ≡ (rules self.now).uses_number answer.now };

    /// Returns whether the answer refuses an order on its merits. Then the order's number was the next one, and the
    /// number is not used.
    fn is_refusal(&self, answer: &[u8]) -> bool
        ensures { result ≡ (rules self.now).is_refusal answer.now };

    /// Returns whether the answer to a line that was sent twice does not say whether the line was carried out.
    fn is_inconclusive(&self, answer: &[u8]) -> bool
        ensures { result ≡ (rules self.now).is_inconclusive answer.now };

    /// Returns whether this view permits a line that needs a view. Errors: out of memory.
    fn permits(&self, alloc: Global, view: &[u8], line: &[u8]) -> Result<bool, AllocError>
        ensures { IfOk result (λ permits. permits ≡ (rules self.now).permits view.now line.now) };
}
