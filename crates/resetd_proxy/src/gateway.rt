//! The loop's gateway. proxy_request reads the lines, the policy file says who may send which lines, and the audit
//! records them.

ghost use Rattle.std.specs.Prelude.{◌≡◌, ◌++◌, [], ℕ, List, length, take, IfOk, IfSome, MatchOption, OnErr, Some};
ghost use Rattle.std.specs.Duration.{as_nanos};
ghost use Rattle.proxy_access.specs.Access.{KeepsItsRole, access_principals, access_rules, may_order_if, principal_of};
ghost use Rattle.proxy_access.specs.Resets.{judged_from};
ghost use Rattle.resetd_proxy.specs.Judging.{Gives};
ghost use Rattle.resetd_proxy.specs.Recording.{RecordsBegin, RecordsEnd, RecordsFor, name_of};

use crate::judging::judge_reset;
use crate::metrics::Metrics;
use crate::recording::{record_connection, record_exchange};
use coord_types::{Command, NodeId};
use proxy_access::{Access, MOST_PRINCIPALS, PROXY_ROLE};
use proxy_audit::{Audit, Event};
use proxy_core::{Judgement, Policy};
use proxy_loop::{Counts, Exchange, ExchangeKind, Gateway, Moment, Reading, Verdict};
use proxy_policy::read_policy;
use proxy_request::{Request, read_line, spell};
use std::alloc::{AllocError, Global};
use std::fs::{File, Files};
use std::time::{Clock, Duration, SystemTime};
use std::{fs, io, str};

/// How many milliseconds pass between two checks of the policy file.
const LOOK_PAUSE: u64 = 1000;

/// The name that is recorded for a role without a principal.
const NOBODY: &str = "";

/// A gateway with the policy of a file, the principals, the audit and the metrics.
#[derive(Drop)]
pub struct FileGateway {
    access: Access,
    path: String,
    /// The modification time and the length of the policy file at the last check; None if they could not be read.
    seen: Option<(SystemTime, u64)>,
    refresh_at: Duration,
    audit: Audit,
    metrics: Option<Metrics>,
    /// The time of the last call that gave a time.
    now: Duration,
}

impl FileGateway {
    /// Returns a gateway with the policy of a file. Returns None if the file is not a policy; the fault was reported.
    /// Errors: the file cannot be read, or the fault cannot be reported.
    pub fn open<R: Files + AllocGlobal + Eprint>(
        rt: &R,
        path: String,
        audit: Audit,
        metrics: Option<Metrics>,
    ) -> io::Result<Option<Self>>
        ensures names { IfOk result (λ opened. IfSome opened (λ gateway. access_principals gateway.access ≡ [])) }
        ensures arguments { IfOk result (λ opened. IfSome opened (λ gateway. (gateway.path ≡ path) × (gateway.audit ≡ audit) × (gateway.metrics ≡ metrics))) }
        ensures due { IfOk result (λ opened. IfSome opened (λ gateway. as_nanos gateway.refresh_at ≡ 0)) }
    {
        let seen = look(rt, path.as_str());
        let text = fs::read_to_string(rt, path.as_str())?;
        match read_policy(rt.alloc(), text.as_str()) {
            Ok(policy) => Ok(Some(FileGateway {
                access: Access::new(rt.alloc(), policy),
                path,
                seen,
                refresh_at: Duration::ZERO,
                audit,
                metrics,
                now: Duration::ZERO,
            })),
            Err(fault) => {
                eprintln!(rt; "resetd-proxy: {path}: {fault}")?;
                Ok(None)
            }
        }
    }

    /// Returns the role of a principal, and gives it a role if it has none. Returns None if too many principals have a
    /// role. Errors: out of memory.
    pub fn role_of(&mut self, alloc: Global, name: &str) -> Result<Option<u32>, AllocError>
        ensures role { IfOk result (λ found. MatchOption found (length (access_principals self.old.access) ≡ MOST_PRINCIPALS) (λ role. principal_of (access_principals self.new.access) role ≡ Some name.now)) }
        ensures known { KeepsItsRole (access_principals self.old.access) (access_principals self.new.access) name.now result }
        ensures others { take (length (access_principals self.old.access)) (access_principals self.new.access) ≡ access_principals self.old.access }
        ensures rules { access_rules self.new.access ≡ access_rules self.old.access }
        ensures err { OnErr result (access_principals self.new.access ≡ access_principals self.old.access) }
        ensures rest { (self.new.path ≡ self.old.path) × (self.new.seen ≡ self.old.seen) × (self.new.audit ≡ self.old.audit) }
    {
        self.access.role_of(alloc, name)
    }

    /// Adds the audit line of an exchange, if the exchange has one.
    fn record_line(&mut self, exchange: &Exchange<'_, '_>)
        ensures audit { RecordsFor (name_of (access_principals self.old.access) exchange.now.role) exchange.now self.old.audit self.new.audit }
        ensures policy { (self.new.access ≡ self.old.access) × (self.new.path ≡ self.old.path) × (self.new.seen ≡ self.old.seen) × (self.new.refresh_at ≡ self.old.refresh_at) }
    {
        self.now = exchange.at.now;
        match self.access.principal(exchange.role) {
            Some(who) => record_exchange(&mut self.audit, who, exchange),
            None => record_exchange(&mut self.audit, NOBODY, exchange),
        }
    }

    /// Counts an exchange in the metrics, if there are any.
    fn count(&mut self, alloc: Global, exchange: &Exchange<'_, '_>)
        ensures audit { self.new.audit ≡ self.old.audit }
        ensures policy { (self.new.access ≡ self.old.access) × (self.new.path ≡ self.old.path) × (self.new.seen ≡ self.old.seen) × (self.new.refresh_at ≡ self.old.refresh_at) }
    {
        if let Some(metrics) = &mut self.metrics {
            let op = op_of(alloc, exchange);
            let _ = metrics.tally.count(op, exchange.answer, exchange.waited);
        }
    }
}

/// Returns the modification time and the length of a file, or None if they cannot be read.
fn look<R: Files>(rt: &R, path: &str) -> Option<(SystemTime, u64)> {
    let found = fs::metadata(rt, path).ok()?;
    Some((found.modified().ok()?, found.len()))
}

fn reading_of(request: Request) -> Reading {
    match request {
        Request::Watch => Reading::Watch,
        Request::ResetAt(node, epoch) => Reading::ResetAt(node, epoch),
        _ => Reading::Request,
    }
}

impl Policy for FileGateway {
    ghost use Rattle.proxy_access.specs.Access.{core_rules, access_principals, access_rules};

    ghost rules = { λ g. core_rules (access_rules g.access) (access_principals g.access) };

    fn judge(&self, alloc: Global, role: u32, line: &[u8]) -> Result<Judgement, AllocError> {
        self.access.judge(alloc, role, line)
    }

    fn spell(&self, alloc: Global, number: u64, line: &[u8]) -> Result<Vec<u8>, AllocError> {
        self.access.spell(alloc, number, line)
    }

    fn refuses_number(&self, answer: &[u8]) -> bool {
        self.access.refuses_number(answer)
    }

    fn uses_number(&self, answer: &[u8]) -> bool {
        self.access.uses_number(answer)
    }

    fn is_refusal(&self, answer: &[u8]) -> bool {
        self.access.is_refusal(answer)
    }

    fn is_inconclusive(&self, answer: &[u8]) -> bool {
        self.access.is_inconclusive(answer)
    }

    fn permits(&self, alloc: Global, view: &[u8], line: &[u8]) -> Result<bool, AllocError> {
        self.access.permits(alloc, view, line)
    }
}

impl Gateway for FileGateway {
    fn own_role(&self) -> u32 {
        PROXY_ROLE
    }

    fn read(&self, alloc: Global, line: Option<&[u8]>) -> Reading {
        match read_line(alloc, line) {
            Ok(request) => reading_of(request),
            Err(fault) => Reading::Fault(fault.line()),
        }
    }

    fn may_watch(&self, role: u32) -> bool {
        self.access.may(role, &Request::Watch)
    }

    fn may_send(&self, alloc: Global, role: u32, line: &[u8]) -> Result<bool, AllocError> {
        Ok(self.access.judge(alloc, role, line)?.is_allowed)
    }

    fn judge_reset(
        &self,
        alloc: Global,
        view: &[u8],
        node: NodeId,
        epoch: u64,
    ) -> Result<Verdict, AllocError>
        ensures { IfOk result (λ verdict. Gives verdict (judged_from view.now node epoch)) }
    {
        judge_reset(alloc, view, node, epoch)
    }

    fn probe(&self, alloc: Global, number: u64) -> Result<Vec<u8>, AllocError> {
        match NodeId::new(1) {
            Some(node) => spell(alloc, number, Command::Confirm(node, 0)),
            None => Ok(Vec::new(alloc)),
        }
    }

    fn certificate_role(&mut self, alloc: Global, name: &[u8]) -> Result<Option<u32>, AllocError> {
        let Ok(name) = str::from_utf8(name) else {
            return Ok(None);
        };
        let mut principal = String::new(alloc);
        principal.push_str("certificate:")?;
        principal.push_str(name)?;
        self.access.role_of(alloc, principal.as_str())
    }

    fn record(&mut self, alloc: Global, exchange: &Exchange<'_, '_>) -> Result<(), AllocError>
        ensures audit { RecordsFor (name_of (access_principals self.old.access) exchange.now.role) exchange.now self.old.audit self.new.audit }
        ensures policy { (self.new.access ≡ self.old.access) × (self.new.path ≡ self.old.path) × (self.new.seen ≡ self.old.seen) × (self.new.refresh_at ≡ self.old.refresh_at) }
    {
        self.record_line(exchange);
        self.count(alloc, exchange);
        Ok(())
    }

    fn record_begin(&mut self, _alloc: Global, role: u32, at: Moment) -> Result<(), AllocError>
        ensures audit { RecordsBegin (may_order_if (access_rules self.old.access) (principal_of (access_principals self.old.access) role)) (name_of (access_principals self.old.access) role) role at self.old.audit self.new.audit }
        ensures policy { (self.new.access ≡ self.old.access) × (self.new.path ≡ self.old.path) × (self.new.seen ≡ self.old.seen) × (self.new.refresh_at ≡ self.old.refresh_at) }
    {
        self.now = at.now;
        if self.access.may_order(role) {
            let who = self.access.principal(role).unwrap_or(NOBODY);
            record_connection(&mut self.audit, role, at, &Event::Begins { who });
        }
        Ok(())
    }

    fn record_end(
        &mut self,
        _alloc: Global,
        role: u32,
        lasted: Duration,
        at: Moment,
    ) -> Result<(), AllocError>
        ensures audit { RecordsEnd (may_order_if (access_rules self.old.access) (principal_of (access_principals self.old.access) role)) (name_of (access_principals self.old.access) role) role lasted at self.old.audit self.new.audit }
        ensures policy { (self.new.access ≡ self.old.access) × (self.new.path ≡ self.old.path) × (self.new.seen ≡ self.old.seen) × (self.new.refresh_at ≡ self.old.refresh_at) }
    {
        self.now = at.now;
        if self.access.may_order(role) {
            let who = self.access.principal(role).unwrap_or(NOBODY);
            record_connection(&mut self.audit, role, at, &Event::Ends { who, lasted });
        }
        Ok(())
    }

    fn write_records<R: Files<File = File> + AllocGlobal + Print + Eprint>(&mut self, rt: &R)
        ensures rest { (part : List ℕ) × (self.old.audit.pending.unwritten ≡ part ++ self.new.audit.pending.unwritten) }
        ensures counts { (self.new.audit.pending.lost ≡ self.old.audit.pending.lost) × (self.new.audit.quotas ≡ self.old.audit.quotas) }
        ensures policy { (self.new.access ≡ self.old.access) × (self.new.path ≡ self.old.path) × (self.new.seen ≡ self.old.seen) × (self.new.refresh_at ≡ self.old.refresh_at) }
    {
        self.audit.write(rt, self.now);
    }

    fn refresh<R: Files<File = File> + AllocGlobal + Clock + Print + Eprint>(
        &mut self,
        rt: &R,
        now: Duration,
        counts: &Counts,
    ) -> bool {
        self.now = now;
        self.count_left_out(rt);
        self.audit.follow(rt, now);
        self.audit.write(rt, now);
        if let Some(metrics) = &mut self.metrics {
            metrics.write(rt, now, counts, self.audit.lost());
        }
        let next = now.saturating_add(Duration::from_millis(LOOK_PAUSE));
        self.refresh_at = match self.audit.more_at() {
            Some(at) => next.min(at),
            None => next,
        };
        self.read_again(rt)
    }

    fn refresh_at(&self) -> Duration {
        self.refresh_at
    }
}

impl FileGateway {
    /// Adds an audit line for each principal whose number of left-out lines is due.
    fn count_left_out<R: Clock>(&mut self, rt: &R) {
        let Ok(time) = SystemTime::now(rt) else {
            return;
        };
        for _ in 0..MOST_PRINCIPALS {
            let Some((role, count)) = self.audit.take_more(self.now) else {
                return;
            };
            let who = self.access.principal(role).unwrap_or(NOBODY);
            self.audit.add(time, &Event::More { who, count });
        }
    }

    /// Reads the policy again if its file has changed. Returns whether there is a new policy.
    fn read_again<R: Files + AllocGlobal + Eprint>(&mut self, rt: &R) -> bool {
        let seen = look(rt, self.path.as_str());
        if seen == self.seen {
            return false;
        }
        self.seen = seen;
        let path = self.path.as_str();
        let Ok(text) = fs::read_to_string(rt, path) else {
            let _ = eprintln!(rt; "resetd-proxy: {path} can't be read: the policy stays as it was");
            return false;
        };
        match read_policy(rt.alloc(), text.as_str()) {
            Ok(policy) => {
                self.access.replace(policy);
                true
            }
            Err(fault) => {
                let _ = eprintln!(rt; "resetd-proxy: {path}: {fault}: the policy stays as it was");
                false
            }
        }
    }
}

/// Returns the op of the client's line in an exchange: `show` for each query, `none` for a line without an op.
fn op_of(alloc: Global, exchange: &Exchange<'_, '_>) -> &'static str {
    match exchange.kind {
        ExchangeKind::Query => "show",
        ExchangeKind::Fault => "none",
        ExchangeKind::Order | ExchangeKind::Denied => match read_line(alloc, exchange.line) {
            Ok(request) => request.op().name(),
            Err(_) => "none",
        },
    }
}
