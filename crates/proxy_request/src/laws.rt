//! Laws of requests and answers. Each is the contract of an empty function.

ghost use Rattle.proxy_request.specs.Answers.{AnswersAreClassified};
ghost use Rattle.proxy_request.specs.Laws.{ServerRequestsPass};
ghost use Rattle.proxy_request.specs.WorkedLines.{WorkedLines};

/// If the server reads a line as a request, the proxy reads it as the same request.
#[tactic(auto, using(crate::proofs::Passes::server_requests_pass))]
pub fn server_requests_pass()
    ensures { ServerRequestsPass }
{}

/// The bytes of an answer distinguish replies, refused numbers and refused orders.
#[tactic(auto, using(crate::proofs::Computes::answers_are_classified))]
pub fn answers_are_classified()
    ensures { AnswersAreClassified }
{}

/// Examples of lines with their requests.
#[tactic(auto, using(crate::proofs::Computes::lines_compute))]
pub fn worked_lines()
    ensures { WorkedLines }
{}
