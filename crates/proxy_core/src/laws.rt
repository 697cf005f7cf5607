//! Laws of the proxy's core: functions that do nothing, whose contracts are the laws.

ghost use Rattle.proxy_core.specs.Fair.{FairShares, OldestFlies};
ghost use Rattle.proxy_core.specs.Promises.{EveryRun};
ghost use Rattle.proxy_core.specs.Server.{SessionRule};
ghost use Rattle.proxy_core.specs.Session.{AtMostOnce, OwnReplies};
ghost use Rattle.proxy_core.specs.TakenBack.{TakenBackInTime, TakenBackNumber};
ghost use Rattle.proxy_core.specs.WorkedRun.{WorkedRun, WorkedSession, WorkedTurn, WorkedView};

/// Five promises hold whatever lines arrive, whichever connections leave, whenever the server's connection
/// breaks and whatever the server answers. Each answer of the server that a connection receives is the
/// server's answer to that very request, and the answers come in order. No line reaches the server that its
/// sender may not send. A line that must not be sent twice is sent at most once. A line that needs a view is
/// sent only right after a view that permits it. No connection takes all the room.
pub fn every_run()
    ensures { EveryRun }
{}

/// If the server follows its session rule, an unnumbered order is carried out at most once, even if connections
/// break, and whatever last numbers of the proxy's client the loop finds.
pub fn at_most_once()
    ensures { AtMostOnce }
{}

/// If the loop finds the right last numbers, a reply to an unnumbered order means that this very order was carried
/// out, not another one with its number.
pub fn own_replies()
    ensures { OwnReplies }
{}

/// Every line that was sent for an order that is taken back has the number that `Proxy::take_back` returns, or the
/// server refused the line's number.
pub fn taken_back_number()
    ensures { TakenBackNumber }
{}

/// If the loop finds the right last numbers, and after an order was sent finds one below the order's number, the order
/// is never carried out with that number. Then the connection of an order that was taken back may send it again.
pub fn taken_back_in_time()
    ensures { TakenBackInTime }
{}

/// The oldest waiting line that may fly is the first line of the next flight.
pub fn oldest_flies()
    ensures { OldestFlies }
{}

/// If a connection's first waiting line may fly and is of the flight's kind, but the flight has no line of that
/// connection, then the flight has at most one line of each connection.
pub fn fair_shares()
    ensures { FairShares }
{}

/// A run whose outcome is known, with a refused order, a number that two orders get, and a break.
pub fn worked_run()
    ensures { WorkedRun }
{}

/// The run of `worked_run` satisfies the premises of `at_most_once` and `own_replies` for a server that carried out
/// the second order when it was sent the second time.
pub fn worked_session()
    ensures { WorkedSession }
{}

/// Runs in which several orders of one connection fly together. The orders after a refused order fly again, in the
/// same order.
pub fn worked_turn()
    ensures { WorkedTurn }
{}

/// Runs in which a line that needs a view is sent after a view that permits it. The line is not sent after another
/// view, nor if another line or a break comes after the view, and it is not sent a second time.
pub fn worked_view()
    ensures { WorkedView }
{}

/// If a server judges the orders of the proxy's client by its session rule, one connection after the other, the
/// run satisfies `Session`, the premise of `at_most_once` and `own_replies`.
pub fn session_rule()
    ensures { SessionRule }
{}
