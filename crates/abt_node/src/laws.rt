//! Laws of a port's table.
//!
//! These functions do nothing. Their contracts say of the definitions by which a [`Port`](crate::Port) is described
//! what the rule of a node says of ports (docs/RULES.md, "Node").
ghost use Rattle.abt_node.specs.Laws.{RequestsFollowTheRule, RequestsHaveOneReply, UnknownRequestsAreDropped};
ghost use Rattle.abt_node.specs.Laws.{DroppedRequestsChangeNothing, RepeatsRepeat, DecreasesPass, RequestsLeaveOthers};
ghost use Rattle.abt_node.specs.Laws.{AnswersFollowTheRule, AnswersHaveOneReply, UnknownAnswersAreDropped};
ghost use Rattle.abt_node.specs.Laws.{DroppedAnswersChangeNothing, AnswersSettle, AnswersLeaveOthers};

/// The replies to a request are those of the rule.
pub fn requests_follow_the_rule()
    ensures value { RequestsFollowTheRule }
    ensures only { RequestsHaveOneReply }
    ensures unknown_vc { UnknownRequestsAreDropped }
    ensures decrease { DecreasesPass }
{}

/// Laws of requests.
pub fn requests_change_their_connection()
    ensures drop { DroppedRequestsChangeNothing }
    ensures again { RepeatsRepeat }
    ensures same { RequestsLeaveOthers }
{}

/// The replies to an answer are those of the rule.
pub fn answers_follow_the_rule()
    ensures value { AnswersFollowTheRule }
    ensures only { AnswersHaveOneReply }
    ensures unknown_vc { UnknownAnswersAreDropped }
{}

/// Laws of answers.
pub fn answers_change_their_connection()
    ensures drop { DroppedAnswersChangeNothing }
    ensures value { AnswersSettle }
    ensures same { AnswersLeaveOthers }
{}
