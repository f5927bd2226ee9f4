//! What holds of plans and of their joint runs, with hosts of any state. The other laws are in
//! proofs/Facts.
ghost use Rattle.sfi_host.specs.Plans.{JoinedFollows, JointFollows, PlansFollow, CutFollows, CutIsShorter, RetryFollows};
ghost use Rattle.sfi_host.specs.Waiting.{ToCallIsJoint, ReplyIsAnswer, WritesAreReplies};
ghost use Rattle.sfi_host.specs.WorldSteps.{JoinedWorldSteps, JointWorldSteps};
ghost use Rattle.sfi_host.specs.Plans.{JoinedIsSolo, JointIsSolo};
ghost use Rattle.sfi_host.specs.Waiting.{TurnStepsAreBounded, WaitsThroughTurns, PlansStopNone};

/// What a sandbox comes to among others is what it comes to alone with the replies that it got.
/// `S` is a host's state.
#[tactic(auto, using(crate::proofs::Solo::joined_alone, crate::proofs::Solo::joint_alone))]
pub fn joint_is_solo<S>()
    // With any host.
    ensures any_host { JoinedIsSolo S }

    // With a host that answers each call, or only a limited number of calls.
    ensures limited { JointIsSolo S }
{}

/// The joint run of one plan after another is that of the second from where the first left off.
/// `S` is a host's state.
#[tactic(auto, using(crate::proofs::Plans::follows, crate::proofs::Continuing::joint_follows))]
pub fn joined_follows<S>()
    // With any host, a call that ends the first ends both.
    ensures any_host { JoinedFollows S }

    // A host that answers each call ends none.
    ensures each_answered { JointFollows S }
{}

/// A plan may be run in pieces, one after another: what the clauses `done` and `memory` of
/// `World::run_plan` say of each piece makes up what they say of the whole. So it can be called for
/// each round. `S` is a host's state.
pub fn plans_follow<S>()
    ensures done { PlansFollow S }
    ensures memory { CutFollows S }

    // What a plan did that ended at a call is what it does with that turn shortened to fewer steps
    // than it allows; so a plan that is tried after it follows that one.
    ensures cut { CutIsShorter S }
    ensures retried { RetryFollows S }
{}

/// What the joint run does from a safe world is a list of world steps in the one memory: step by
/// step and reply by reply, with the same slots. To each sandbox these world steps are a run, and
/// where it was ready a safe one. `S` is a host's state.
#[tactic(auto, using(crate::proofs::Joined::joined_are, crate::proofs::Joined::joint_are))]
pub fn joined_world_steps<S>()
    // With any host.
    ensures any_host { JoinedWorldSteps S }

    // With a host that answers each call, or only a limited number of calls.
    ensures limited { JointWorldSteps S }
{}

/// A program that runs a sandbox up to its call (`World::run_to_call`), maybe writes to its data,
/// and replies (`World::reply`), comes to what a host comes to that answers so at once. `S` is that
/// host's state.
pub fn later_is_at_once<S>()
    ensures turns { ToCallIsJoint S }
    ensures replies { ReplyIsAnswer S }
    ensures writes { WritesAreReplies }
{}

/// How many steps a turn counts at most, and which sandboxes turns and plans leave as they are. `S`
/// is a host's state.
pub fn turns_are_bounded<S>()
    // A turn counts no more steps than it allows, and none of a sandbox that has stopped.
    ensures bounded { TurnStepsAreBounded S }

    // A turn up to the next call counts no step of a sandbox that waits.
    ensures waits { WaitsThroughTurns }

    // No plan stops a sandbox as `World::stop` does.
    ensures stops_none { PlansStopNone S }
{}
