// The end of a scope, and the actions that complete it.
ghost use Rattle.std.specs.Prelude.{◌≡◌, ◌≤◌, ◌<◌, [], ◌∷◌, ◌+◌, ◌*◌, Bool, true, false, length, Some, None, IsSome, IsTrue};
ghost use Rattle.stx_scenario.specs.declared.scenario.Scenario.{Scenario as ScenarioData};
ghost use Rattle.stx_base.specs.declared.manager.Action.{Action as ActionData};
ghost use Rattle.stx_base.specs.Attributes.{attribute as attribute_in};
ghost use Rattle.stx_base.specs.Limits.{most_calls};
ghost use Rattle.stx_base.specs.Rules.{winner as winner_of, rolls_back};
ghost use Rattle.stx_model.specs.Contexts.{with_global_mark};
ghost use Rattle.stx_model.specs.Ending.{ending as ending_of, has_before_commit as is_before_commit};
ghost use Rattle.stx_model.specs.Playable.{IsPlayable};
ghost use Rattle.stx_model.specs.Scopes.{is_set, rolls};
ghost use Rattle.stx_context.specs.Carrying.{bare, context_of};
ghost use Rattle.stx_machine.specs.declared.stage.Stage.{Stage as StageData};
ghost use Rattle.stx_machine.specs.Machine.{AreTold, Comes, HasTransaction, IsClass, IsIntercepting, IsLonger, IsPushed, Moves, MovesLines, ResumesOn, Rules, acts_of, attribute_of as attribute_at, completes_of, ends_of, left, left_of, live_of, of_top, on_top, put_back, stack, rounds_of, left_after, round_in};
ghost use Rattle.stx_machine.specs.Sound.{CallResumes, Ended, IsApart, IsCompleting, IsEnding, IsEndingSo, IsSound, below_rest, below_scope, bond_of, has_ended, has_point, held, no_tokens, one_less, rank_at, runs, standing_of, IsAtRound, below_round};

use crate::calls::attribute_of;
use crate::interception::{Course, Interception, Phase};
use crate::machine::Machine;
use crate::setup::Setup;
use crate::stage::{Bound, Stage};
use stx_base::{Action, Ending, Kind, Line, Round};
use stx_frames::Frame;
use stx_manager::{completion, ending};
use stx_rules::{Decision, decide};
use stx_scenario::{
    CANNOT_CREATE_TRANSACTION_EXCEPTION, ClassNo, List, MethodNo, UNEXPECTED_ROLLBACK_EXCEPTION,
};
use stx_sync::Registered;

/// An intercepted call that was taken off the others.
#[derive(Drop)]
pub struct Intercepted {
    pub method: MethodNo,
    pub place: u32,
    pub catch: Option<ClassNo>,
    pub interception: Interception,
}

// What the rules of a method decide where it throws this (`TransactionAspectSupport.completeTransactionAfterThrowing`).
fn decision(setup: &Setup, method: MethodNo, thrown: ClassNo) -> Decision
    requires playable { IsPlayable setup.now.scenario }
    requires attribute { IsSome (attribute_in setup.now.scenario method) }
    requires thrown { thrown.0 < length setup.now.scenario.classes }
    ensures winner { result.winner ≡ winner_of setup.now.scenario.classes (attribute_at setup.now.scenario method).rules thrown.0 }
    ensures rollback { result.rollback ≡ rolls_back setup.now.scenario.classes (attribute_at setup.now.scenario method).rules thrown.0 }
{
    let rules = &attribute_of(setup, method).rules;
    decide(&setup.classes, &setup.scenario, rules, thrown)
}

// The round that an action is, and what its callbacks are told of the transaction, if it is one.
fn round_of(action: Action) -> Option<(Round, bool)>
    ensures { result ≡ round_in action }
{
    match action {
        Action::RoundBeforeCompletion => Some((Round::BeforeCompletion, false)),
        Action::RoundAfterCommit => Some((Round::AfterCommit, true)),
        Action::RoundAfterCompletion { committed } => Some((Round::AfterCompletion, committed)),
        _ => None,
    }
}

// Whether a scope that ends so has a before_commit round first (`triggerBeforeCommit`).
fn has_before_commit(kind: Kind, ending: Ending) -> bool
    ensures { result ≡ is_before_commit kind ending }
{
    matches!((kind, ending), (Kind::Fresh | Kind::Empty, Ending::Commit))
}

fn taken_apart(frame: Frame<Interception>) -> Intercepted
    requires { IsIntercepting (frame ∷ []) }
    ensures { frame ≡ on_top result }
{
    match frame {
        Frame::Body {
            method,
            place,
            catch,
            scope: Some(interception),
        } => Intercepted {
            method,
            place,
            catch,
            interception,
        },
        _ => unreachable!(),
    }
}

impl Machine {
    /// Takes the innermost call off, which is an intercepted one.
    pub fn take_off(&mut self) -> Intercepted
        requires top { IsIntercepting (stack self.old.frames) }
        ensures call { stack self.old.frames ≡ on_top result ∷ stack self.new.frames }
        ensures room { self.new.frames.spare ≡ self.old.frames.spare + 1 }
        ensures rest { self.new ≡ record self.old { frames = self.new.frames } }
    {
        match self.frames.pop() {
            Some(frame) => taken_apart(frame),
            None => unreachable!(),
        }
    }

    /// Puts an intercepted call back on top of the others, in this phase.
    pub fn put_back(&mut self, call: Intercepted, phase: Phase)
        requires frames { 1 ≤ self.old.frames.spare }
        ensures { IsPushed self.old (put_back call phase) self.new }
    {
        let Intercepted {
            method,
            place,
            catch,
            mut interception,
        } = call;
        interception.phase = phase;
        self.frames.push(Frame::Body {
            method,
            place,
            catch,
            scope: Some(interception),
        });
    }

    // Says what the rules decide where the body threw this: whether they roll back.
    fn rule(&mut self, setup: &Setup, method: MethodNo, thrown: Option<ClassNo>) -> bool
        requires playable { IsPlayable setup.now.scenario }
        requires attribute { IsSome (attribute_in setup.now.scenario method) }
        requires class { IsClass setup.now.scenario thrown }
        requires lines { 1 ≤ self.old.lines.spare }
        ensures rolls { result ≡ rolls setup.now.scenario (attribute_at setup.now.scenario method).rules thrown }
        ensures rules { Rules setup.now.scenario (attribute_at setup.now.scenario method).rules thrown self.old self.new }
    {
        match thrown {
            Some(class) => {
                let decision = decision(setup, method, class);
                self.lines.push(Line::Rules {
                    rollback: decision.rollback,
                    winner: decision.winner,
                });
                decision.rollback
            }
            None => false,
        }
    }

    // How a scope ends, with the local mark that it got while its body ran.
    fn ending(&self, interception: &mut Interception, rolls_back: bool) -> Ending
        requires unmarked { interception.old.scope.local_mark ≡ false }
        ensures ending { result ≡ ending_of interception.old.scope.kind rolls_back (is_set self.now.local) (context_of self.now.context) }
        ensures rest { interception.new ≡ record interception.old { scope = record interception.old.scope { local_mark = interception.new.scope.local_mark } } }
    {
        if let Some(true) = self.local {
            interception.scope.set_local_mark();
        }
        ending(&interception.scope, &self.context, rolls_back)
    }

    /// Ends the scope of a call whose body threw this or nothing; its completion is due.
    pub fn end(&mut self, setup: &Setup, call: Intercepted, thrown: Option<ClassNo>)
        requires playable { IsPlayable setup.now.scenario }
        requires ending { IsEnding setup.now.scenario (rank_at setup.now.scenario self.old) call (standing_of self.old.context) }
        requires class { IsClass setup.now.scenario thrown }
        requires apart { IsApart setup.now.scenario self.old (below_scope call.interception.scope (standing_of self.old.context)) }
        requires lines { 2 ≤ self.old.lines.spare }
        requires frames { 1 ≤ self.old.frames.spare }
        ensures goes { Comes setup.now.scenario self.old (ends_of setup.now.scenario call thrown) self.new }
        ensures sound { IsSound setup.now.scenario self.new no_tokens }
        ensures held { held self.new.stage ≡ no_tokens }
        ensures longer { IsLonger self.old self.new }
    {
        let mut call = call;
        let rolls_back = self.rule(setup, call.method, thrown);
        let ending = self.ending(&mut call.interception, rolls_back);
        self.lines.push(Line::End(ending));
        self.go_on_to(call, ending, thrown);
    }

    // Goes on to the completion of a scope that ends so; before it a scope that is to commit has its before_commit round.
    fn go_on_to(&mut self, call: Intercepted, ending: Ending, thrown: Option<ClassNo>)
        requires frames { 1 ≤ self.old.frames.spare }
        ensures goes { (S : ScenarioData) → Comes S self.old (completes_of S call ending thrown) self.new }
        ensures sound { (S : ScenarioData) → IsEndingSo S (rank_at S self.old) call (standing_of self.old.context) ending thrown → IsApart S self.old (below_scope call.interception.scope (standing_of self.old.context)) → IsSound S self.new no_tokens }
        ensures held { held self.new.stage ≡ no_tokens }
        ensures lines { self.new.lines ≡ self.old.lines }
    {
        let kind = call.interception.scope.kind();
        let rest = completion(kind, ending);
        if has_before_commit(kind, ending) {
            self.begin_round(
                call,
                Course {
                    round: Round::BeforeCommit,
                    committed: true,
                    rest,
                    thrown,
                },
            );
        } else {
            self.go_on_with(call, rest, thrown);
        }
    }

    // Begins a round where the scope owns synchronisation; else its completion goes on.
    fn begin_round(&mut self, call: Intercepted, course: Course)
        requires frames { 1 ≤ self.old.frames.spare }
        ensures goes { (S : ScenarioData) → Comes S self.old (rounds_of S call course) self.new }
        ensures sound { (S : ScenarioData) → IsAtRound S (rank_at S self.old) call (standing_of self.old.context) course → IsApart S self.old (below_round call.interception.scope course (standing_of self.old.context)) → IsSound S self.new no_tokens }
        ensures held { held self.new.stage ≡ no_tokens }
        ensures lines { self.new.lines ≡ self.old.lines }
        ensures left { left self.new ≤ left_after course + 2 }
    {
        if call.interception.scope.owns() {
            self.put_back(call, Phase::Round(course));
            self.stage = Stage::Rounding;
        } else {
            self.go_on_with(call, course.rest, course.thrown);
        }
    }

    /// Does the next of the actions that are left of a call's completion, or leaves the call after the last.
    pub fn complete(
        &mut self,
        setup: &Setup,
        call: Intercepted,
        rest: &'static [Action],
        thrown: Option<ClassNo>,
    )
        requires completing { IsCompleting setup.now.scenario (rank_at setup.now.scenario self.old) call (standing_of self.old.context) rest.now thrown }
        requires apart { IsApart setup.now.scenario self.old (below_rest call.interception.scope rest.now (standing_of self.old.context)) }
        requires playable { IsPlayable setup.now.scenario }
        requires lines { 2 ≤ self.old.lines.spare }
        requires frames { 1 ≤ self.old.frames.spare }
        ensures goes { Comes setup.now.scenario self.old (acts_of setup.now.scenario call rest.now thrown) self.new }
        ensures sound { IsSound setup.now.scenario self.new (held self.new.stage) }
        ensures moves { Moves (4 * length rest.now) self.old self.new }
    {
        match rest.split_first() {
            None => self.end_call(setup, call, thrown),
            Some((action, rest)) => self.act(setup, call, *action, rest, thrown),
        }
    }

    // Leaves an intercepted call that is complete.
    fn end_call(&mut self, setup: &Setup, call: Intercepted, thrown: Option<ClassNo>)
        requires completing { IsCompleting setup.now.scenario (rank_at setup.now.scenario self.old) call (standing_of self.old.context) [] thrown }
        requires apart { IsApart setup.now.scenario self.old (below_rest call.interception.scope [] (standing_of self.old.context)) }
        requires lines { 2 ≤ self.old.lines.spare }
        ensures goes { Comes setup.now.scenario self.old (acts_of setup.now.scenario call [] thrown) self.new }
        ensures sound { IsSound setup.now.scenario self.new (held self.new.stage) }
        ensures longer { IsLonger self.old self.new }
    {
        self.local = call.interception.outer;
        self.leave(setup, call.method, call.catch, thrown);
    }

    // One action; the rest is due after it.
    #[tactic(auto, using(crate::proofs::Completing::gives_back), unfolding(stx_model::specs::Scopes::acts))]
    fn act(
        &mut self,
        setup: &Setup,
        call: Intercepted,
        action: Action,
        rest: &'static [Action],
        thrown: Option<ClassNo>,
    )
        requires completing { IsCompleting setup.now.scenario (rank_at setup.now.scenario self.old) call (standing_of self.old.context) (action ∷ rest.now) thrown }
        requires apart { IsApart setup.now.scenario self.old (below_rest call.interception.scope (action ∷ rest.now) (standing_of self.old.context)) }
        requires playable { IsPlayable setup.now.scenario }
        requires lines { 1 ≤ self.old.lines.spare }
        requires frames { 1 ≤ self.old.frames.spare }
        ensures goes { Comes setup.now.scenario self.old (acts_of setup.now.scenario call (action ∷ rest.now) thrown) self.new }
        ensures sound { IsSound setup.now.scenario self.new (held self.new.stage) }
        ensures moves { Moves (4 * (length rest.now + 1)) self.old self.new }
    {
        if let Some((round, committed)) = round_of(action) {
            return self.begin_round(
                call,
                Course {
                    round,
                    committed,
                    rest,
                    thrown,
                },
            );
        }
        match action {
            Action::RoundBeforeCompletion
            | Action::RoundAfterCommit
            | Action::RoundAfterCompletion { .. } => unreachable!(),
            Action::CommitStore => {
                let tx = self.end_session();
                self.put_back(call, Phase::Completing { rest, thrown });
                self.stage = Stage::Committing(tx);
            }
            Action::RollbackStore => {
                let tx = self.end_session();
                self.put_back(call, Phase::Completing { rest, thrown });
                self.stage = Stage::RollingBack(tx);
            }
            Action::MarkGlobally => self.mark_globally(call, rest, thrown),
            Action::ThrowUnexpected => {
                self.lines.push(Line::Throw(UNEXPECTED_ROLLBACK_EXCEPTION));
                self.go_on_with(call, rest, Some(UNEXPECTED_ROLLBACK_EXCEPTION));
            }
            Action::GiveBack => {
                let bound = self.part();
                self.put_back(call, Phase::Completing { rest, thrown });
                self.stage = Stage::GivingBack(bound);
            }
            Action::Resumption => self.take_up(call, rest, thrown),
            Action::BackToPoint => {
                let tx = self.transaction();
                self.put_back(call, Phase::Completing { rest, thrown });
                self.stage = Stage::GoingBack(tx);
            }
            Action::ReleasePoint => {
                let tx = self.leave_point();
                self.put_back(call, Phase::Completing { rest, thrown });
                self.stage = Stage::Releasing(tx);
            }
        }
    }
}

// The actions themselves.
impl Machine {
    /// Goes on with these actions.
    pub fn go_on_with(
        &mut self,
        call: Intercepted,
        rest: &'static [Action],
        thrown: Option<ClassNo>,
    )
        requires frames { 1 ≤ self.old.frames.spare }
        ensures goes { (S : ScenarioData) → Comes S self.old (acts_of S call rest.now thrown) self.new }
        ensures sound { (S : ScenarioData) → IsCompleting S (rank_at S self.old) call (standing_of self.old.context) rest.now thrown → IsApart S self.old (below_rest call.interception.scope rest.now (standing_of self.old.context)) → IsSound S self.new no_tokens }
        ensures held { held self.new.stage ≡ no_tokens }
        ensures lines { self.new.lines ≡ self.old.lines }
        ensures left { left self.new ≡ 4 * length rest.now }
    {
        self.put_back(call, Phase::Completing { rest, thrown });
        self.stage = Stage::Completing;
    }

    // Marks the transaction rollback-only.
    fn mark_globally(&mut self, call: Intercepted, rest: &'static [Action], thrown: Option<ClassNo>)
        requires lines { 1 ≤ self.old.lines.spare }
        requires frames { 1 ≤ self.old.frames.spare }
        ensures goes { (S : ScenarioData) → Comes S self.old (acts_of S call (ActionData.MarkGlobally ∷ rest.now) thrown) self.new }
        ensures sound { (S : ScenarioData) → IsCompleting S (rank_at S self.old) call (standing_of self.old.context) rest.now thrown → IsApart S self.old (below_rest call.interception.scope rest.now (standing_of self.old.context)) → IsSound S self.new no_tokens }
        ensures held { held self.new.stage ≡ no_tokens }
        ensures longer { IsLonger self.old self.new }
    {
        self.mark_holder();
        self.lines.push(Line::MarkGlobal);
        self.go_on_with(call, rest, thrown);
    }

    fn mark_holder(&mut self)
        ensures context { context_of self.new.context ≡ with_global_mark true (context_of self.old.context) }
        ensures standing { standing_of self.new.context ≡ standing_of self.old.context }
        ensures rest { self.new ≡ record self.old { context = self.new.context } }
    {
        if let Some(holder) = self.context.holder() {
            holder.mark();
        }
    }

    // Takes the session out of the bound holder, for the store; the connection stays bound.
    fn end_session(&mut self) -> u32
        requires runs { IsTrue (runs (bond_of self.old.context.tx)) }
        requires free { self.old.tokens.session ≡ None }
        ensures number { HasTransaction (context_of self.old.context).tx result }
        ensures context { context_of self.new.context ≡ context_of self.old.context }
        ensures bond { bond_of self.new.context.tx ≡ Ended 0 }
        ensures session { self.new.tokens ≡ record self.old.tokens { session = Some result } }
        ensures rest { self.new ≡ record self.old { context = self.new.context; tokens = self.new.tokens } }
    {
        match self.context.holder() {
            Some(holder) => {
                let tx = holder.numbers().1;
                let session = holder.end_session();
                self.tokens.keep_session(session);
                tx
            }
            None => unreachable!(),
        }
    }

    // Takes the connection out of the context, for the pool.
    fn part(&mut self) -> Bound
        requires ended { IsTrue (has_ended (bond_of self.old.context.tx)) }
        requires free { self.old.tokens.connection ≡ None }
        ensures bound { (context_of self.old.context).tx ≡ Some (live_of result) }
        ensures context { self.new.context ≡ record self.old.context { tx = None } }
        ensures connection { self.new.tokens ≡ record self.old.tokens { connection = Some result.connection } }
        ensures rest { self.new ≡ record self.old { context = self.new.context; tokens = self.new.tokens } }
    {
        let holder = self.context.unbind();
        let (connection, transaction) = holder.numbers();
        let bound = Bound {
            connection,
            transaction,
            read_only: holder.is_read_only(),
            mark: holder.is_marked(),
        };
        self.tokens.keep_connection(holder.part());
        bound
    }

    /// The transaction that is bound.
    pub fn transaction(&self) -> u32
        requires bound { IsSome self.now.context.tx }
        ensures { HasTransaction (context_of self.now.context).tx result }
    {
        match self.context.bound() {
            Some(holder) => holder.numbers().1,
            None => unreachable!(),
        }
    }

    // One open savepoint less, in the transaction that is bound.
    fn leave_point(&mut self) -> u32
        requires point { IsTrue (has_point (bond_of self.old.context.tx)) }
        ensures number { HasTransaction (context_of self.old.context).tx result }
        ensures context { context_of self.new.context ≡ context_of self.old.context }
        ensures bond { bond_of self.new.context.tx ≡ one_less (bond_of self.old.context.tx) }
        ensures rest { self.new ≡ record self.old { context = self.new.context } }
    {
        match self.context.holder() {
            Some(holder) => {
                holder.leave_point();
                holder.numbers().1
            }
            None => unreachable!(),
        }
    }

    /// The innermost savepoint was returned to: the transaction's mark goes.
    pub fn clear_mark(&mut self)
        ensures context { context_of self.new.context ≡ with_global_mark false (context_of self.old.context) }
        ensures standing { standing_of self.new.context ≡ standing_of self.old.context }
        ensures rest { self.new ≡ record self.old { context = self.new.context } }
    {
        if let Some(holder) = self.context.holder() {
            holder.clear_mark();
        }
    }

    // Resumes what the scope suspended, if it did.
    fn take_up(&mut self, call: Intercepted, rest: &'static [Action], thrown: Option<ClassNo>)
        requires lines { 1 ≤ self.old.lines.spare }
        requires frames { 1 ≤ self.old.frames.spare }
        requires bare { IsSome call.interception.scope.suspended → self.old.context ≡ bare }
        requires last { rest.now ≡ [] }
        ensures goes { (S : ScenarioData) → Comes S self.old (acts_of S call (ActionData.Resumption ∷ rest.now) thrown) self.new }
        ensures sound { (S : ScenarioData) → IsCompleting S (rank_at S self.old) call (standing_of self.old.context) (ActionData.Resumption ∷ rest.now) thrown → IsApart S self.old (below_rest call.interception.scope (ActionData.Resumption ∷ rest.now) (standing_of self.old.context)) → IsSound S self.new no_tokens }
        ensures held { held self.new.stage ≡ no_tokens }
        ensures moves { Moves (4 * (length rest.now + 1)) self.old self.new }
    {
        let mut call = call;
        match call.interception.scope.take_held() {
            Some(suspended) => {
                self.resume(suspended);
                self.put_back(call, Phase::Completing { rest, thrown });
                self.stage = Stage::Resuming;
            }
            None => self.go_on_with(call, rest, thrown),
        }
    }

    /// Tells the registrations that were resumed for the innermost call; then its completion goes on, or it is refused.
    pub fn tell_resumed(&mut self, told: List<Registered>)
        requires call { ResumesOn (stack self.old.frames) }
        requires told { AreTold told (context_of self.old.context) }
        requires lines { length told + 2 ≤ self.old.lines.spare }
        ensures goes { (S : ScenarioData) → Comes S self.old (of_top S (stack self.old.frames) StageData.Resuming) self.new }
        ensures sound { (S : ScenarioData) → IsPlayable S → CallResumes S (standing_of self.old.context) (stack self.old.frames) → self.old.top < most_calls → self.old.tokens ≡ no_tokens → IsSound S self.new (held self.new.stage) }
        ensures moves { Moves (left_of StageData.Resuming (stack self.old.frames)) self.old self.new }
    {
        self.say_each(told.as_slice(), true);
        let call = self.take_off();
        match call.interception.phase {
            Phase::Completing { rest, thrown } => self.go_on_with(call, rest, thrown),
            Phase::Opening => {
                self.refuse(call.method, call.catch, CANNOT_CREATE_TRANSACTION_EXCEPTION);
            }
            Phase::Running | Phase::Round(_) => unreachable!(),
        }
    }
}
