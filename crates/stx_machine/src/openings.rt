// The opening of a scope, suspension and resumption.
ghost use Rattle.std.specs.Prelude.{◌≡◌, ◌≤◌, ◌+◌, ◌++◌, length, map, true, false, Some, None, IsSome};
ghost use Rattle.stx_scenario.specs.declared.scenario.Scenario.{Scenario as ScenarioData};
ghost use Rattle.stx_base.specs.Attributes.{attribute as attribute_in};
ghost use Rattle.stx_base.specs.declared.line.Line.{Line as LineData};
ghost use Rattle.stx_base.specs.declared.call.Want.{Want as WantData};
ghost use Rattle.stx_model.specs.Meanings.{ask, finally, on_take, say};
ghost use Rattle.stx_model.specs.Opening.{opening as opening_in};
ghost use Rattle.stx_model.specs.Playable.{IsPlayable};
ghost use Rattle.stx_model.specs.Scopes.{leaves, older_if, suspend};
ghost use Rattle.stx_model.specs.Statements.{caught};
ghost use Rattle.std.specs.Option.{option_map};
ghost use Rattle.stx_context.specs.Carrying.{bare, context_of};
ghost use Rattle.stx_sync.specs.Registries.{registration};
ghost use Rattle.stx_machine.specs.declared.stage.Stage.{Stage as StageData};
ghost use Rattle.stx_machine.specs.Machine.{AreTold, Comes, IsClass, IsLonger, IsPushed, MovesOn, Resumes, SaysUnbind, Suspends, SuspendsIf, attribute_of as attribute_at, empty_opened, falls, fresh_begun, held_if, new_call, opened, point_opened, started, told_by, told_line as told_line_of, with_syncs_started};
ghost use Rattle.stx_machine.specs.Sound.{IsApart, IsCall, IsOpen, IsSound, IsWithin, Leaves, below_scope, held, no_tokens, rank_at, standing_of};

use crate::calls::attribute_of;
use crate::interception::{Interception, Phase};
use crate::machine::Machine;
use crate::setup::Setup;
use crate::stage::Stage;
use std::alloc::Global;
use stx_base::{Kind, Label, Line, Opening};
use stx_context::Suspended;
use stx_frames::Frame;
use stx_manager::{Scope, opening};
use stx_scenario::{ClassNo, MethodNo};
use stx_sync::{Registered, Registry};

impl Machine {
    /// Opens the scope of an intercepted call, or refuses it.
    #[tactic(auto, using(crate::proofs::OpeningLaws::opened_so), unfolding(stx_model::specs::Scopes::opens))]
    pub fn open(
        &mut self,
        alloc: Global,
        setup: &Setup,
        method: MethodNo,
        catch: Option<ClassNo>,
        told: &[Registered],
    )
        requires playable { IsPlayable setup.now.scenario }
        requires told { map registration told.now ≡ told_by setup.now.scenario (StageData.Opening method catch) (context_of self.old.context) }
        requires lines { length told.now + 2 ≤ self.old.lines.spare }
        requires frames { 1 ≤ self.old.frames.spare }
        requires call { IsCall setup.now.scenario (rank_at setup.now.scenario self.old) method catch }
        requires attribute { IsSome (attribute_in setup.now.scenario method) }
        requires within { IsWithin setup.now.scenario self.old no_tokens }
        ensures goes { Comes setup.now.scenario self.old (λ st. finally (opened setup.now.scenario method st) (caught setup.now.scenario catch)) self.new }
        ensures sound { IsSound setup.now.scenario self.new (held self.new.stage) }
        ensures moves { MovesOn self.old self.new }
    {
        match self.opening_of(setup, method) {
            Opening::Refuse(class) => self.refuse(method, catch, class),
            Opening::Join => self.start(method, catch, Scope::new(Kind::Join, false, None)),
            Opening::Fresh { owns, .. } => self.open_fresh(method, catch, owns, told),
            Opening::Empty { suspends, owns } => {
                self.open_empty(alloc, method, catch, suspends, owns, told);
            }
            Opening::Point => self.open_point(method, catch),
        }
    }

    // What the table says where this method is called with what is carried.
    fn opening_of(&self, setup: &Setup, method: MethodNo) -> Opening
        requires attribute { IsSome (attribute_in setup.now.scenario method) }
        ensures { result ≡ opening_in setup.now.scenario.settings (attribute_at setup.now.scenario method) (context_of self.now.context) }
    {
        let attribute = attribute_of(setup, method);
        opening(&setup.scenario.settings, attribute, &self.context)
    }

    /// Refuses a call with an exception of this class: no scope is opened, and its body never runs.
    pub fn refuse(&mut self, method: MethodNo, catch: Option<ClassNo>, class: ClassNo)
        requires lines { 1 ≤ self.old.lines.spare }
        requires frames { 1 ≤ self.old.frames.spare }
        ensures goes { (S : ScenarioData) → Comes S self.old (λ st. finally (leaves method (Some class) (say (LineData.Throw class) st)) (caught S catch)) self.new }
        ensures sound { (S : ScenarioData) → IsCall S (rank_at S self.old) method catch → IsClass S (Some class) → Leaves S self.old no_tokens self.new }
        ensures longer { IsLonger self.old self.new }
    {
        self.frames.push(Frame::Body {
            method,
            place: 0,
            catch,
            scope: None,
        });
        self.throw(class);
    }

    // Suspends what is carried, and goes to the take of a fresh scope's connection.
    fn open_fresh(
        &mut self,
        method: MethodNo,
        catch: Option<ClassNo>,
        owns: bool,
        told: &[Registered],
    )
        requires told { AreTold told.now (context_of self.old.context) }
        requires lines { length told.now + 1 ≤ self.old.lines.spare }
        requires frames { 1 ≤ self.old.frames.spare }
        ensures goes { (S : ScenarioData) → Comes S self.old (λ st. finally (ask WantData.Take (on_take (fresh_begun S method owns st.context)) (suspend st)) (caught S catch)) self.new }
        ensures sound { (S : ScenarioData) → IsCall S (rank_at S self.old) method catch → IsSome (attribute_in S method) → Leaves S self.old no_tokens self.new }
        ensures waits { falls self.new.stage ≡ false }
    {
        let suspended = self.suspend(told);
        let scope = Scope::new(Kind::Fresh, owns, Some(suspended));
        self.push_call(method, catch, scope, Phase::Opening);
        self.stage = Stage::Taking;
    }

    // Goes to the savepoint of a nested scope.
    fn open_point(&mut self, method: MethodNo, catch: Option<ClassNo>)
        requires bound { IsSome self.old.context.tx }
        requires frames { 1 ≤ self.old.frames.spare }
        ensures goes { (S : ScenarioData) → Comes S self.old (λ st. finally (point_opened S method st) (caught S catch)) self.new }
        ensures sound { (S : ScenarioData) → IsCall S (rank_at S self.old) method catch → IsSome (attribute_in S method) → Leaves S self.old no_tokens self.new }
        ensures waits { falls self.new.stage ≡ false }
    {
        let tx = self.transaction();
        self.push_call(
            method,
            catch,
            Scope::new(Kind::Point, false, None),
            Phase::Opening,
        );
        self.stage = Stage::Pointing(tx);
    }

    // Opens an empty scope, which may suspend what is carried.
    fn open_empty(
        &mut self,
        alloc: Global,
        method: MethodNo,
        catch: Option<ClassNo>,
        suspends: bool,
        owns: bool,
        told: &[Registered],
    )
        requires told { suspends ≡ true → AreTold told.now (context_of self.old.context) }
        requires lines { length told.now + 2 ≤ self.old.lines.spare }
        requires frames { 1 ≤ self.old.frames.spare }
        requires free { owns ≡ true → suspends ≡ false → self.old.context.syncs ≡ None }
        ensures goes { (S : ScenarioData) → Comes S self.old (λ st. finally (empty_opened S method suspends owns st) (caught S catch)) self.new }
        ensures sound { (S : ScenarioData) → IsCall S (rank_at S self.old) method catch → IsSome (attribute_in S method) → Leaves S self.old no_tokens self.new }
        ensures longer { IsLonger self.old self.new }
    {
        let suspended = self.suspend_if(suspends, told);
        self.start_syncs_if(alloc, owns);
        self.start(method, catch, Scope::new(Kind::Empty, owns, suspended));
    }

    /// Starts the body of a call whose scope was just opened.
    pub fn start(&mut self, method: MethodNo, catch: Option<ClassNo>, scope: Scope)
        requires lines { 1 ≤ self.old.lines.spare }
        requires frames { 1 ≤ self.old.frames.spare }
        ensures goes { (S : ScenarioData) → Comes S self.old (λ st. finally (started S method scope st) (caught S catch)) self.new }
        ensures sound { (S : ScenarioData) → IsCall S (rank_at S self.old) method catch → IsOpen S method scope (standing_of self.old.context) → IsApart S self.old (below_scope scope (standing_of self.old.context)) → IsSound S self.new no_tokens }
        ensures held { held self.new.stage ≡ no_tokens }
        ensures longer { IsLonger self.old self.new }
    {
        self.lines.push(Line::Opened {
            kind: scope.kind(),
            owns: scope.owns(),
        });
        self.push_call(method, catch, scope, Phase::Running);
        self.local = Some(false);
        self.stage = Stage::Over(None);
    }

    // Suspends what the client carries, where the scope is to.
    fn suspend_if(&mut self, suspends: bool, told: &[Registered]) -> Option<Suspended>
        requires told { suspends ≡ true → AreTold told.now (context_of self.old.context) }
        requires lines { length told.now + 1 ≤ self.old.lines.spare }
        ensures older { option_map context_of result ≡ older_if suspends (context_of self.old.context) }
        ensures suspends { SuspendsIf suspends (length told.now) self.old self.new }
        ensures held { result ≡ held_if suspends self.old.context }
        ensures free { suspends ≡ true → self.new.context ≡ bare }
        ensures kept { suspends ≡ false → self.new.context ≡ self.old.context }
    {
        if suspends {
            Some(self.suspend(told))
        } else {
            None
        }
    }

    /// Makes synchronisation active, where the scope owns it.
    pub fn start_syncs_if(&mut self, alloc: Global, owns: bool)
        requires free { owns ≡ true → self.old.context.syncs ≡ None }
        ensures started { context_of self.new.context ≡ with_syncs_started owns (context_of self.old.context) }
        ensures tx { self.new.context.tx ≡ self.old.context.tx }
        ensures rest { self.new ≡ record self.old { context = self.new.context } }
    {
        if owns {
            self.context.start_syncs(Registry::new(alloc));
        }
    }

    // Puts an intercepted call on top of the others.
    fn push_call(&mut self, method: MethodNo, catch: Option<ClassNo>, scope: Scope, phase: Phase)
        requires frames { 1 ≤ self.old.frames.spare }
        ensures { IsPushed self.old (new_call method catch scope self.old.local phase) self.new }
    {
        self.frames.push(Frame::Body {
            method,
            place: 0,
            catch,
            scope: Some(Interception {
                scope,
                outer: self.local,
                phase,
            }),
        });
    }

    // Suspends what the client carries: each registration is told, and then the connection is unbound.
    fn suspend(&mut self, told: &[Registered]) -> Suspended
        requires told { AreTold told.now (context_of self.old.context) }
        requires lines { length told.now + 1 ≤ self.old.lines.spare }
        ensures held { result ≡ self.old.context }
        ensures suspends { Suspends (length told.now) self.old self.new }
    {
        self.say_each(told, false);
        self.say_unbind();
        self.context.suspend()
    }

    // Says that the bound connection is unbound, if one is bound.
    fn say_unbind(&mut self)
        requires lines { 1 ≤ self.old.lines.spare }
        ensures { SaysUnbind self.old self.new }
    {
        if let Some(holder) = self.context.bound() {
            self.lines.push(Line::Unbind(holder.numbers().0));
        }
    }

    /// Tells registrations that were resumed, or that are suspended.
    pub fn say_each(&mut self, told: &[Registered], resumed: bool)
        requires lines { length told.now ≤ self.old.lines.spare }
        ensures said { self.new.lines.items ≡ self.old.lines.items ++ map (λ r. told_line_of resumed r.label) told.now }
        ensures room { self.old.lines.spare ≤ self.new.lines.spare + length told.now }
        ensures rest { self.new ≡ record self.old { lines = self.new.lines } }
    {
        for registered in told {
            self.lines.push(told_line(registered.label, resumed));
        }
    }

    /// Carries again what was suspended, and binds its connection. Its registrations are still to be told.
    pub fn resume(&mut self, suspended: Suspended)
        requires bare { self.old.context ≡ bare }
        requires lines { 1 ≤ self.old.lines.spare }
        ensures { Resumes self.old suspended self.new }
    {
        self.context.resume(suspended);
        if let Some(holder) = self.context.bound() {
            self.lines.push(Line::Bind(holder.numbers().0));
        }
    }
}

// The line that tells a registration.
fn told_line(label: Label, resumed: bool) -> Line
    ensures { result ≡ told_line_of resumed label }
{
    if resumed {
        Line::Resume(label)
    } else {
        Line::Suspend(label)
    }
}
